// What a token does in each state of the reader, and what the end does.
ghost use Rattle.std.specs.Prelude.{◌≡◌, IfOk};
ghost use Rattle.sx_parse.specs.Flat as flat;
ghost use Rattle.sx_parse.specs.Flat.{outcome, seen};

use crate::frames::{Frame, Mode, Shape};
use crate::lexemes::{Lexeme, Operator, StepPrefix, Test, Word};
use crate::nodes::Node;
use crate::reaching::reaches;
use crate::reader::Reader;
use crate::rules::begins_step;
use std::alloc::AllocError;

impl Reader {
    fn follow_root(&mut self, lexeme: Lexeme) -> Result<bool, AllocError>
        ensures { IfOk result
            (λ goes. outcome goes (seen self.new) ≡ flat.follow_root (seen self.old) lexeme) }
    {
        if reaches(self.in_pattern(), self.floor(), Shape::Root) {
            self.nodes.push(Node::Root)?;
            self.follow(Shape::Root, 1, lexeme)
        } else {
            Ok(false)
        }
    }

    fn follow_slash(&mut self, lexeme: Lexeme) -> Result<bool, AllocError>
        ensures { IfOk result
            (λ goes. outcome goes (seen self.new) ≡ flat.follow_slash (seen self.old) lexeme) }
    {
        if begins_step(lexeme) {
            self.frames.push(Frame::Signed(Operator::Slash))?;
            self.begin(lexeme)
        } else {
            self.follow_root(lexeme)
        }
    }

    /// Whether reading goes on at a token: it is read then.
    pub fn read(&mut self, lexeme: Lexeme) -> Result<bool, AllocError>
        ensures { IfOk result (λ goes. outcome goes (seen self.new) ≡ flat.read (seen self.old) lexeme) }
    {
        match self.mode {
            Mode::Want => self.begin(lexeme),
            Mode::Fresh => self.begin_fresh(lexeme),
            Mode::Slash => self.follow_slash(lexeme),
            Mode::Named(prefix, word, place) => self.follow_named(prefix, word, place, lexeme),
            Mode::Dollar => self.variable_name(lexeme),
            Mode::Axis(prefix) => self.axis_test(prefix, lexeme),
            Mode::Kind(prefix, kind, place) => self.in_kind(prefix, kind, place, lexeme),
            Mode::KindName(prefix, test) => self.end_kind(prefix, test, lexeme),
            Mode::Have(shape, operands) => self.follow(shape, operands, lexeme),
            Mode::CommaBound(binder) => self.bound_dollar(binder, lexeme),
            Mode::BinderDollar(binder) => self.bound_name(binder, lexeme),
            Mode::BinderName(binder, name) => self.bind_name(binder, name, lexeme),
            Mode::Casting(casting) => self.cast_as(casting, lexeme),
            Mode::CastingAs(casting) => self.cast_type(casting, lexeme),
            Mode::Conditioned => self.then_word(lexeme),
        }
    }

    /// Whether nothing is open or pending.
    fn is_closed(&self) -> bool
        ensures { outcome result (seen self.now) ≡ flat.whole (seen self.now) }
    {
        match self.frames.as_slice().last() {
            None => true,
            Some(_) => false,
        }
    }

    /// Whether nothing is open behind an operand.
    fn whole(&mut self, operands: u64) -> Result<bool, AllocError>
        ensures { IfOk result
            (λ goes. outcome goes (seen self.new)
            ≡ flat.whole (flat.joined_at 0 (seen self.old) operands).flat) }
    {
        self.reach(0, operands)?;
        Ok(self.is_closed())
    }

    fn end_step(&mut self, prefix: StepPrefix, word: Word, place: u32) -> Result<bool, AllocError>
        ensures { IfOk result
            (λ goes. outcome goes (seen self.new) ≡ flat.end_step (seen self.old) prefix word place) }
    {
        self.nodes
            .push(Node::Step(prefix, Test::Named(word, place)))?;
        self.whole(1)
    }

    fn end_root(&mut self) -> Result<bool, AllocError>
        ensures { IfOk result (λ goes. outcome goes (seen self.new) ≡ flat.end_root (seen self.old)) }
    {
        if reaches(self.in_pattern(), self.floor(), Shape::Root) {
            self.nodes.push(Node::Root)?;
            self.whole(1)
        } else {
            Ok(false)
        }
    }

    /// Whether the tokens that were read may be all.
    pub fn end(&mut self) -> Result<bool, AllocError>
        ensures { IfOk result (λ goes. outcome goes (seen self.new) ≡ flat.ended (seen self.old)) }
    {
        match self.mode {
            Mode::Have(_, operands) => self.whole(operands),
            Mode::Named(prefix, word, place) => self.end_step(prefix, word, place),
            Mode::Slash => self.end_root(),
            _ => Ok(false),
        }
    }
}
