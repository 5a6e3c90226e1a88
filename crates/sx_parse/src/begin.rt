// Where an operand has to come.
ghost use Rattle.std.specs.Prelude.{◌≡◌, IfOk};
ghost use Rattle.sx_parse.specs.Flat as flat;
ghost use Rattle.sx_parse.specs.Flat.{outcome, seen};

use crate::frames::{Frame, Mode, Shape};
use crate::lexemes::{Lexeme, Mark, Operator, StepPrefix, Test};
use crate::nodes::Node;
use crate::reader::Reader;
use crate::roles::Role;
use std::alloc::AllocError;
use sx_kinds::ArithOp;

impl Reader {
    /// A sign (XPath 3.1, 3.5).
    fn sign(&mut self, operator: Operator) -> Result<bool, AllocError>
        ensures { IfOk result (λ goes. outcome goes (seen self.new) ≡ flat.sign (seen self.old) operator) }
    {
        if self.floor() <= 12 {
            self.expect(Frame::Signed(operator), Role::Plain)
        } else {
            Ok(false)
        }
    }

    /// `/`, which may stand alone (XPath 3.1, 3.3).
    fn begin_slash(&mut self) -> Result<bool, AllocError>
        ensures { IfOk result (λ goes. outcome goes (seen self.new) ≡ flat.begin_slash (seen self.old)) }
    {
        if self.floor() <= 15 {
            self.turn(Mode::Slash, Role::Plain)
        } else {
            Ok(false)
        }
    }

    fn begin_double_slash(&mut self) -> Result<bool, AllocError>
        ensures { IfOk result
            (λ goes. outcome goes (seen self.new) ≡ flat.begin_double_slash (seen self.old)) }
    {
        if self.floor() <= 15 {
            self.expect(Frame::Signed(Operator::DoubleSlash), Role::Plain)
        } else {
            Ok(false)
        }
    }

    /// What may begin an operand, but none of a pattern.
    fn begin_outside(&mut self, mark: Mark) -> Result<bool, AllocError>
        ensures { IfOk result
            (λ goes. outcome goes (seen self.new) ≡ flat.begin_outside (seen self.old) mark) }
    {
        match mark {
            Mark::Operator(Operator::Arith(ArithOp::Add)) => {
                self.sign(Operator::Arith(ArithOp::Add))
            }
            Mark::Operator(Operator::Arith(ArithOp::Sub)) => {
                self.sign(Operator::Arith(ArithOp::Sub))
            }
            Mark::Open => self.open(Frame::Paren, Mode::Fresh),
            Mark::Dollar => self.turn(Mode::Dollar, Role::Plain),
            Mark::Dot => self.have(Node::Dot, Role::Plain, Shape::Other),
            Mark::DotDot => self.have(Node::Parent, Role::Plain, Shape::Filtered),
            _ => Ok(false),
        }
    }

    fn begin_mark(&mut self, mark: Mark) -> Result<bool, AllocError>
        ensures { IfOk result (λ goes. outcome goes (seen self.new)
            ≡ flat.begin_mark (seen self.old) mark) }
    {
        match mark {
            Mark::Operator(Operator::Arith(ArithOp::Mul)) => {
                let any = Node::Step(StepPrefix::Plain, Test::Any);
                self.have(any, Role::Plain, Shape::Filtered)
            }
            Mark::Operator(Operator::Slash) => self.begin_slash(),
            Mark::Operator(Operator::DoubleSlash) => self.begin_double_slash(),
            Mark::At => self.turn(Mode::Axis(StepPrefix::At), Role::Plain),
            _ => self.begin_unless_pattern(mark),
        }
    }

    fn begin_unless_pattern(&mut self, mark: Mark) -> Result<bool, AllocError>
        ensures { IfOk result
            (λ goes. outcome goes (seen self.new) ≡ flat.begin_unless_pattern (seen self.old) mark) }
    {
        if self.in_pattern() {
            Ok(false)
        } else {
            self.begin_outside(mark)
        }
    }

    fn literal(&mut self, place: u32) -> Result<bool, AllocError>
        ensures { IfOk result (λ goes. outcome goes (seen self.new) ≡ flat.literal (seen self.old) place) }
    {
        if self.in_pattern() {
            Ok(false)
        } else {
            self.have(Node::Literal(place), Role::Literal, Shape::Other)
        }
    }

    /// The first token of an operand.
    pub fn begin(&mut self, lexeme: Lexeme) -> Result<bool, AllocError>
        ensures { IfOk result (λ goes. outcome goes (seen self.new) ≡ flat.begin (seen self.old) lexeme) }
    {
        match lexeme {
            Lexeme::Literal(place) => self.literal(place),
            Lexeme::Wild(place) => {
                let wild = Node::Step(StepPrefix::Plain, Test::Wild(place));
                self.have(wild, Role::Wild, Shape::Filtered)
            }
            Lexeme::Name(word, place) => {
                self.turn(Mode::Named(StepPrefix::Plain, word, place), Role::Name)
            }
            Lexeme::Mark(mark) => self.begin_mark(mark),
        }
    }

    /// `)` behind `(`.
    fn close_empty(&mut self) -> Result<bool, AllocError>
        ensures { IfOk result
            (λ goes. outcome goes (seen self.new)
            ≡ flat.close_empty (seen self.old).frames (seen self.old)) }
    {
        match self.frames.pop() {
            Some(Frame::Paren) => self.closed(Node::Empty, Role::Plain, Shape::Other),
            Some(Frame::Arguments(function)) => {
                let arguments = 0;
                let closes = Role::Closes {
                    function,
                    arguments,
                };
                self.closed(Node::Call(function), closes, Shape::Other)
            }
            _ => Ok(false),
        }
    }

    /// The first token behind `(`.
    pub fn begin_fresh(&mut self, lexeme: Lexeme) -> Result<bool, AllocError>
        ensures { IfOk result
            (λ goes. outcome goes (seen self.new) ≡ flat.begin_fresh (seen self.old) lexeme) }
    {
        match lexeme {
            Lexeme::Mark(Mark::Close) => self.close_empty(),
            _ => self.begin(lexeme),
        }
    }
}
