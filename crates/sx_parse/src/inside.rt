// Inside steps, bindings and casts.
ghost use Rattle.std.specs.Prelude.{◌≡◌, IfOk};
ghost use Rattle.sx_parse.specs.Flat as flat;
ghost use Rattle.sx_parse.specs.Flat.{outcome, seen};

use crate::frames::{Frame, Mode, Shape};
use crate::lexemes::{Binder, Casting, KindWord, Lexeme, Mark, Operator, StepPrefix, Test, Word};
use crate::nodes::Node;
use crate::reader::Reader;
use crate::roles::Role;
use crate::rules::{inner_role, introduces, takes_name};
use std::alloc::AllocError;
use sx_kinds::ArithOp;

impl Reader {
    /// The test behind `@` or an axis (XPath 3.1, 3.3.2).
    pub fn axis_test(&mut self, prefix: StepPrefix, lexeme: Lexeme) -> Result<bool, AllocError>
        ensures { IfOk result
            (λ goes. outcome goes (seen self.new) ≡ flat.axis_test (seen self.old) prefix lexeme) }
    {
        match lexeme {
            Lexeme::Name(word, place) => self.turn(Mode::Named(prefix, word, place), Role::Name),
            Lexeme::Wild(place) => {
                let wild = Node::Step(prefix, Test::Wild(place));
                self.have(wild, Role::Wild, Shape::Filtered)
            }
            Lexeme::Mark(Mark::Operator(Operator::Arith(ArithOp::Mul))) => {
                let any = Node::Step(prefix, Test::Any);
                self.have(any, Role::Plain, Shape::Filtered)
            }
            _ => Ok(false),
        }
    }

    fn kind_name(
        &mut self,
        prefix: StepPrefix,
        kind: KindWord,
        place: u32,
        word: Word,
        name: u32,
    ) -> Result<bool, AllocError>
        ensures { IfOk result
            (λ goes. outcome goes (seen self.new)
            ≡ flat.kind_name (seen self.old) prefix kind place word name) }
    {
        if takes_name(kind, word) {
            let test = Test::KindOf(kind, place, word, name);
            self.turn(Mode::KindName(prefix, test), inner_role(kind))
        } else {
            Ok(false)
        }
    }

    /// The token behind the parenthesis of a kind test (XPath 3.1, 3.3.2.2).
    pub fn in_kind(
        &mut self,
        prefix: StepPrefix,
        kind: KindWord,
        place: u32,
        lexeme: Lexeme,
    ) -> Result<bool, AllocError>
        ensures { IfOk result
            (λ goes. outcome goes (seen self.new)
            ≡ flat.in_kind (seen self.old) prefix kind place lexeme) }
    {
        match lexeme {
            Lexeme::Mark(Mark::Close) => {
                let step = Node::Step(prefix, Test::Kind(kind, place));
                self.have(step, Role::Plain, Shape::Filtered)
            }
            Lexeme::Name(word, name) => self.kind_name(prefix, kind, place, word, name),
            _ => Ok(false),
        }
    }

    /// The parenthesis behind the name in a kind test.
    pub fn end_kind(
        &mut self,
        prefix: StepPrefix,
        test: Test,
        lexeme: Lexeme,
    ) -> Result<bool, AllocError>
        ensures { IfOk result
            (λ goes. outcome goes (seen self.new) ≡ flat.end_kind (seen self.old) prefix test lexeme) }
    {
        match lexeme {
            Lexeme::Mark(Mark::Close) => {
                self.have(Node::Step(prefix, test), Role::Plain, Shape::Filtered)
            }
            _ => Ok(false),
        }
    }

    /// The name behind `$` (XPath 3.1, 3.1.2).
    pub fn variable_name(&mut self, lexeme: Lexeme) -> Result<bool, AllocError>
        ensures { IfOk result
            (λ goes. outcome goes (seen self.new) ≡ flat.variable_name (seen self.old) lexeme) }
    {
        match lexeme {
            Lexeme::Name(_, place) => self.have(Node::Variable(place), Role::Name, Shape::Other),
            _ => Ok(false),
        }
    }

    /// The `$` behind the comma of bindings.
    pub fn bound_dollar(&mut self, binder: Binder, lexeme: Lexeme) -> Result<bool, AllocError>
        ensures { IfOk result
            (λ goes. outcome goes (seen self.new) ≡ flat.bound_dollar (seen self.old) binder lexeme) }
    {
        match lexeme {
            Lexeme::Mark(Mark::Dollar) => {
                self.depth = self.depth.saturating_add(1);
                self.turn(Mode::BinderDollar(binder), Role::Opens(self.depth))
            }
            _ => Ok(false),
        }
    }

    /// The name of a variable that a word brings in.
    pub fn bound_name(&mut self, binder: Binder, lexeme: Lexeme) -> Result<bool, AllocError>
        ensures { IfOk result
            (λ goes. outcome goes (seen self.new) ≡ flat.bound_name (seen self.old) binder lexeme) }
    {
        match lexeme {
            Lexeme::Name(_, name) => self.turn(Mode::BinderName(binder, name), Role::Name),
            _ => Ok(false),
        }
    }

    /// The token between such a name and its value (XPath 3.1, 3.9 and 3.11).
    pub fn bind_name(
        &mut self,
        binder: Binder,
        name: u32,
        lexeme: Lexeme,
    ) -> Result<bool, AllocError>
        ensures { IfOk result
            (λ goes. outcome goes (seen self.new) ≡ flat.bind_name (seen self.old) binder name lexeme) }
    {
        if introduces(binder, lexeme) {
            let binding = Frame::Binding { binder, name };
            self.expect(binding, Role::Plain)
        } else {
            Ok(false)
        }
    }

    /// `as` (XPath 3.1, 3.14).
    pub fn cast_as(&mut self, casting: Casting, lexeme: Lexeme) -> Result<bool, AllocError>
        ensures { IfOk result
            (λ goes. outcome goes (seen self.new) ≡ flat.cast_as (seen self.old) casting lexeme) }
    {
        match lexeme {
            Lexeme::Name(Word::As, _) => self.turn(Mode::CastingAs(casting), Role::Plain),
            _ => Ok(false),
        }
    }

    /// The name of a type.
    pub fn cast_type(&mut self, casting: Casting, lexeme: Lexeme) -> Result<bool, AllocError>
        ensures { IfOk result
            (λ goes. outcome goes (seen self.new) ≡ flat.cast_type (seen self.old) casting lexeme) }
    {
        match lexeme {
            Lexeme::Name(_, to) => self.cast(casting, to),
            _ => Ok(false),
        }
    }

    fn cast(&mut self, casting: Casting, to: u32) -> Result<bool, AllocError>
        ensures { IfOk result (λ goes. outcome goes (seen self.new)
            ≡ flat.cast (seen self.old) casting to) }
    {
        let optional = false;
        let node = Node::Cast {
            casting,
            to,
            optional,
        };
        let shape = Shape::Cast {
            casting,
            to,
            optional,
        };
        self.have(node, Role::Type, shape)
    }

    /// `then` (XPath 3.1, 3.10).
    pub fn then_word(&mut self, lexeme: Lexeme) -> Result<bool, AllocError>
        ensures { IfOk result (λ goes. outcome goes (seen self.new)
            ≡ flat.then_word (seen self.old) lexeme) }
    {
        match lexeme {
            Lexeme::Name(Word::Then, _) => self.expect(Frame::Branch, Role::Plain),
            _ => Ok(false),
        }
    }
}
