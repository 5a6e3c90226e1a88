// Behind an operand.
ghost use Rattle.std.specs.Prelude.{◌≡◌, IfOk};
ghost use Rattle.sx_parse.specs.Flat as flat;
ghost use Rattle.sx_parse.specs.Flat.{outcome, seen};

use crate::frames::{Frame, Mode, Shape};
use crate::levels::{cast_operand_level, casting_level, left_level, level};
use crate::lexemes::{Binder, Casting, Lexeme, Mark, Operator, Word};
use crate::nodes::Node;
use crate::reaching::reaches;
use crate::reader::{Reader, replace_last};
use crate::roles::Role;
use crate::rules::{allows, returns};
use std::alloc::AllocError;

impl Reader {
    fn conditioned(&mut self) -> Result<bool, AllocError>
        ensures { IfOk result (λ goes. outcome goes (seen self.new) ≡ flat.conditioned (seen self.old)) }
    {
        self.depth = self.depth.saturating_sub(1);
        self.turn(Mode::Conditioned, Role::Plain)
    }

    /// `)`, behind so many operands with commas between.
    fn close(&mut self, operands: u64) -> Result<bool, AllocError>
        ensures { IfOk result
            (λ goes. outcome goes (seen self.new) ≡ flat.close (flat.joined (seen self.old) operands)) }
    {
        match self.frames.pop() {
            Some(Frame::Paren) => self.closed(Node::Parens, Role::Plain, Shape::Other),
            Some(Frame::Arguments(function)) => {
                let arguments = operands;
                let closes = Role::Closes {
                    function,
                    arguments,
                };
                self.closed(Node::Called(function), closes, Shape::Other)
            }
            Some(Frame::Condition) => self.conditioned(),
            _ => Ok(false),
        }
    }

    /// `]`
    fn close_bracket(&mut self) -> Result<bool, AllocError>
        ensures { IfOk result
            (λ goes. outcome goes (seen self.new)
            ≡ flat.close_bracket (seen self.old).frames (seen self.old)) }
    {
        match self.frames.pop() {
            Some(Frame::Predicate { more }) => {
                self.closed(Node::Filter { more }, Role::Plain, Shape::Filtered)
            }
            _ => Ok(false),
        }
    }

    /// `else`
    fn otherwise(&mut self) -> Result<bool, AllocError>
        ensures { IfOk result
            (λ goes. outcome goes (seen self.new)
            ≡ flat.else_under (seen self.old).frames (seen self.old)) }
    {
        match self.frames.pop() {
            Some(Frame::Branch) => self.expect(Frame::Otherwise, Role::Plain),
            _ => Ok(false),
        }
    }

    fn comma_bound(&mut self, binder: Binder, name: u32) -> Result<bool, AllocError>
        ensures { IfOk result
            (λ goes. outcome goes (seen self.new) ≡ flat.comma_bound (seen self.old) binder name) }
    {
        let body = Frame::Body { binder, name };
        self.frames.push(body)?;
        self.turn(Mode::CommaBound(binder), Role::Plain)
    }

    fn more_operands(&mut self, operands: u64) -> Result<bool, AllocError>
        ensures { IfOk result
            (λ goes. outcome goes (seen self.new) ≡ flat.more_operands (seen self.old) operands) }
    {
        if self.floor() == 0 {
            self.expect(Frame::More(operands), Role::Plain)
        } else {
            Ok(false)
        }
    }

    /// `,`, behind so many operands with commas between.
    fn comma(&mut self, operands: u64) -> Result<bool, AllocError>
        ensures { IfOk result
            (λ goes. outcome goes (seen self.new) ≡ flat.comma (flat.joined (seen self.old) operands)) }
    {
        match self.frames.pop() {
            Some(Frame::Binding { binder, name }) => self.comma_bound(binder, name),
            Some(frame) => {
                self.frames.push(frame)?;
                self.more_operands(operands)
            }
            None => self.more_operands(operands),
        }
    }

    /// `return` or `satisfies`
    fn returned(&mut self, lexeme: Lexeme) -> Result<bool, AllocError>
        ensures { IfOk result (λ goes. outcome goes (seen self.new)
            ≡ flat.returned (seen self.old) lexeme) }
    {
        match self.frames.pop() {
            Some(Frame::Binding { binder, name }) if returns(binder, lexeme) => {
                let body = Frame::Body { binder, name };
                self.expect(body, Role::Plain)
            }
            _ => Ok(false),
        }
    }

    fn operate(&mut self, operator: Operator) -> Result<bool, AllocError>
        ensures { IfOk result (λ goes. outcome goes (seen self.new)
            ≡ flat.operate (seen self.old) operator) }
    {
        if self.floor() <= level(operator) {
            self.expect(Frame::Pending(operator), Role::Plain)
        } else {
            Ok(false)
        }
    }

    fn cast_on(&mut self, casting: Casting) -> Result<bool, AllocError>
        ensures { IfOk result (λ goes. outcome goes (seen self.new)
            ≡ flat.cast_on (seen self.old) casting) }
    {
        if self.floor() <= casting_level(casting) {
            self.turn(Mode::Casting(casting), Role::Plain)
        } else {
            Ok(false)
        }
    }

    /// `?` behind the name of a type (XPath 3.1, 3.14.2)
    fn question(&mut self, shape: Shape) -> Result<bool, AllocError>
        ensures { IfOk result (λ goes. outcome goes (seen self.new)
            ≡ flat.question (seen self.old) shape) }
    {
        match shape {
            Shape::Cast {
                casting,
                to,
                optional: false,
            } => self.optional(casting, to),
            _ => Ok(false),
        }
    }

    fn optional(&mut self, casting: Casting, to: u32) -> Result<bool, AllocError>
        ensures { IfOk result
            (λ goes. outcome goes (seen self.new) ≡ flat.optional (seen self.old) casting to) }
    {
        let optional = true;
        let node = Node::Cast {
            casting,
            to,
            optional,
        };
        let shape = Shape::Cast {
            casting,
            to,
            optional,
        };
        replace_last(&mut self.nodes, node);
        self.turn(Mode::Have(shape, 1), Role::Plain)
    }

    /// `[`
    fn open_predicate(&mut self, shape: Shape) -> Result<bool, AllocError>
        ensures { IfOk result
            (λ goes. outcome goes (seen self.new) ≡ flat.open_predicate (seen self.old) shape) }
    {
        if reaches(self.in_pattern(), 16, shape) {
            let more = matches!(shape, Shape::Filtered);
            self.open(Frame::Predicate { more }, Mode::Want)
        } else {
            Ok(false)
        }
    }
}

impl Reader {
    fn follow_operator(
        &mut self,
        shape: Shape,
        operands: u64,
        lexeme: Lexeme,
        operator: Operator,
    ) -> Result<bool, AllocError>
        ensures { IfOk result
            (λ goes. outcome goes (seen self.new)
            ≡ flat.follow_operator (seen self.old) shape operands lexeme operator) }
    {
        let pattern = self.in_pattern();
        let floor = left_level(operator);
        if allows(pattern, lexeme) && reaches(pattern, floor, shape) {
            self.reach(floor, operands)?;
            self.operate(operator)
        } else {
            Ok(false)
        }
    }

    fn follow_casting(
        &mut self,
        shape: Shape,
        operands: u64,
        casting: Casting,
    ) -> Result<bool, AllocError>
        ensures { IfOk result
            (λ goes. outcome goes (seen self.new)
            ≡ flat.follow_casting (seen self.old) shape operands casting) }
    {
        let floor = cast_operand_level(casting);
        if !self.in_pattern() && reaches(false, floor, shape) {
            self.reach(floor, operands)?;
            self.cast_on(casting)
        } else {
            Ok(false)
        }
    }

    fn follow_comma(&mut self, operands: u64) -> Result<bool, AllocError>
        ensures { IfOk result
            (λ goes. outcome goes (seen self.new) ≡ flat.follow_comma (seen self.old) operands) }
    {
        if self.in_pattern() {
            Ok(false)
        } else {
            let operands = self.reach(0, operands)?;
            self.comma(operands)
        }
    }

    fn follow_close(&mut self, operands: u64) -> Result<bool, AllocError>
        ensures { IfOk result
            (λ goes. outcome goes (seen self.new)
            ≡ flat.close (flat.joined_at 0 (seen self.old) operands)) }
    {
        let operands = self.reach(0, operands)?;
        self.close(operands)
    }

    fn follow_bracket(&mut self, operands: u64) -> Result<bool, AllocError>
        ensures { IfOk result
            (λ goes. outcome goes (seen self.new) ≡ flat.follow_bracket (seen self.old) operands) }
    {
        self.reach(0, operands)?;
        self.close_bracket()
    }

    fn follow_else(&mut self, operands: u64) -> Result<bool, AllocError>
        ensures { IfOk result
            (λ goes. outcome goes (seen self.new) ≡ flat.follow_else (seen self.old) operands) }
    {
        self.reach(0, operands)?;
        self.otherwise()
    }

    fn follow_returned(&mut self, operands: u64, lexeme: Lexeme) -> Result<bool, AllocError>
        ensures { IfOk result
            (λ goes. outcome goes (seen self.new) ≡ flat.follow_returned (seen self.old) operands lexeme) }
    {
        self.reach(0, operands)?;
        self.returned(lexeme)
    }

    fn follow_mark(&mut self, shape: Shape, operands: u64, mark: Mark) -> Result<bool, AllocError>
        ensures { IfOk result
            (λ goes. outcome goes (seen self.new) ≡ flat.follow_mark (seen self.old) shape operands mark) }
    {
        match mark {
            Mark::Operator(operator) => {
                self.follow_operator(shape, operands, Lexeme::Mark(mark), operator)
            }
            Mark::Comma => self.follow_comma(operands),
            Mark::Close => self.follow_close(operands),
            Mark::CloseBracket => self.follow_bracket(operands),
            Mark::OpenBracket => self.open_predicate(shape),
            Mark::Question => self.question(shape),
            _ => Ok(false),
        }
    }

    fn follow_name(
        &mut self,
        shape: Shape,
        operands: u64,
        word: Word,
        place: u32,
    ) -> Result<bool, AllocError>
        ensures { IfOk result
            (λ goes. outcome goes (seen self.new)
            ≡ flat.follow_name (seen self.old) shape operands word place) }
    {
        match word {
            Word::Operator(operator) => {
                self.follow_operator(shape, operands, Lexeme::Name(word, place), operator)
            }
            Word::Casting(casting) => self.follow_casting(shape, operands, casting),
            Word::Else => self.follow_else(operands),
            Word::Return | Word::Satisfies => {
                self.follow_returned(operands, Lexeme::Name(word, place))
            }
            _ => Ok(false),
        }
    }

    /// A token behind an operand.
    pub fn follow(
        &mut self,
        shape: Shape,
        operands: u64,
        lexeme: Lexeme,
    ) -> Result<bool, AllocError>
        ensures { IfOk result
            (λ goes. outcome goes (seen self.new) ≡ flat.follow (seen self.old) shape operands lexeme) }
    {
        match lexeme {
            Lexeme::Mark(mark) => self.follow_mark(shape, operands, mark),
            Lexeme::Name(word, place) => self.follow_name(shape, operands, word, place),
            _ => Ok(false),
        }
    }
}
