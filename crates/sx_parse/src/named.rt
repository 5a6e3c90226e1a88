// Behind a name.
ghost use Rattle.std.specs.Prelude.{◌≡◌, IfOk};
ghost use Rattle.sx_parse.specs.Flat as flat;
ghost use Rattle.sx_parse.specs.Flat.{outcome, seen};

use crate::frames::{Frame, Mode, Shape};
use crate::lexemes::{Binder, KindWord, Lexeme, Mark, StepPrefix, Test, Word};
use crate::nodes::Node;
use crate::reader::{Reader, replace_last};
use crate::roles::Role;
use crate::rules::names_axis;
use std::alloc::AllocError;

impl Reader {
    /// The parentheses of a kind test (XPath 3.1, 3.3.2.2)
    fn open_test(
        &mut self,
        prefix: StepPrefix,
        kind: KindWord,
        place: u32,
    ) -> Result<bool, AllocError>
        ensures { IfOk result
            (λ goes. outcome goes (seen self.new) ≡ flat.open_test (seen self.old) prefix kind place) }
    {
        replace_last(&mut self.roles, Role::Plain);
        let opens = Role::Opens(self.depth.saturating_add(1));
        self.turn(Mode::Kind(prefix, kind, place), opens)
    }

    fn open_kind(&mut self, prefix: StepPrefix, word: Word, place: u32) -> Result<bool, AllocError>
        ensures { IfOk result
            (λ goes. outcome goes (seen self.new) ≡ flat.open_kind (seen self.old) prefix word place) }
    {
        match word {
            Word::Kind(kind) => self.open_test(prefix, kind, place),
            _ => Ok(false),
        }
    }

    /// The parentheses of `if` (XPath 3.1, 3.10)
    fn open_condition(&mut self) -> Result<bool, AllocError>
        ensures { IfOk result (λ goes. outcome goes (seen self.new)
            ≡ flat.open_condition (seen self.old)) }
    {
        if !self.in_pattern() && self.floor() <= 1 {
            self.depth = self.depth.saturating_add(1);
            replace_last(&mut self.roles, Role::Opens(self.depth));
            self.open(Frame::Condition, Mode::Want)
        } else {
            Ok(false)
        }
    }

    /// The parentheses of a call (XPath 3.1, 3.1.5)
    fn open_call(&mut self, function: u32) -> Result<bool, AllocError>
        ensures { IfOk result
            (λ goes. outcome goes (seen self.new) ≡ flat.open_call (seen self.old) function) }
    {
        if self.in_pattern() {
            Ok(false)
        } else {
            replace_last(&mut self.roles, Role::Function);
            self.open(Frame::Arguments(function), Mode::Fresh)
        }
    }

    fn open_plain(&mut self, word: Word, place: u32) -> Result<bool, AllocError>
        ensures { IfOk result
            (λ goes. outcome goes (seen self.new) ≡ flat.open_plain (seen self.old) word place) }
    {
        match word {
            Word::Kind(kind) => self.open_test(StepPrefix::Plain, kind, place),
            Word::If => self.open_condition(),
            _ => self.open_call(place),
        }
    }

    /// `(` behind a name
    fn open_name(&mut self, prefix: StepPrefix, word: Word, place: u32) -> Result<bool, AllocError>
        ensures { IfOk result
            (λ goes. outcome goes (seen self.new) ≡ flat.open_name (seen self.old) prefix word place) }
    {
        match prefix {
            StepPrefix::Plain => self.open_plain(word, place),
            _ => self.open_kind(prefix, word, place),
        }
    }

    /// `::` behind a name
    fn name_axis(&mut self, prefix: StepPrefix, word: Word, place: u32) -> Result<bool, AllocError>
        ensures { IfOk result
            (λ goes. outcome goes (seen self.new) ≡ flat.name_axis (seen self.old) prefix word place) }
    {
        match prefix {
            StepPrefix::Plain => self.begin_axis(word, place),
            _ => Ok(false),
        }
    }

    fn begin_axis(&mut self, word: Word, place: u32) -> Result<bool, AllocError>
        ensures { IfOk result
            (λ goes. outcome goes (seen self.new) ≡ flat.begin_axis (seen self.old) word place) }
    {
        if names_axis(self.in_pattern(), word) {
            replace_last(&mut self.roles, Role::Plain);
            self.turn(Mode::Axis(StepPrefix::Axis(word, place)), Role::Plain)
        } else {
            Ok(false)
        }
    }

    /// `$` behind a name
    fn name_binder(&mut self, prefix: StepPrefix, word: Word) -> Result<bool, AllocError>
        ensures { IfOk result
            (λ goes. outcome goes (seen self.new) ≡ flat.name_binder (seen self.old) prefix word) }
    {
        match (prefix, word) {
            (StepPrefix::Plain, Word::Binder(binder)) => self.begin_binder(binder),
            _ => Ok(false),
        }
    }

    fn begin_binder(&mut self, binder: Binder) -> Result<bool, AllocError>
        ensures { IfOk result
            (λ goes. outcome goes (seen self.new) ≡ flat.begin_binder (seen self.old) binder) }
    {
        if !self.in_pattern() && self.floor() <= 1 {
            self.depth = self.depth.saturating_add(1);
            replace_last(&mut self.roles, Role::Opens(self.depth));
            self.turn(Mode::BinderDollar(binder), Role::Plain)
        } else {
            Ok(false)
        }
    }

    fn follow_step(
        &mut self,
        prefix: StepPrefix,
        word: Word,
        place: u32,
        lexeme: Lexeme,
    ) -> Result<bool, AllocError>
        ensures { IfOk result
            (λ goes. outcome goes (seen self.new)
            ≡ flat.follow_step (seen self.old) prefix word place lexeme) }
    {
        self.nodes
            .push(Node::Step(prefix, Test::Named(word, place)))?;
        self.follow(Shape::Filtered, 1, lexeme)
    }

    /// A token behind a name.
    pub fn follow_named(
        &mut self,
        prefix: StepPrefix,
        word: Word,
        place: u32,
        lexeme: Lexeme,
    ) -> Result<bool, AllocError>
        ensures { IfOk result
            (λ goes. outcome goes (seen self.new)
            ≡ flat.follow_named (seen self.old) prefix word place lexeme) }
    {
        match lexeme {
            Lexeme::Mark(Mark::Open) => self.open_name(prefix, word, place),
            Lexeme::Mark(Mark::Colons) => self.name_axis(prefix, word, place),
            Lexeme::Mark(Mark::Dollar) => self.name_binder(prefix, word),
            _ => self.follow_step(prefix, word, place, lexeme),
        }
    }
}
