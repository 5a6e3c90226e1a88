// What is open and what is pending behind the tokens that were read.
use crate::lexemes::{Binder, Casting, KindWord, Operator, StepPrefix, Test, Word};

/// What stands before an operand that is to come: its own operands are complete.
#[derive(Clone, Copy, Debug, PartialEq, Eq)]
pub(crate) enum Frame {
    /// an operand, and an operator
    Pending(Operator),
    /// so many operands with commas between, and a comma
    More(u64),
    /// a sign, `/` or `//`
    Signed(Operator),
    /// `(`
    Paren,
    /// a function's name, and `(`
    Arguments(u32),
    /// what is filtered, and `[`; whether that is one more of a step or of what was filtered before
    Predicate { more: bool },
    /// `if` and `(`
    Condition,
    /// `then`, behind a test
    Branch,
    /// `else`, behind a test and a branch
    Otherwise,
    /// a variable's name, and `in` or `:=`
    Binding { binder: Binder, name: u32 },
    /// a variable with its value, in what it is used in, or before the next variable
    Body { binder: Binder, name: u32 },
}

/// What an operand is, as far as the tokens behind it ask.
#[derive(Clone, Copy, Debug, PartialEq, Eq)]
pub(crate) enum Shape {
    /// `/` alone
    Root,
    Cast {
        casting: Casting,
        to: u32,
        optional: bool,
    },
    /// a step, or what has predicates: one more predicate belongs to it
    Filtered,
    /// anything else
    Other,
}

/// What has to come.
#[derive(Clone, Copy, Debug, PartialEq, Eq)]
pub(crate) enum Mode {
    /// an operand
    Want,
    /// the same, or `)`
    Fresh,
    /// behind a `/` where an operand had to come
    Slash,
    /// behind a name where an operand or a test had to come
    Named(StepPrefix, Word, u32),
    /// behind `$`
    Dollar,
    /// behind `@`, or the name of an axis and `::`
    Axis(StepPrefix),
    /// behind the word of a kind and `(`
    Kind(StepPrefix, KindWord, u32),
    /// behind the name in its parentheses
    KindName(StepPrefix, Test),
    /// behind an operand; how many operands commas join in it
    Have(Shape, u64),
    /// behind a comma of bindings
    CommaBound(Binder),
    /// behind the `$` of a binding, and behind its name
    BinderDollar(Binder),
    BinderName(Binder, u32),
    /// behind `cast` or `castable`, and behind `as`
    Casting(Casting),
    CastingAs(Casting),
    /// behind the parentheses of `if`
    Conditioned,
}
