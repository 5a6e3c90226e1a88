// What is read, in the order in which it is complete: operands before what joins them.
use crate::lexemes::{Binder, Casting, Operator, StepPrefix, Test};

/// A part of an expression whose operands stand before it. A number is the place of a token.
#[derive(Clone, Copy, Debug, PartialEq, Eq)]
pub enum Node {
    /// a literal
    Literal(u32),
    /// `.`
    Dot,
    /// `..`
    Parent,
    /// `/` alone
    Root,
    /// a variable, by its name
    Variable(u32),
    /// a step
    Step(StepPrefix, Test),
    /// `()`
    Empty,
    /// one operand in parentheses
    Parens,
    /// a call without arguments, by the function's name
    Call(u32),
    /// a call whose arguments are one operand
    Called(u32),
    /// what is filtered, and a predicate; whether that is one more of a step or of what was filtered before
    Filter {
        more: bool,
    },
    /// two operands with a comma between
    Comma,
    /// a sign, `/` or `//` before one operand
    Prefix(Operator),
    /// two operands
    Binary(Operator),
    /// one operand, and the name of a type
    Cast {
        casting: Casting,
        to: u32,
        optional: bool,
    },
    /// a test and two branches
    Choice,
    /// the value of a variable, by its name, and what it is used in
    Bind(Binder, u32),
}
