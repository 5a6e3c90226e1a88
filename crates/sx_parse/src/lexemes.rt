// What a token may be in the grammar.
use sx_atoms::CmpOp;
use sx_kinds::ArithOp;
use sx_tree::Axis;

/// An operator between two operands (XPath 3.1, A.1).
#[derive(Clone, Copy, Debug, PartialEq, Eq)]
pub enum Operator {
    Or,
    And,
    Compare { op: CmpOp, general: bool },
    Concat,
    Range,
    Arith(ArithOp),
    Union,
    Map,
    Slash,
    DoubleSlash,
}

/// The two operators whose right side is a type (XPath 3.1, 3.12).
#[derive(Clone, Copy, Debug, PartialEq, Eq)]
pub enum Casting {
    Castable,
    Cast,
}

/// The words that bring in a variable (XPath 3.1, 3.9 and 3.11).
#[derive(Clone, Copy, Debug, PartialEq, Eq)]
pub enum Binder {
    For,
    Let,
    Some,
    Every,
}

/// The words of kind tests (XPath 3.1, 3.3.2.2).
#[derive(Clone, Copy, Debug, PartialEq, Eq)]
pub enum KindWord {
    Node,
    Text,
    Comment,
    DocumentNode,
    ProcessingInstruction,
    Element,
    Attribute,
}

/// What a name may be besides a name. The place of a name decides what it is: each may be a name.
#[derive(Clone, Copy, Debug, PartialEq, Eq)]
pub enum Word {
    Operator(Operator),
    Casting(Casting),
    Binder(Binder),
    As,
    In,
    Return,
    Satisfies,
    If,
    Then,
    Else,
    /// `attribute` names an axis too
    Kind(KindWord),
    /// an axis other than `attribute`
    Axis(Axis),
    /// a name of another text, without a prefix
    Other,
    /// a name with a prefix
    Prefixed,
}

/// A symbol.
#[derive(Clone, Copy, Debug, PartialEq, Eq)]
pub enum Mark {
    /// `*`, `+`, `-`, `/` and `//` may begin an operand, too
    Operator(Operator),
    Open,
    Close,
    OpenBracket,
    CloseBracket,
    Comma,
    Dollar,
    At,
    Question,
    Dot,
    DotDot,
    /// `::`
    Colons,
    /// `:=`
    Assign,
}

/// A token as the grammar sees it. A number is its place among the tokens, counted from 0.
#[derive(Clone, Copy, Debug, PartialEq, Eq)]
pub enum Lexeme {
    Mark(Mark),
    Name(Word, u32),
    /// `p:*` or `*:n`
    Wild(u32),
    /// a number or a text in quotes
    Literal(u32),
}

/// What stands before the test of a step (XPath 3.1, 3.3.2.1 and 3.3.5).
#[derive(Clone, Copy, Debug, PartialEq, Eq)]
pub enum StepPrefix {
    /// nothing
    Plain,
    /// `@`
    At,
    /// the name of an axis, and `::`
    Axis(Word, u32),
}

/// The test of a step (XPath 3.1, 3.3.2.2), with the places of its names.
#[derive(Clone, Copy, Debug, PartialEq, Eq)]
pub enum Test {
    /// a name
    Named(Word, u32),
    /// `*`
    Any,
    /// a wildcard of one part
    Wild(u32),
    /// a kind
    Kind(KindWord, u32),
    /// a kind, and the name in its parentheses
    KindOf(KindWord, u32, Word, u32),
}
