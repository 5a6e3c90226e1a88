// What is wrong with a line.
use thiserror::Error;

/// What is wrong with a line.
#[derive(Clone, Copy, Debug, PartialEq, Eq, Error)]
pub enum LineWhich {
    /// It is not UTF-8, or has a zero byte.
    #[error("the line is not UTF-8 or has a zero byte")]
    NotUtf8,
    /// An escape in it is none.
    #[error("the line has a wrong escape")]
    BadEscape,
    /// It is empty, begins with another character, has a wrong name, or more than it may.
    #[error("the line is no command")]
    BadCommand,
    /// The type of an attribute is none.
    #[error("the attribute has no such type")]
    BadAttr,
    /// It has an escape for system data.
    #[error("the line has system data")]
    Sdata,
    /// It is for an entity, a subdocument, a data or a link attribute.
    #[error("the line is of a kind that is not supported")]
    Unsupported,
    /// It is longer than the limit.
    #[error("the line is too long")]
    Line,
}

/// A line that cannot be read.
#[derive(Clone, Copy, Debug, PartialEq, Eq, Error)]
#[error("line {line}: {which}")]
pub struct LineFault {
    pub which: LineWhich,
    /// The line's number, counted from 1.
    pub line: u64,
}
