// What a token is, and what a text has in place of one.
use sqlite_items::Items;
use thiserror::Error;

/// The kinds of tokens (XPath 3.1, A.2).
#[derive(Clone, Copy, Debug, PartialEq, Eq)]
pub enum TokenKind {
    /// A QName.
    Name,
    /// An NCName and `:*`, or `*:` and an NCName.
    Wild,
    /// Digits.
    Integer,
    /// Digits and one point.
    Decimal,
    /// Text in quotes.
    Str,
    /// A symbol of one character or two.
    Mark,
}

/// A token: its kind, and the bytes of the text that it has.
#[derive(Clone, Copy, Debug, PartialEq, Eq)]
pub struct Token {
    pub kind: TokenKind,
    /// Its first byte, counted from 0.
    pub start: u32,
    /// The byte behind its last one.
    pub end: u32,
}

/// The tokens of a text, in its order.
pub type Tokens = Items<Token>;

/// A text at one place of which no token begins.
#[derive(Clone, Copy, Debug, PartialEq, Eq, Error)]
#[error("no token begins at byte {offset}")]
pub struct LexFault {
    /// The byte, counted from 0; that of its first quote where a literal does not end.
    pub offset: u32,
}

/// A token at the front of a text: its kind, and how many bytes it has.
#[derive(Clone, Copy)]
pub(crate) struct Front {
    pub kind: TokenKind,
    pub size: usize,
}
