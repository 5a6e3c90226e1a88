// What a call answers in place of what it reads, and how constructs are numbered.
use sx_atoms::Code;

/// Why a text is no expression, value template or pattern, and where: the offset in bytes, counted from 0.
#[derive(Clone, Copy, Debug, PartialEq, Eq)]
pub struct SyntaxFault {
    pub code: Code,
    pub offset: u32,
}

/// The number of the next construct, and the line on which its element starts.
#[derive(Clone, Copy, Debug, PartialEq, Eq)]
pub struct Numbering {
    pub next: u64,
    pub line: u64,
}
