// What a row answers in place of a value.
use std::alloc::{AllocError, Global};
use sx_atoms::Code;
use sx_lex::LexFault;
use sx_parse::SyntaxFault;

/// Why a row has no value.
#[derive(Drop)]
pub enum Stop {
    Memory(AllocError),
    /// a text is not read
    Fault(SyntaxFault),
    /// a text has no token at a place
    Breaks(LexFault),
    /// an operation has a code
    Failure(Code),
    /// what is written is nothing that the row's word takes
    Unfit,
}

impl From<AllocError> for Stop {
    fn from(error: AllocError) -> Stop {
        Stop::Memory(error)
    }
}

impl From<SyntaxFault> for Stop {
    fn from(fault: SyntaxFault) -> Stop {
        Stop::Fault(fault)
    }
}

impl From<LexFault> for Stop {
    fn from(fault: LexFault) -> Stop {
        Stop::Breaks(fault)
    }
}

impl From<Code> for Stop {
    fn from(code: Code) -> Stop {
        Stop::Failure(code)
    }
}

/// A code as it is written.
pub fn code(alloc: Global, code: Code) -> Result<String, AllocError> {
    let text = code.text();
    String::from_str(alloc, str::from_utf8(&text).unwrap_or(""))
}

/// A fault: its code, and its offset.
pub fn fault(alloc: Global, fault: SyntaxFault) -> Result<String, AllocError> {
    let code = code(alloc, fault.code)?;
    format!(in alloc; "{code} {}", fault.offset)
}

/// The text of an answer.
pub fn told(alloc: Global, answer: Result<String, Stop>) -> Result<String, AllocError> {
    match answer {
        Ok(text) => Ok(text),
        Err(Stop::Memory(error)) => Err(error),
        Err(Stop::Fault(found)) => fault(alloc, found),
        Err(Stop::Breaks(found)) => format!(in alloc; "no token at {}", found.offset),
        Err(Stop::Failure(found)) => code(alloc, found),
        Err(Stop::Unfit) => String::from_str(alloc, "unfit"),
    }
}
