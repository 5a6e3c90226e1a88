// Statuses, and the lines that they say.
use crate::printing::written;
use std::alloc::{AllocError, Global};
use sx_atoms::Code;
use sx_limits::{DocFault, Which};
use sx_reading::{Input, Status};

// What is wrong, by the word of its variant.
fn which_of(word: &str) -> Option<Which> {
    match word {
        "NotUtf8" => Some(Which::NotUtf8),
        "BadEscape" => Some(Which::BadEscape),
        "BadCommand" => Some(Which::BadCommand),
        "BadAttr" => Some(Which::BadAttr),
        "Sdata" => Some(Which::Sdata),
        "Unsupported" => Some(Which::Unsupported),
        "LooseAttr" => Some(Which::LooseAttr),
        "EndMismatch" => Some(Which::EndMismatch),
        "AfterRoot" => Some(Which::AfterRoot),
        "NoRoot" => Some(Which::NoRoot),
        "Truncated" => Some(Which::Truncated),
        "DoubleAttr" => Some(Which::DoubleAttr),
        "UnboundPrefix" => Some(Which::UnboundPrefix),
        "Line" => Some(Which::Line),
        "TextRun" => Some(Which::TextRun),
        "Attrs" => Some(Which::Attrs),
        "Depth" => Some(Which::Depth),
        "Bytes" => Some(Which::Bytes),
        "Nodes" => Some(Which::Nodes),
        _ => None,
    }
}

// An error, by its code.
fn code_of(word: &str) -> Option<Code> {
    match word {
        "XTSE0010" => Some(Code::Xtse0010),
        "XTSE3430" => Some(Code::Xtse3430),
        "SXLI0001" => Some(Code::Sxli0001),
        _ => None,
    }
}

// What is wrong with an input: a word and a line.
fn fault_of(text: &str) -> Option<DocFault> {
    let (word, line) = text.split_once(' ')?;
    Some(DocFault {
        which: which_of(word)?,
        line: line.parse::<u64>().ok()?,
    })
}

fn static_of(text: &str) -> Option<Status> {
    let (word, line) = text.split_once(' ')?;
    Some(Status::Static {
        code: code_of(word)?,
        line: line.parse::<u64>().ok()?,
    })
}

fn malformed(input: Input, text: &str) -> Option<Status> {
    let fault = fault_of(text)?;
    Some(Status::Malformed { input, fault })
}

fn limit(input: Input, text: &str) -> Option<Status> {
    let fault = fault_of(text)?;
    Some(Status::Limit { input, fault })
}

// The status that a word and its text say.
fn status_with(word: &str, text: &str) -> Option<Status> {
    match word {
        "Static" => static_of(text),
        "Dynamic" => Some(Status::Dynamic {
            code: code_of(text)?,
        }),
        "MalformedSheet" => malformed(Input::Sheet, text),
        "MalformedDocument" => malformed(Input::Document, text),
        "LimitSheet" => limit(Input::Sheet, text),
        "LimitDocument" => limit(Input::Document, text),
        _ => None,
    }
}

fn status_of(text: &str) -> Option<Status> {
    match text {
        "Ok" => Some(Status::Ok),
        "Usage" => Some(Status::Usage),
        "OpenFault" => Some(Status::OpenFault),
        "ReadFault" => Some(Status::ReadFault),
        "WriteFault" => Some(Status::WriteFault),
        "OutOfMemory" => Some(Status::OutOfMemory),
        text => {
            let (word, text) = text.split_once(' ')?;
            status_with(word, text)
        }
    }
}

/// The exit status, and the line for the diagnostic output.
pub fn status(alloc: Global, text: &str) -> Result<String, AllocError> {
    let Some(status) = status_of(text) else {
        return String::from_str(alloc, "no status");
    };
    let number = status.number();
    let line = status.diagnostic();
    let line = written(alloc, Some(line.as_slice()))?;
    format!(in alloc; "{number} ; {line}")
}
