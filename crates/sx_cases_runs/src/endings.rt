// How a call ended, as rows show it.
use crate::printing::written;
use crate::texts::lines;
use std::alloc::{AllocError, Global};
use sx_reading::Status;

// A result of more bytes is not printed where it is the document.
const LONG: usize = 2_000;

// What was written to the result.
fn result_text(alloc: Global, document: &str, given: Option<&[u8]>) -> Result<String, AllocError> {
    if let Some(bytes) = given {
        if bytes.len() > LONG && bytes == lines(alloc, document)?.as_slice() {
            return String::from_str(alloc, "the document");
        }
    }
    written(alloc, given)
}

/// A status, what was written to the result, and what was written to the diagnostic output, where that is not nothing.
pub fn ending(
    alloc: Global,
    status: &Status,
    document: &str,
    given: Option<&[u8]>,
    diagnostic: Option<&[u8]>,
) -> Result<String, AllocError> {
    let text = result_text(alloc, document, given)?;
    let said = written(alloc, diagnostic)?;
    let number = status.number();
    if said.as_str() == "none" {
        return format!(in alloc; "{number} ; {text}");
    }
    format!(in alloc; "{number} ; {text} ; {said}")
}
