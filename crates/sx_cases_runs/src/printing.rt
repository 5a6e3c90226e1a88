// How answers are printed.
use std::alloc::{AllocError, Global};
use std::str;
use sx_atoms::Code;

// So many times the same line is written as a repetition.
const REPETITION: u32 = 10;

// A line so many times.
fn push_lines(out: &mut String, line: &str, count: u32, end: &str) -> Result<(), AllocError> {
    if count >= REPETITION {
        return write!(out, "{{{count} {line}{end}}}");
    }
    for _ in 0..count {
        out.push_str(line)?;
        out.push_str(end)?;
    }
    Ok(())
}

// Lines, each of which had a newline, with this in place of it.
fn push_all(alloc: Global, out: &mut String, lines: &str, end: &str) -> Result<(), AllocError> {
    let mut last = String::new(alloc);
    let mut count: u32 = 0;
    for line in lines.split('\n') {
        if line == last.as_str() {
            count = count.saturating_add(1);
            continue;
        }
        push_lines(out, last.as_str(), count, end)?;
        last = String::from_str(alloc, line)?;
        count = 1;
    }
    push_lines(out, last.as_str(), count, end)
}

/// Lines with this in place of each newline, the same line ten times or more as a repetition, and `none` where there is
/// nothing.
pub fn folded(alloc: Global, text: &str, end: &str) -> Result<String, AllocError> {
    if text.is_empty() {
        return String::from_str(alloc, "none");
    }
    let mut out = String::new(alloc);
    match text.rsplit_once('\n') {
        Some((lines, rest)) => {
            push_all(alloc, &mut out, lines, end)?;
            out.push_str(rest)?;
        }
        None => out.push_str(text)?,
    }
    Ok(out)
}

/// Bytes that were written to an output.
pub fn written(alloc: Global, bytes: Option<&[u8]>) -> Result<String, AllocError> {
    match bytes {
        Some(bytes) => match str::from_utf8(bytes) {
            Ok(text) => folded(alloc, text, "|"),
            Err(_) => String::from_str(alloc, "no text"),
        },
        None => String::from_str(alloc, "not told"),
    }
}

/// The eight characters of a code.
pub fn code_text(alloc: Global, code: Code) -> Result<String, AllocError> {
    written(alloc, Some(&code.text()))
}
