// The pieces of value templates.
ghost use Rattle.std.specs.List.{prefix_len};
ghost use Rattle.std.specs.Prelude.{◌≡◌, ◌+◌, ◌<◌, ◌≤◌, false, true, not, drop, length};
ghost use Rattle.std.specs.Prelude.{slice_index, IfOk, MatchOption};
ghost use Rattle.std.specs.Str.{IsCharBoundary};
ghost use Rattle.sx_parse.specs.Templates.{begins_with, closes_in, IsClosedFront, IsNext, StopsFixed};
ghost use Rattle.sx_parse.specs.Templates as spec;

use crate::faults::SyntaxFault;
use std::alloc::{AllocError, Global};
use sx_atoms::Code;
use sx_tree::Chars;

/// What stands next in a value template, by places in bytes.
#[derive(Drop)]
pub(crate) enum Next {
    /// nothing
    End,
    /// fixed text, its braces no longer doubled, and where it ends
    Fixed(Chars, usize),
    /// the text of an expression, from behind its `{` up to its `}`
    Inner(usize, usize),
    /// a brace that nothing matches
    Fault(SyntaxFault),
}

/// Whether a byte is a brace.
fn is_brace(byte: u8) -> bool
    ensures { result ≡ spec.is_brace byte }
{
    matches!(byte, b'{' | b'}')
}

/// The literal that is open behind one more byte, by its quote; `open` is that before it.
fn quote_behind(quote: u8, byte: u8) -> u8
    ensures { result ≡ spec.quote_behind quote byte }
{
    match (quote, byte) {
        (0, b'"' | b'\'') => byte,
        (0, _) => 0,
        _ if byte == quote => 0,
        _ => quote,
    }
}

/// Whether a byte ends the text of an expression, where a literal with this quote is open, or none.
fn ends(quote: u8, byte: u8) -> bool
    ensures { result ≡ spec.ends quote byte }
{
    quote == 0 && byte == b'}'
}

/// How many bytes stand in front of the first `}` outside of literals, if there is one.
pub(crate) fn closing(bytes: &[u8]) -> Option<usize>
    ensures { MatchOption result (closes_in 0 bytes.now ≡ false) (IsClosedFront bytes.now) }
{
    let mut quote = 0;
    let mut size = 0;
    while size < bytes.len() {
        if ends(quote, bytes[size]) {
            return Some(size);
        }
        quote = quote_behind(quote, bytes[size]);
        size += 1;
    }
    None
}

/// What stands next in a value template of up to 4,096 bytes, from an offset on (XSLT 3.0, 5.6.1).
pub(crate) fn next_at(alloc: Global, text: &str, offset: usize) -> Result<Next, AllocError>
    requires boundary { IsCharBoundary text.now offset }
    requires short { length text.now ≤ 4096 }
    ensures { IfOk result (IsNext text.now offset) }
{
    let bytes = text.as_bytes();
    if offset == bytes.len() {
        Ok(Next::End)
    } else if !is_brace(bytes[offset]) || is_doubled(bytes, offset) {
        fixed_text(alloc, text, offset)
    } else if bytes[offset] == b'{' {
        Ok(inner_text(text, offset))
    } else {
        Ok(Next::Fault(SyntaxFault {
            code: Code::Xtse0370,
            offset: offset as u32,
        }))
    }
}

/// The text of an expression behind a single `{` at an offset, or the fault that no `}` ends it.
fn inner_text(text: &str, offset: usize) -> Next
    requires opens { slice_index text.now offset ≡ 123 }
    requires single { begins_with 123 (drop (offset + 1) text.now) ≡ false }
    requires short { length text.now ≤ 4096 }
    ensures { IsNext text.now offset result }
{
    let start = offset + 1;
    match closing(&text.as_bytes()[start..]) {
        None => Next::Fault(SyntaxFault {
            code: Code::Xtse0350,
            offset: offset as u32,
        }),
        Some(size) => Next::Inner(start, start + size),
    }
}

/// The fixed text at an offset, at which no single brace stands.
fn fixed_text(alloc: Global, text: &str, offset: usize) -> Result<Next, AllocError>
    requires boundary { IsCharBoundary text.now offset }
    requires begins { StopsFixed (drop offset text.now) → ⊥ }
    requires short { length text.now ≤ 4096 }
    ensures { IfOk result (IsNext text.now offset) }
{
    let bytes = text.as_bytes();
    let mut fixed = Chars::new(alloc);
    let mut end = offset;
    let mut brace = end + brace_free(&bytes[end..]);
    while is_doubled(bytes, brace) {
        fixed.push_str(&text[end..brace + 1])?;
        end = brace + 2;
        brace = end + brace_free(&bytes[end..]);
    }
    fixed.push_str(&text[end..brace])?;
    Ok(Next::Fixed(fixed, brace))
}

/// How many bytes stand in front of the first brace, or how many there are.
fn brace_free(bytes: &[u8]) -> usize
    ensures { result ≡ prefix_len (λ c. not (spec.is_brace c)) bytes.now }
{
    bytes.iter().take_while(|byte| !is_brace(**byte)).count()
}

/// Whether the byte at a place stands there twice.
fn is_doubled(bytes: &[u8], place: usize) -> bool
    requires short { length bytes.now ≤ 4096 }
    requires within { place ≤ length bytes.now }
    ensures { result ≡ begins_with (slice_index bytes.now place) (drop (place + 1) bytes.now) }
{
    place + 1 < bytes.len() && bytes[place + 1] == bytes[place]
}
