// Events printed as lines of ESIS.
ghost use Rattle.std.specs.Prelude.{◌≡◌, ◌<◌, ◌≤◌, [], ◌∷◌, ◌++◌, false, length};
ghost use Rattle.std.specs.Prelude.{take, drop, IsTrue, OnOk, IfOk};
ghost use Rattle.sx_lines.specs.Print.{escaped, escape, newline_after, line, pair_line, pair_lines};
ghost use Rattle.sx_lines.specs.Print.{content_part, text_mark, printed, ending_of, IsFront};

use crate::{Built, Pair};
use std::alloc::{AllocError, Global};

// Whether a byte of a text stands for itself.
fn is_plain(byte: u8) -> bool
    ensures { IsTrue result → escaped byte ≡ byte ∷ [] }
{
    byte != b'\\' && byte >= b' ' && byte != 0x7F
}

// How many bytes at the front of a text stand for themselves.
fn plain_len(text: &[u8]) -> usize
    ensures within { result ≤ length text.now }
    ensures plain { escape text.now ≡ take result text.now ++ escape (drop result text.now) }
{
    for (i, byte) in text.iter().enumerate() {
        if !is_plain(*byte) {
            return i;
        }
    }
    text.len()
}

// Appends one byte, escaped.
fn append_byte(out: &mut Vec<u8>, byte: u8) -> Result<(), AllocError>
    ensures ok { OnOk result (out.new.items ≡ out.old.items ++ escaped byte) }
    ensures front { IsFront out.old.items out.new.items }
{
    if byte == b'\\' {
        return Ok(out.extend_from_slice(b"\\\\")?);
    }
    if byte == b'\n' {
        return Ok(out.extend_from_slice(b"\\n")?);
    }
    if byte < b' ' || byte == 0x7F {
        let digits = [
            b'\\',
            b'0' + byte / 64,
            b'0' + byte / 8 % 8,
            b'0' + byte % 8,
        ];
        return Ok(out.extend_from_slice(&digits)?);
    }
    out.push(byte)?;
    Ok(())
}

// Appends the first byte of a text, escaped, and gives what stands behind it.
fn append_first<'a>(out: &mut Vec<u8>, text: &'a [u8]) -> Result<&'a [u8], AllocError>
    ensures escaped { IfOk result (λ rest. out.new.items ++ escape rest.now
        ≡ out.old.items ++ escape text.now) }
    ensures shorter { IfOk result (λ rest. length rest.now ≤ length text.now) }
    ensures less { IfOk result (λ rest. 0 < length text.now → length rest.now < length text.now) }
    ensures front { IsFront out.old.items out.new.items }
{
    match text.split_first() {
        Some((byte, rest)) => {
            append_byte(out, *byte)?;
            Ok(rest)
        }
        None => Ok(text),
    }
}

// Appends a text, escaped: runs of bytes that stand for themselves at once.
fn append_escaped(out: &mut Vec<u8>, text: &[u8]) -> Result<(), AllocError>
    ensures ok { OnOk result (out.new.items ≡ out.old.items ++ escape text.now) }
    ensures front { IsFront out.old.items out.new.items }
{
    let mut rest = text;
    while !rest.is_empty() {
        let (run, after) = rest.split_at(plain_len(rest));
        out.extend_from_slice(run)?;
        rest = append_first(out, after)?;
    }
    Ok(())
}

// Ends a text line that is unfinished.
fn finish_text(out: &mut Vec<u8>, after_text: bool) -> Result<(), AllocError>
    ensures ok { OnOk result (out.new.items ≡ out.old.items ++ newline_after after_text) }
    ensures front { IsFront out.old.items out.new.items }
{
    if after_text {
        out.push(b'\n')?;
        return Ok(());
    }
    Ok(())
}

// Appends a line that is a first character and a name.
fn append_line(out: &mut Vec<u8>, first: u8, name: &str) -> Result<(), AllocError>
    ensures ok { OnOk result (out.new.items ≡ out.old.items ++ line first name.now) }
    ensures front { IsFront out.old.items out.new.items }
{
    out.push(first)?;
    out.extend_from_slice(name.as_bytes())?;
    out.push(b'\n')?;
    Ok(())
}

// Appends the line of an attribute.
fn append_pair(out: &mut Vec<u8>, pair: &Pair) -> Result<(), AllocError>
    ensures ok { OnOk result (out.new.items ≡ out.old.items ++ pair_line pair.now) }
    ensures front { IsFront out.old.items out.new.items }
{
    out.push(b'A')?;
    out.extend_from_slice(pair.name.as_str().as_bytes())?;
    out.extend_from_slice(b" CDATA ")?;
    append_escaped(out, pair.value.as_str().as_bytes())?;
    out.push(b'\n')?;
    Ok(())
}

// Appends the lines of attributes.
fn append_pairs(out: &mut Vec<u8>, pairs: &[Pair]) -> Result<(), AllocError>
    ensures ok { OnOk result (out.new.items ≡ out.old.items ++ pair_lines pairs.now) }
    ensures front { IsFront out.old.items out.new.items }
{
    for pair in pairs {
        append_pair(out, pair)?;
    }
    Ok(())
}

// Appends the content of a processing instruction, where it is not empty, behind a space.
fn append_content(out: &mut Vec<u8>, content: &[u8]) -> Result<(), AllocError>
    ensures ok { OnOk result (out.new.items ≡ out.old.items ++ content_part content.now) }
    ensures front { IsFront out.old.items out.new.items }
{
    if content.is_empty() {
        return Ok(());
    }
    out.push(b' ')?;
    append_escaped(out, content)
}

// Appends the line of a processing instruction.
fn append_instruction(out: &mut Vec<u8>, target: &str, content: &str) -> Result<(), AllocError>
    ensures ok { OnOk result (out.new.items
        ≡ out.old.items ++ line 63 (target.now ++ content_part content.now)) }
    ensures front { IsFront out.old.items out.new.items }
{
    out.push(b'?')?;
    out.extend_from_slice(target.as_bytes())?;
    append_content(out, content.as_bytes())?;
    out.push(b'\n')?;
    Ok(())
}

// Appends a text, behind its mark where no text line is unfinished.
fn append_text(out: &mut Vec<u8>, after_text: bool, text: &str) -> Result<(), AllocError>
    ensures ok { OnOk result (out.new.items ≡ out.old.items ++ (text_mark after_text ++ escape text.now)) }
    ensures front { IsFront out.old.items out.new.items }
{
    if after_text {
        return append_escaped(out, text.as_bytes());
    }
    out.push(b'-')?;
    append_escaped(out, text.as_bytes())
}

/// Appends an event as it is printed, where `after_text` says whether the event before it was a text: then its line is
/// still unfinished. A text leaves its line unfinished; every other event ends with a newline. `print` is this at the
/// end of an empty list. After an `AllocError` some of it may stand behind what `out` held, which is still there.
pub fn append(out: &mut Vec<u8>, after_text: bool, e: &Built) -> Result<(), AllocError>
    ensures ok { OnOk result (out.new.items ≡ out.old.items ++ printed after_text e.now) }
    ensures front { IsFront out.old.items out.new.items }
{
    match e {
        Built::Start { name, pairs } => {
            finish_text(out, after_text)?;
            append_pairs(out, pairs.as_slice())?;
            append_line(out, b'(', name.as_str())
        }
        Built::End { name } => {
            finish_text(out, after_text)?;
            append_line(out, b')', name.as_str())
        }
        Built::Text(text) => append_text(out, after_text, text.as_str()),
        Built::Pi { target, content } => {
            finish_text(out, after_text)?;
            append_instruction(out, target.as_str(), content.as_str())
        }
    }
}

/// An event as it is printed, where `after_text` says whether the event before it was a text.
pub fn print(alloc: Global, after_text: bool, e: &Built) -> Result<Vec<u8>, AllocError>
    ensures { IfOk result (λ bytes. bytes.items ≡ printed after_text e.now) }
{
    let mut out = Vec::new(alloc);
    append(&mut out, after_text, e)?;
    Ok(out)
}

/// The bytes that end a whole result, where `after_text` says whether its last event was a text. The first
/// `ending_len` bytes are in use: a newline where a text line is unfinished, then `C` and a newline. The others are 0.
pub fn ending(after_text: bool) -> [u8; 3]
    ensures used { take (length (ending_of after_text)) result ≡ ending_of after_text }
    ensures unused { after_text ≡ false → result ≡ ending_of false ++ 0 ∷ [] }
{
    if after_text { *b"\nC\n" } else { *b"C\n\0" }
}

/// How many of the bytes of `ending` are in use: 3 behind a text, and otherwise 2.
pub fn ending_len(after_text: bool) -> usize
    ensures value { result ≡ length (ending_of after_text) }
    ensures at_most { result ≤ 3 }
{
    if after_text { 3 } else { 2 }
}
