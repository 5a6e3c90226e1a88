// The notation of the rows: lines, and repetitions in them.
use std::alloc::{AllocError, Global};

const BEFORE: &[u8] =
    b"Axmlns:xsl CDATA http://www.w3.org/1999/XSL/Transform\nAxmlns:xs CDATA http://www.w3.org/2001/XMLSchema\nAversion CDATA 3.0\n(xsl:stylesheet\nAstreamable CDATA yes\nAon-no-match CDATA ";

const BEHIND: &[u8] = b"\n(xsl:mode\n)xsl:mode\n";

/// The most times that a part is repeated.
const MOST: u32 = 2_000_000;

/// The first text of some, and the others.
pub fn first_text(texts: &str) -> (&str, &str) {
    texts.split_once(" ; ").unwrap_or((texts, "none"))
}

/// A text without its stand-in where it is empty.
pub fn text_of(text: &str) -> &str {
    if text == "none" { "" } else { text }
}

// The lines before the templates, where the mode does this.
fn push_head(lines: &mut Vec<u8>, no_match: &[u8]) -> Result<(), AllocError> {
    lines.extend_from_slice(BEFORE)?;
    lines.extend_from_slice(no_match)?;
    Ok(lines.extend_from_slice(BEHIND)?)
}

// The letters of a place, from 0: a to z, then aa, ab and so on to zz.
fn push_letters(lines: &mut Vec<u8>, place: u32) -> Result<(), AllocError> {
    if place >= 26 {
        lines.push(b'a' + ((place / 26 - 1) % 26) as u8)?;
    }
    lines.push(b'a' + (place % 26) as u8)?;
    Ok(())
}

fn push_byte(lines: &mut Vec<u8>, byte: u8, place: u32) -> Result<(), AllocError> {
    match byte {
        b'|' => Ok(lines.push(b'\n')?),
        b'^' => push_head(lines, b"text-only-copy"),
        b'~' => push_head(lines, b"shallow-copy"),
        b'$' => Ok(lines.extend_from_slice(b")xsl:stylesheet\nC\n")?),
        b'*' => Ok(lines.extend_from_slice(b"(xsl:apply-templates\n)xsl:apply-templates\n")?),
        b'@' => push_letters(lines, place),
        byte => Ok(lines.push(byte)?),
    }
}

// What a text stands for at a place of a repetition.
fn push_text(lines: &mut Vec<u8>, text: &str, place: u32) -> Result<(), AllocError> {
    for byte in text.as_bytes() {
        push_byte(lines, *byte, place)?;
    }
    Ok(())
}

// A repetition: its count and its text.
fn push_repeated(lines: &mut Vec<u8>, repetition: &str) -> Result<(), AllocError> {
    let (digits, text) = repetition.split_once(' ').unwrap_or(("0", ""));
    let count = digits.parse::<u32>().unwrap_or(0);
    for place in 0..count.min(MOST) {
        push_text(lines, text, place)?;
    }
    Ok(())
}

/// The lines that a text stands for.
pub fn lines(alloc: Global, text: &str) -> Result<Vec<u8>, AllocError> {
    let mut lines = Vec::new(alloc);
    for part in text_of(text).split('{') {
        match part.split_once('}') {
            Some((repetition, behind)) => {
                push_repeated(&mut lines, repetition)?;
                push_text(&mut lines, behind, 0)?;
            }
            None => push_text(&mut lines, part, 0)?,
        }
    }
    Ok(lines)
}
