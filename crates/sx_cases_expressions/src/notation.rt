// How rows are written: characters that are hard to see, and what is repeated.
use std::alloc::{AllocError, Global};

// White space by its letter.
const BLANKS: [(char, char); 4] = [('s', ' '), ('t', '\t'), ('r', '\r'), ('n', '\n')];

// The fewest pieces of a run that is written as one.
const FEWEST: usize = 16;

// The most bytes of such a piece.
const LONGEST: usize = 32;

// The white space that a letter stands for, and what stands behind the letter.
fn blank(piece: &str) -> Option<(char, &str)> {
    for (letter, blank) in BLANKS {
        if let Some(rest) = piece.strip_prefix(letter) {
            return Some((blank, rest));
        }
    }
    None
}

// The character that `u{HEX}` stands for, and what stands behind.
fn scalar(piece: &str) -> Option<(char, &str)> {
    let (digits, rest) = piece.strip_prefix("u{")?.split_once('}')?;
    let code = u32::from_str_radix(digits, 16).ok()?;
    Some((char::from_u32(code)?, rest))
}

// How often what stands behind `N<` is repeated.
fn repetition(piece: &str) -> Option<(u32, &str)> {
    let (count, repeated) = piece.split_once('<')?;
    Some((count.parse::<u32>().ok()?, repeated))
}

// Writes what stands behind a backslash.
fn write_escape(piece: &str, out: &mut String) -> Result<(), AllocError> {
    if let Some((count, repeated)) = repetition(piece) {
        for _ in 0..count {
            out.push_str(repeated)?;
        }
        return Ok(());
    }
    match blank(piece).or(scalar(piece)) {
        Some((c, rest)) => {
            out.push(c)?;
            out.push_str(rest)
        }
        None => out.push_str(piece.strip_prefix('>').unwrap_or(piece)),
    }
}

/// The text that a row's text stands for.
pub fn expanded(alloc: Global, written: &str) -> Result<String, AllocError> {
    let mut out = String::new(alloc);
    for (i, piece) in written.split('\\').enumerate() {
        if i == 0 {
            out.push_str(piece)?;
        } else {
            write_escape(piece, &mut out)?;
        }
    }
    Ok(out)
}

// How often the first bytes of a text stand there one behind another.
fn repeats(text: &[u8], size: usize) -> usize {
    let Some(behind) = text.get(size..) else {
        return 1;
    };
    let mut same: usize = 0;
    for (a, b) in text.iter().zip(behind) {
        if a != b {
            break;
        }
        same = same.saturating_add(1);
    }
    same.checked_div(size).unwrap_or(0).saturating_add(1)
}

// The shortest piece at a place of a text that is repeated there often, and how often.
fn run_at(text: &str, at: usize) -> Option<(&str, usize)> {
    let rest = text.get(at..)?;
    for size in 1..LONGEST + 1 {
        let count = repeats(rest.as_bytes(), size);
        if count >= FEWEST {
            return Some((rest.get(..size)?, count));
        }
    }
    None
}

// Writes a character, by its number where it can't be seen.
fn write_char(c: char, out: &mut String) -> Result<(), AllocError> {
    if c >= ' ' && c <= '~' || c > '\u{a0}' {
        return out.push(c);
    }
    let number = format!(in *out.allocator(); "\\u{{{:x}}}", c as u32)?;
    out.push_str(number.as_str())
}

/// A text as a row's answer is written. No run begins inside a word.
pub fn folded(alloc: Global, text: &str) -> Result<String, AllocError> {
    let mut out = String::new(alloc);
    let mut next = 0;
    let mut in_word = false;
    for (at, c) in text.char_indices() {
        if at < next {
            continue;
        }
        let goes_on = in_word && c.is_ascii_alphanumeric();
        in_word = c.is_ascii_alphanumeric();
        match if goes_on { None } else { run_at(text, at) } {
            Some((piece, count)) => {
                let run = format!(in alloc; "\\{count}<{piece}\\>")?;
                out.push_str(run.as_str())?;
                next = at.saturating_add(piece.len().saturating_mul(count));
                in_word = false;
            }
            None => write_char(c, &mut out)?,
        }
    }
    Ok(out)
}
