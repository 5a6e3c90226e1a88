// How cases write texts and bytes, and how answers show them.
use std::alloc::{AllocError, Global};
use std::str;
use sx_names::Names;
use sx_tree::{Chars, Label};

// Appends a text in which `¶` stands for a newline.
fn append_lines(bytes: &mut Vec<u8>, text: &str) -> Result<(), AllocError> {
    for (i, line) in text.split('¶').enumerate() {
        if i > 0 {
            bytes.push(b'\n')?;
        }
        bytes.extend_from_slice(line.as_bytes())?;
    }
    Ok(())
}

// The byte that stands behind `\`, and what follows it.
fn byte_in_front(text: &str) -> Option<(u8, &str)> {
    let (digits, rest) = text.strip_prefix('x')?.split_at_checked(2)?;
    match u8::from_str_radix(digits, 16) {
        Ok(byte) => Some((byte, rest)),
        Err(_) => None,
    }
}

// The character that stands behind `\`, and what follows it.
fn character_in_front(text: &str) -> Option<(char, &str)> {
    let (digits, rest) = text.strip_prefix("u{")?.split_once('}')?;
    match u32::from_str_radix(digits, 16) {
        Ok(code) => Some((char::from_u32(code)?, rest)),
        Err(_) => None,
    }
}

// Appends what stands behind `\`, and `\` itself where it stands for nothing else.
fn append_marked(alloc: Global, bytes: &mut Vec<u8>, text: &str) -> Result<(), AllocError> {
    if let Some((byte, rest)) = byte_in_front(text) {
        bytes.push(byte)?;
        return append_lines(bytes, rest);
    }
    if let Some((character, rest)) = character_in_front(text) {
        let character = format!(in alloc; "{character}")?;
        bytes.extend_from_slice(character.as_str().as_bytes())?;
        return append_lines(bytes, rest);
    }
    bytes.push(b'\\')?;
    append_lines(bytes, text)
}

/// The bytes that a case writes so: `¶` is a newline, `\x` with two hexadecimal digits a byte, and `\u{..}` a character.
pub fn bytes_of(alloc: Global, text: &str) -> Result<Vec<u8>, AllocError> {
    let mut bytes = Vec::new(alloc);
    for (i, part) in text.split('\\').enumerate() {
        if i == 0 {
            append_lines(&mut bytes, part)?;
        } else {
            append_marked(alloc, &mut bytes, part)?;
        }
    }
    Ok(bytes)
}

/// The text that a case writes so, and `?` where its bytes are none.
pub fn text_of(alloc: Global, text: &str) -> Result<String, AllocError> {
    let bytes = bytes_of(alloc, text)?;
    String::from_str(alloc, str::from_utf8(&bytes).unwrap_or("?"))
}

// Appends a character as answers show it.
fn append_shown(out: &mut String, character: char) -> Result<(), AllocError> {
    let code = u32::from(character);
    if character == '\n' {
        return out.push('¶');
    }
    if code < 0x20 || code == 0x7F {
        let mark = format!(in *out.allocator(); "\\x{code:02x}")?;
        return out.push_str(mark.as_str());
    }
    if (0x80..=0xA0).contains(&code) || code >= 0xD7FF {
        let mark = format!(in *out.allocator(); "\\u{{{code:x}}}")?;
        return out.push_str(mark.as_str());
    }
    out.push(character)
}

/// Appends a text as answers show it: on one line, and without control characters.
pub fn show(out: &mut String, text: &str) -> Result<(), AllocError> {
    for character in text.chars() {
        append_shown(out, character)?;
    }
    Ok(())
}

/// Appends bytes as answers show them, in brackets.
pub fn show_bytes(out: &mut String, bytes: &[u8]) -> Result<(), AllocError> {
    out.push('[')?;
    show(out, str::from_utf8(bytes).unwrap_or("?"))?;
    out.push(']')
}

/// Appends a word behind those that stand there, with a space between them.
pub fn append_word(out: &mut String, word: &str) -> Result<(), AllocError> {
    if !out.is_empty() {
        out.push(' ')?;
    }
    out.push_str(word)
}

/// The prefix, the namespace and the local part of a name that a case writes as `PREFIX:{URI}LOCAL`, `{URI}LOCAL` or
/// `LOCAL`.
pub fn name_parts(name: &str) -> (&str, &str, &str) {
    let Some((prefix, rest)) = name.split_once('{') else {
        return ("", "", name);
    };
    let (uri, local) = rest.split_once('}').unwrap_or((rest, ""));
    (prefix.trim_end_matches(':'), uri, local)
}

/// A text that a case writes so.
pub fn chars_of(alloc: Global, text: &str) -> Result<Chars, AllocError> {
    let text = text_of(alloc, text)?;
    Chars::copy(alloc, text.as_str())
}

/// A name that a case writes as `PREFIX:{URI}LOCAL`, `{URI}LOCAL` or `LOCAL`.
pub fn label_of(alloc: Global, names: &mut Names, name: &str) -> Result<Label, AllocError> {
    let (prefix, uri, local) = name_parts(name);
    let number = names.intern(uri, local)?;
    let prefix = Chars::copy(alloc, prefix)?;
    Ok(Label { number, prefix })
}

/// Appends a name as answers show it, `PREFIX:{URI}LOCAL`.
pub fn label_shown(out: &mut String, names: &Names, label: &Label) -> Result<(), AllocError> {
    let prefix = label.prefix.as_str();
    if !prefix.is_empty() {
        out.push_str(prefix)?;
        out.push(':')?;
    }
    if names.has(label.number) {
        out.push('{')?;
        out.push_str(names.uri(label.number))?;
        out.push('}')?;
        out.push_str(names.local(label.number))?;
    }
    Ok(())
}
