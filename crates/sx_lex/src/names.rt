// Names and wildcards.
ghost use Rattle.std.specs.Prelude.{◌≡◌, ◌≢◌, ◌+◌, ◌<◌, true, MatchOption, length};
ghost use Rattle.std.specs.Prelude.{slice_index};
ghost use Rattle.sx_chars.specs.Names as chars;
ghost use Rattle.sx_lex.specs.Fronts as spec;
ghost use Rattle.sx_lex.specs.Fronts.{IsToken, IsTextFront, IsNameRun};
ghost use Rattle.sx_lex.specs.Tokens.{NoToken};

use crate::kinds::{Front, TokenKind};
use sx_chars::is_ncname;

/// Whether a byte may begin a name: a letter, `_`, or the first byte of a character beyond ASCII.
pub(crate) fn begins_name(byte: u8) -> bool
    ensures { result ≡ spec.begins_name byte }
{
    matches!(byte, b'A'..=b'Z' | b'_' | b'a'..=b'z' | 128..)
}

/// The name, or the wildcard for any local name, at the front of a text whose first byte may begin a name.
pub(crate) fn name(text: &str) -> Option<Front>
    requires { spec.begins_name (slice_index text.now 0) ≡ true }
    ensures { MatchOption result (NoToken text.now) (λ front. IsToken text.now front.kind front.size) }
{
    let prefix = ncname_size(text);
    let bytes = text.as_bytes();
    if prefix == 0 {
        None
    } else if prefix == bytes.len() || bytes[prefix] != b':' {
        Some(Front {
            kind: TokenKind::Name,
            size: prefix,
        })
    } else if prefix + 1 < bytes.len() && bytes[prefix + 1] == b'*' {
        Some(Front {
            kind: TokenKind::Wild,
            size: prefix + 2,
        })
    } else {
        Some(Front {
            kind: TokenKind::Name,
            size: qname_size(text, prefix),
        })
    }
}

/// How many bytes the name has whose prefix, in front of a colon, has so many: those of the prefix where no local name follows.
fn qname_size(text: &str, prefix: usize) -> usize
    requires begins { spec.begins_name (slice_index text.now 0) ≡ true }
    requires front { IsTextFront chars.is_ncname text.now prefix }
    requires some { 0 < prefix }
    requires within { prefix < length text.now }
    requires colon { slice_index text.now prefix ≡ 58 }
    requires star { prefix + 1 < length text.now → slice_index text.now (prefix + 1) ≢ 42 }
    ensures { IsToken text.now TokenKind.Name result }
{
    match ncname_size(&text[prefix + 1..]) {
        0 => prefix,
        local => prefix + 1 + local,
    }
}

/// The wildcard for any prefix, or the asterisk alone, at the front of a text that begins with `*:`.
pub(crate) fn any_prefix(text: &str) -> Front
    requires star { slice_index text.now 0 ≡ 42 }
    requires colon { slice_index text.now 1 ≡ 58 }
    ensures { IsToken text.now result.kind result.size }
{
    match ncname_size(&text[2..]) {
        0 => Front {
            kind: TokenKind::Mark,
            size: 1,
        },
        local => Front {
            kind: TokenKind::Wild,
            size: 2 + local,
        },
    }
}

/// How many bytes the longest NCName at the front has; 0 where there is none.
fn ncname_size(text: &str) -> usize
    ensures { IsTextFront chars.is_ncname text.now result }
{
    match text.chars().next() {
        None => 0,
        Some(first) => { if is_first(first) { run_size(text) } else { 0 } }
    }
}

/// How many bytes the characters at the front have that go on a name.
fn run_size(text: &str) -> usize
    ensures { IsNameRun text.now result }
{
    for (place, character) in text.char_indices() {
        if !is_further(character) {
            return place;
        }
    }
    text.len()
}

/// Whether a character begins a name.
fn is_first(character: char) -> bool
    ensures { result ≡ chars.is_first character }
{
    is_ncname(character.encode_utf8(&mut [0; 4]))
}

/// Whether a character goes on a name.
fn is_further(character: char) -> bool
    ensures { result ≡ chars.is_further character }
{
    is_first(character)
        || matches!(
            character,
            '-' | '.' | '0'..='9' | '\u{b7}' | '\u{300}'..='\u{36f}' | '\u{203f}'..='\u{2040}'
        )
}
