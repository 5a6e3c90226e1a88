// Names with and without a colon, and white space.
ghost use Rattle.std.specs.Prelude.{◌≡◌, ◌&&◌, ◌==◌, not, nat_lt, Some, None, MatchOption};
ghost use Rattle.std.specs.List.{list_all, position};
ghost use Rattle.std.specs.Str.{chars};
ghost use Rattle.sx_chars.specs.Names as spec;

/// Whether a text is an NCName: a name without a colon (Namespaces in XML 1.0, 3).
pub fn is_ncname(text: &str) -> bool
    ensures { result ≡ spec.is_ncname text.now }
{
    is_ascii_name(text.as_bytes()) || has_name_characters(text)
}

/// Whether a text is a QName: an NCName, or two joined by a colon (Namespaces in XML 1.0, 4).
pub fn is_qname(text: &str) -> bool
    ensures { result ≡ spec.is_qname text.now }
{
    is_ascii_name(text.as_bytes()) || are_names(split_at_colon(text), text)
}

/// The prefix and the local part of a QName: what stands in front of the first colon and behind it. A text without a colon
/// is its own local part, and its prefix is empty.
pub fn split_name(name: &str) -> (&str, &str)
    ensures prefix { result.0.now ≡ spec.prefix_of name.now }
    ensures local { result.1.now ≡ spec.local_of name.now }
{
    match split_at_colon(name) {
        None => ("", name),
        Some((prefix, local)) => (prefix, local),
    }
}

/// The target and the content of a processing instruction: what stands in front of the first white space, and what stands
/// behind all white space that follows it.
pub fn split_instruction(text: &str) -> (&str, &str)
    ensures target { result.0.now ≡ spec.before_space text.now }
    ensures content { result.1.now ≡ spec.without_leading_space (spec.from_space text.now) }
{
    let (target, rest) = split_at_space(text);
    (target, without_leading_space(rest))
}

/// Whether a byte is white space: a space, a tabulator, a line feed or a carriage return (XML 1.0, 2.3).
pub fn is_white_space(byte: u8) -> bool
    ensures { result ≡ spec.is_white_space byte }
{
    matches!(byte, b' ' | b'\t' | b'\n' | b'\r')
}

fn colon_place(bytes: &[u8]) -> Option<usize>
    ensures { result ≡ position (λ b. b == 58) bytes.now }
{
    bytes.iter().position(|b| *b == b':')
}

fn space_place(bytes: &[u8]) -> Option<usize>
    ensures { result ≡ position spec.is_white_space bytes.now }
{
    bytes.iter().position(|b| is_white_space(*b))
}

fn content_place(bytes: &[u8]) -> Option<usize>
    ensures { result ≡ position (λ b. not (spec.is_white_space b)) bytes.now }
{
    bytes.iter().position(|b| !is_white_space(*b))
}

/// What stands in front of the first colon and behind it.
fn split_at_colon(text: &str) -> Option<(&str, &str)>
    ensures { MatchOption result (spec.behind 58 text.now
        ≡ None) (λ parts. (spec.behind 58 text.now ≡ Some parts.1.now)
        × (parts.0.now ≡ spec.before 58 text.now)) }
{
    match colon_place(text.as_bytes()) {
        None => None,
        Some(place) => Some((&text[..place], &text[place + 1..])),
    }
}

/// What stands in front of the first white space, and what stands from there on.
fn split_at_space(text: &str) -> (&str, &str)
    ensures before { result.0.now ≡ spec.before_space text.now }
    ensures from { result.1.now ≡ spec.from_space text.now }
{
    match space_place(text.as_bytes()) {
        None => (text, ""),
        Some(place) => text.split_at(place),
    }
}

fn without_leading_space(text: &str) -> &str
    ensures { result.now ≡ spec.without_leading_space text.now }
{
    match content_place(text.as_bytes()) {
        None => "",
        Some(place) => &text[place..],
    }
}

/// Whether the parts round a colon are names, or the text is where there is none.
fn are_names(parts: Option<(&str, &str)>, text: &str) -> bool
    requires { MatchOption parts (spec.behind 58 text.now
        ≡ None) (λ parts. (spec.behind 58 text.now ≡ Some parts.1.now)
        × (parts.0.now ≡ spec.before 58 text.now)) }
    ensures { result ≡ spec.is_qname text.now }
{
    match parts {
        None => is_ncname(text),
        Some((prefix, local)) => is_ncname(prefix) && is_ncname(local),
    }
}

/// Whether the bytes are all ASCII and a name without a colon.
fn is_ascii_name(bytes: &[u8]) -> bool
    ensures { result ≡ (list_all (λ b. nat_lt b 128) bytes.now && spec.are_name bytes.now) }
{
    match bytes {
        [] => false,
        [first, rest @ ..] => is_ascii_first(*first) && are_ascii_further(rest),
    }
}

fn are_ascii_further(bytes: &[u8]) -> bool
    ensures { result ≡ list_all (λ b. nat_lt b 128 && spec.is_further b) bytes.now }
{
    bytes.iter().all(|b| is_ascii_further(*b))
}

fn is_ascii_first(byte: u8) -> bool
    ensures { result ≡ (nat_lt byte 128 && spec.is_first byte) }
{
    matches!(byte, b'A'..=b'Z' | b'_' | b'a'..=b'z')
}

fn is_ascii_further(byte: u8) -> bool
    ensures { result ≡ (nat_lt byte 128 && spec.is_further byte) }
{
    is_ascii_first(byte) || matches!(byte, b'-' | b'.' | b'0'..=b'9')
}

fn has_name_characters(text: &str) -> bool
    ensures { result ≡ spec.is_ncname text.now }
{
    match text.chars().next() {
        None => false,
        Some(first) => is_first(first) && are_further(text),
    }
}

fn are_further(text: &str) -> bool
    ensures { result ≡ list_all spec.is_further (chars text.now) }
{
    text.chars().all(is_further)
}

/// Whether a character begins a name.
fn is_first(character: char) -> bool
    ensures { result ≡ spec.is_first character }
{
    matches!(
        character,
        'A'..='Z'
            | '_'
            | 'a'..='z'
            | '\u{c0}'..='\u{d6}'
            | '\u{d8}'..='\u{f6}'
            | '\u{f8}'..='\u{2ff}'
            | '\u{370}'..='\u{37d}'
            | '\u{37f}'..='\u{1fff}'
            | '\u{200c}'..='\u{200d}'
            | '\u{2070}'..='\u{218f}'
            | '\u{2c00}'..='\u{2fef}'
            | '\u{3001}'..='\u{d7ff}'
            | '\u{f900}'..='\u{fdcf}'
            | '\u{fdf0}'..='\u{fffd}'
            | '\u{10000}'..='\u{effff}'
    )
}

/// Whether a character goes on a name.
fn is_further(character: char) -> bool
    ensures { result ≡ spec.is_further character }
{
    is_first(character)
        || matches!(
            character,
            '-' | '.' | '0'..='9' | '\u{b7}' | '\u{300}'..='\u{36f}' | '\u{203f}'..='\u{2040}'
        )
}
