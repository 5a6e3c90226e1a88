// The form of a line: the table of commands.
ghost use Rattle.std.specs.Prelude.{◌≡◌, ℕ, ◌<◌, ◌≤◌, ◌+◌, ◌∷◌, true, false};
ghost use Rattle.std.specs.Prelude.{bytes_eq, codes, length, drop, slice_index, List, Some, Ok, Err, Option};
ghost use Rattle.std.specs.Prelude.{IsTrue, IfOk, IfErr, IfSome, MatchOption, if◌then◌else◌};
ghost use Rattle.std.specs.Str.{IsCharBoundary};
ghost use Rattle.sx_chars.specs.Names.{before_space, is_ncname};
ghost use Rattle.sx_esis.specs.Forms as spec;
ghost use Rattle.sx_esis.specs.Forms.{Fits, HasValueAt, IsImplied, says_with};
ghost use Rattle.sx_esis.specs.Lines as lines;

use crate::faults::LineWhich;
use crate::places::place_of;
use crate::reader::text;
use sx_chars::{is_ncname, is_qname, split_instruction};

/// What a line is, and where its parts lie in it, in bytes from its first one.
#[derive(Clone, Copy, Debug, PartialEq, Eq)]
pub(crate) enum Form {
    Start,
    End,
    Text,
    Pi,
    /// The name ends at the one place, and the value begins at the other.
    Attr { name_end: usize, value_start: usize },
    /// The name ends at this place.
    Implied { name_end: usize },
    Conforming,
    Skipped,
}

impl Form {
    /// Where the text begins that may have escapes, if there is one.
    pub(crate) fn text_start(self) -> Option<usize>
        ensures { result ≡ spec.text_start self }
    {
        match self {
            Form::Text | Form::Pi => Some(1),
            Form::Attr { value_start, .. } => Some(value_start),
            _ => None,
        }
    }
}

/// The form of a line, or what is wrong with it apart from its escapes.
pub(crate) fn form_of(line: &[u8]) -> Result<Form, LineWhich>
    ensures ok { IfOk result (λ form. (lines.line_of line.now
        ≡ says_with form line.now (spec.text_start form))
        × Fits form line.now) }
    ensures err { IfErr result (λ w. lines.line_of line.now ≡ Err w) }
{
    match line {
        [b'(', ..] => where_so(is_qname(text_behind(line)?), Form::Start),
        [b')', ..] => where_so(is_qname(text_behind(line)?), Form::End),
        [b'-', ..] => {
            text_behind(line)?;
            Ok(Form::Text)
        }
        [b'?', ..] => instruction(text_behind(line)?),
        [b'A', ..] => attribute(text_behind(line)?),
        [b'C', ..] => where_so(text_behind(line)?.is_empty(), Form::Conforming),
        [first, ..] if is_skipped(*first) => Ok(Form::Skipped),
        [first, ..] if is_unsupported(*first) => Err(unless_no_text(line, LineWhich::Unsupported)),
        [_, ..] => Err(unless_no_text(line, LineWhich::BadCommand)),
        [] => Err(LineWhich::BadCommand),
    }
}

/// Notations, external identifiers, line numbers and application information, and what else tells nothing of the document.
fn is_skipped(first: u8) -> bool
    ensures { result ≡ lines.is_skipped first }
{
    matches!(
        first,
        b'L' | b'#' | b's' | b'p' | b'f' | b'N' | b'E' | b'I' | b'S' | b'T' | b'i' | b'e' | b'_'
    )
}

/// Entities, subdocuments, data and link attributes.
fn is_unsupported(first: u8) -> bool
    ensures { result ≡ lines.is_unsupported first }
{
    matches!(first, b'&' | b'{' | b'}' | b'D' | b'a')
}

/// Whether each byte is one of ASCII, and none a zero, which makes a line text. Most lines are such, and are told at once.
fn is_plain(line: &[u8]) -> bool
    ensures { IsTrue result → lines.is_text_line line.now ≡ true }
{
    let mut least = u8::MAX;
    let mut bits = 0;
    for byte in line {
        least = least.min(*byte);
        bits |= *byte;
    }
    least > 0 && bits < 128
}

/// A line that is text: UTF-8 without a zero.
fn text_of(line: &[u8]) -> Result<&str, LineWhich>
    ensures ok { IfOk result (λ s. (s.now ≡ line.now) × (lines.is_text_line line.now ≡ true)) }
    ensures err { IfErr result (λ w. (w ≡ LineWhich.NotUtf8) × (lines.is_text_line line.now ≡ false)) }
{
    if is_plain(line) {
        return Ok(text(line));
    }
    match simdutf8::basic::from_utf8(line) {
        Ok(text) => without_zero(text),
        Err(_) => Err(LineWhich::NotUtf8),
    }
}

fn without_zero(text: &str) -> Result<&str, LineWhich>
    ensures ok { IfOk result (λ s. (s.now ≡ text.now) × (lines.is_text_line text.now ≡ true)) }
    ensures err { IfErr result (λ w. (w ≡ LineWhich.NotUtf8) × (lines.is_text_line text.now ≡ false)) }
{
    if place_of(0, text.as_bytes()) < text.len() {
        return Err(LineWhich::NotUtf8);
    }
    Ok(text)
}

/// What stands behind the first byte of a line that is text.
fn text_behind(line: &[u8]) -> Result<&str, LineWhich>
    requires some { 0 < length line.now }
    requires ascii { slice_index line.now 0 < 128 }
    ensures ok { IfOk result (λ s. (s.now ≡ drop 1 line.now) × (lines.is_text_line line.now ≡ true)) }
    ensures err { IfErr result (λ w. (w ≡ LineWhich.NotUtf8) × (lines.is_text_line line.now ≡ false)) }
{
    match text_of(line) {
        Ok(text) => Ok(&text[1..]),
        Err(which) => Err(which),
    }
}

/// What is wrong with a line that has this fault, if it is text.
fn unless_no_text(line: &[u8], which: LineWhich) -> LineWhich
    ensures { result ≡ (if lines.is_text_line line.now then which else LineWhich.NotUtf8) }
{
    match text_of(line) {
        Ok(_) => which,
        Err(no_text) => no_text,
    }
}

fn where_so(so: bool, form: Form) -> Result<Form, LineWhich>
    ensures { result ≡ (if so then Ok form else Err LineWhich.BadCommand) }
{
    if so {
        Ok(form)
    } else {
        Err(LineWhich::BadCommand)
    }
}

/// The form of an instruction by what stands behind `?`.
fn instruction(text: &str) -> Result<Form, LineWhich>
    ensures { result
        ≡ (if is_ncname (before_space text.now) then Ok Form.Pi else Err LineWhich.BadCommand) }
{
    let (target, _) = split_instruction(text);
    where_so(is_ncname(target), Form::Pi)
}

/// The form of an attribute by what stands behind `A`: a name, a space, and the rest.
fn attribute(text: &str) -> Result<Form, LineWhich>
    ensures ok { IfOk result (λ form. (lines.attribute text.now
        ≡ says_with form (65 ∷ text.now) (spec.text_start form))
        × Fits form (65 ∷ text.now)) }
    ensures err { IfErr result (λ w. lines.attribute text.now ≡ Err w) }
{
    let name_length = place_of(b' ', text.as_bytes());
    if !is_qname(&text[..name_length]) {
        return Err(LineWhich::BadCommand);
    }
    if name_length == text.len() {
        return Err(LineWhich::BadAttr);
    }
    let name_end = name_length + 1;
    match value_place(&text[name_end..])? {
        None => Ok(Form::Implied { name_end }),
        Some(place) => Ok(Form::Attr {
            name_end,
            value_start: name_end + 1 + place,
        }),
    }
}

/// Where the value begins in what stands behind the name of an attribute and a space, or that there is none.
fn value_place(rest: &str) -> Result<Option<usize>, LineWhich>
    ensures ok { IfOk result (λ place. MatchOption place (IsImplied rest.now) (HasValueAt rest.now)) }
    ensures boundary { IfOk result (λ place. IfSome place (IsCharBoundary rest.now)) }
    ensures err { IfErr result (λ w. (name : List ℕ)
        → lines.attribute_with name (Some rest.now) ≡ Err w) }
{
    if is_implied(rest) {
        return Ok(None);
    }
    let length = place_of(b' ', rest.as_bytes());
    if !is_type(&rest[..length]) {
        return Err(LineWhich::BadAttr);
    }
    Ok(Some((length + 1).min(rest.len())))
}

/// Whether this says that an attribute has no value.
fn is_implied(rest: &str) -> bool
    ensures { result ≡ bytes_eq rest.now (codes "IMPLIED") }
{
    matches!(rest, "IMPLIED")
}

/// Whether this is the type of an attribute that has a value.
fn is_type(kind: &str) -> bool
    ensures { result ≡ lines.is_type kind.now }
{
    matches!(kind, "CDATA" | "TOKEN" | "NOTATION" | "ENTITY" | "ID")
}
