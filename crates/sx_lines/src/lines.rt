// Lines of a printed result read back, one by one.
ghost use Rattle.std.specs.Prelude.{◌≡◌, ℕ, [], ◌∷◌, ◌++◌, List, true, IfSome, IfNone};
ghost use Rattle.std.specs.Prelude.{IfOk, MatchOption};
ghost use Rattle.sx_lines.specs.declared.lines.Line.{Line};
ghost use Rattle.sx_lines.specs.Print.{escape};
ghost use Rattle.sx_lines.specs.Normal.{IsName, IsTarget};
ghost use Rattle.sx_lines.specs.Lines.{Lacks, word_cdata, IsLineOf, IsNoLine};

use crate::Pair;
use crate::unescaping::read_text;
use memchr::memchr;
use std::alloc::{AllocError, Global};
use sx_chars::{is_ncname, is_qname};
use sx_tree::Chars;

/// A line of a printed result, but for the last.
#[derive(Drop)]
pub enum Line {
    /// an attribute of the element that starts next
    Pair(Pair),
    /// an element of this name begins
    Start(Chars),
    /// an element of this name ends
    End(Chars),
    /// a text
    Text(Chars),
    /// a processing instruction
    Pi { target: Chars, content: Chars },
}

/// What stands in front of the first such byte and behind it.
pub fn split_at_byte(mark: u8, bytes: &[u8]) -> Option<(&[u8], &[u8])>
    ensures { MatchOption result (Lacks mark bytes.now) (λ parts. Lacks mark parts.0.now
        × (bytes.now ≡ parts.0.now ++ mark ∷ parts.1.now)) }
{
    match memchr(mark, bytes) {
        Some(place) => Some((&bytes[..place], &bytes[place + 1..])),
        None => None,
    }
}

/// The line that these bytes are, without a newline at their end, or `None` where they are none.
pub fn read_line(alloc: Global, bytes: &[u8]) -> Result<Option<Line>, AllocError>
    ensures found { IfOk result (λ answer. IfSome answer (IsLineOf bytes.now)) }
    ensures none { IfOk result (λ answer. IfNone answer (IsNoLine bytes.now)) }
{
    match bytes.split_first() {
        Some((first, rest)) => read_command(alloc, *first, rest),
        None => Ok(None),
    }
}

// The line that has this first byte and the others behind it.
fn read_command(alloc: Global, first: u8, rest: &[u8]) -> Result<Option<Line>, AllocError>
    ensures found { IfOk result (λ answer. IfSome answer (IsLineOf (first ∷ rest.now))) }
    ensures none { IfOk result (λ answer. IfNone answer (IsNoLine (first ∷ rest.now))) }
{
    match first {
        b'A' => read_pair(alloc, rest),
        b'(' => read_start(alloc, rest),
        b')' => read_end(alloc, rest),
        b'-' => read_text_line(alloc, rest),
        b'?' => read_instruction(alloc, rest),
        _ => Ok(None),
    }
}

// The name of an element or an attribute.
fn read_name(alloc: Global, bytes: &[u8]) -> Result<Option<Chars>, AllocError>
    ensures found { IfOk result (λ answer. IfSome answer (λ name. IsName name × (name ≡ bytes.now))) }
    ensures none { IfOk result (λ answer. IfNone answer (¬ (IsName bytes.now))) }
{
    match str::from_utf8(bytes) {
        Ok(name) => {
            if is_qname(name) {
                return Ok(Some(Chars::copy(alloc, name)?));
            }
            Ok(None)
        }
        Err(_) => Ok(None),
    }
}

// The target of a processing instruction.
fn read_target(alloc: Global, bytes: &[u8]) -> Result<Option<Chars>, AllocError>
    ensures found { IfOk result (λ answer. IfSome answer (λ target. IsTarget target
        × (target ≡ bytes.now))) }
    ensures none { IfOk result (λ answer. IfNone answer (¬ (IsTarget bytes.now))) }
{
    match str::from_utf8(bytes) {
        Ok(target) => {
            if is_ncname(target) {
                return Ok(Some(Chars::copy(alloc, target)?));
            }
            Ok(None)
        }
        Err(_) => Ok(None),
    }
}

// The start of an element.
fn read_start(alloc: Global, bytes: &[u8]) -> Result<Option<Line>, AllocError>
    ensures found { IfOk result (λ answer. IfSome answer (IsLineOf (40 ∷ bytes.now))) }
    ensures none { IfOk result (λ answer. IfNone answer (IsNoLine (40 ∷ bytes.now))) }
{
    match read_name(alloc, bytes)? {
        Some(name) => Ok(Some(Line::Start(name))),
        None => Ok(None),
    }
}

// The end of an element.
fn read_end(alloc: Global, bytes: &[u8]) -> Result<Option<Line>, AllocError>
    ensures found { IfOk result (λ answer. IfSome answer (IsLineOf (41 ∷ bytes.now))) }
    ensures none { IfOk result (λ answer. IfNone answer (IsNoLine (41 ∷ bytes.now))) }
{
    match read_name(alloc, bytes)? {
        Some(name) => Ok(Some(Line::End(name))),
        None => Ok(None),
    }
}

// A text, which is not empty.
fn read_text_line(alloc: Global, bytes: &[u8]) -> Result<Option<Line>, AllocError>
    ensures found { IfOk result (λ answer. IfSome answer (IsLineOf (45 ∷ bytes.now))) }
    ensures none { IfOk result (λ answer. IfNone answer (IsNoLine (45 ∷ bytes.now))) }
{
    if bytes.is_empty() {
        return Ok(None);
    }
    match read_text(alloc, bytes)? {
        Some(text) => Ok(Some(Line::Text(text))),
        None => Ok(None),
    }
}

// An attribute: its name, and behind a space the word CDATA, a space and its value.
fn read_pair(alloc: Global, bytes: &[u8]) -> Result<Option<Line>, AllocError>
    ensures found { IfOk result (λ answer. IfSome answer (IsLineOf (65 ∷ bytes.now))) }
    ensures none { IfOk result (λ answer. IfNone answer (IsNoLine (65 ∷ bytes.now))) }
{
    match split_at_byte(b' ', bytes) {
        Some((name, rest)) => read_value(alloc, name, rest),
        None => Ok(None),
    }
}

// An attribute, of whose line this stands in front of the first space and this behind it.
fn read_value(alloc: Global, name: &[u8], rest: &[u8]) -> Result<Option<Line>, AllocError>
    requires { Lacks 32 name.now }
    ensures found { IfOk result (λ answer. IfSome answer (IsLineOf (65 ∷ name.now ++ 32 ∷ rest.now))) }
    ensures none { IfOk result (λ answer. IfNone answer (IsNoLine (65 ∷ name.now ++ 32 ∷ rest.now))) }
{
    match behind_cdata(rest) {
        Some(value) => read_pair_parts(alloc, name, value),
        None => Ok(None),
    }
}

// What stands behind the word CDATA and a space.
fn behind_cdata(bytes: &[u8]) -> Option<&[u8]>
    ensures { MatchOption result ((value : List ℕ)
        → ¬ (word_cdata ++ value ≡ bytes.now)) (λ value. word_cdata ++ value.now ≡ bytes.now) }
{
    match bytes {
        [b'C', b'D', b'A', b'T', b'A', b' ', value @ ..] => Some(value),
        _ => None,
    }
}

// An attribute by its name and its escaped value.
fn read_pair_parts(alloc: Global, name: &[u8], value: &[u8]) -> Result<Option<Line>, AllocError>
    requires { Lacks 32 name.now }
    ensures found { IfOk result (λ answer. IfSome answer (IsLineOf (65 ∷ name.now
        ++ 32 ∷ (word_cdata ++ value.now)))) }
    ensures none { IfOk result (λ answer. IfNone answer (IsNoLine (65 ∷ name.now
        ++ 32 ∷ (word_cdata ++ value.now)))) }
{
    match read_name(alloc, name)? {
        Some(name) => match read_text(alloc, value)? {
            Some(value) => Ok(Some(Line::Pair(Pair { name, value }))),
            None => Ok(None),
        },
        None => Ok(None),
    }
}

// A processing instruction: its target, and behind a space its content, where it is not empty.
fn read_instruction(alloc: Global, bytes: &[u8]) -> Result<Option<Line>, AllocError>
    ensures found { IfOk result (λ answer. IfSome answer (IsLineOf (63 ∷ bytes.now))) }
    ensures none { IfOk result (λ answer. IfNone answer (IsNoLine (63 ∷ bytes.now))) }
{
    match split_at_byte(b' ', bytes) {
        Some((target, content)) => read_content(alloc, target, content),
        None => match read_target(alloc, bytes)? {
            Some(target) => Ok(Some(Line::Pi {
                target,
                content: Chars::new(alloc),
            })),
            None => Ok(None),
        },
    }
}

// A processing instruction with content.
fn read_content(alloc: Global, target: &[u8], content: &[u8]) -> Result<Option<Line>, AllocError>
    requires { Lacks 32 target.now }
    ensures found { IfOk result (λ answer. IfSome answer (IsLineOf (63 ∷ target.now
        ++ 32 ∷ content.now))) }
    ensures none { IfOk result (λ answer. IfNone answer (IsNoLine (63 ∷ target.now
        ++ 32 ∷ content.now))) }
{
    if content.is_empty() {
        return Ok(None);
    }
    match read_target(alloc, target)? {
        Some(target) => match read_text(alloc, content)? {
            Some(content) => Ok(Some(Line::Pi { target, content })),
            None => Ok(None),
        },
        None => Ok(None),
    }
}
