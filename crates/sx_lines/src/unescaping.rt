// Escaped texts read back.
ghost use Rattle.std.specs.Prelude.{◌≡◌, ◌≢◌, ℕ, [], ◌∷◌, ◌++◌, ◌≤◌, ◌↔◌};
ghost use Rattle.std.specs.Prelude.{List, true, IsTrue, IfSome, IfNone, IfOk, MatchOption};
ghost use Rattle.std.specs.Str.{IsUtf8};
ghost use Rattle.sx_lines.specs.Print.{is_control as is_control_code, octal, escaped, escape};

use std::alloc::{AllocError, Global};
use sx_tree::Chars;

// Whether a byte is a control character, or deleted.
fn is_control(byte: u8) -> bool
    ensures { result ≡ is_control_code byte }
{
    byte < b' ' || byte == 0x7F
}

// Whether three digits write a number below 128 in base 8.
fn are_octal(first: u8, second: u8, third: u8) -> bool
    ensures { IsTrue result
        ↔ ((48 ≤ first) × (first ≤ 49) × (48 ≤ second) × (second ≤ 55) × (48 ≤ third)
        × (third ≤ 55)) }
{
    matches!(first, b'0' | b'1') && matches!(second, b'0'..=b'7') && matches!(third, b'0'..=b'7')
}

// The control character, other than a newline, that three digits write in base 8.
fn control_of(first: u8, second: u8, third: u8) -> Option<u8>
    ensures { MatchOption result ((b : ℕ) → is_control_code b ≡ true → b ≢ 10
        → ¬ (octal b ≡ first ∷ second ∷ third ∷ []))
        (λ b. (is_control_code b ≡ true) × (b ≢ 10)
        × (octal b ≡ first ∷ second ∷ third ∷ [])) }
{
    if !are_octal(first, second, third) {
        return None;
    }
    let number = (first - b'0') * 64 + (second - b'0') * 8 + (third - b'0');
    if number == b'\n' || !is_control(number) {
        return None;
    }
    Some(number)
}

// The byte that an escape behind a backslash stands for, and what stands behind it.
fn behind_backslash(bytes: &[u8]) -> Option<(u8, &[u8])>
    ensures { MatchOption result ((b : ℕ) (bs : List ℕ)
        → ¬ (escaped b ++ bs ≡ 92 ∷ bytes.now)) (λ r. escaped r.0 ++ r.1.now ≡ 92 ∷ bytes.now) }
{
    match bytes {
        [b'\\', rest @ ..] => Some((b'\\', rest)),
        [b'n', rest @ ..] => Some((b'\n', rest)),
        [first, second, third, rest @ ..] => match control_of(*first, *second, *third) {
            Some(control) => Some((control, rest)),
            None => None,
        },
        _ => None,
    }
}

// The first byte of an escaped text, and what stands behind it.
fn first_escaped(bytes: &[u8]) -> Option<(u8, &[u8])>
    ensures { MatchOption result ((b : ℕ) (bs : List ℕ)
        → ¬ (escaped b ++ bs ≡ bytes.now)) (λ r. escaped r.0 ++ r.1.now ≡ bytes.now) }
{
    match bytes.split_first() {
        None => None,
        Some((first, rest)) => {
            if *first == b'\\' {
                return behind_backslash(rest);
            }
            if is_control(*first) {
                return None;
            }
            Some((*first, rest))
        }
    }
}

// The bytes that are escaped so.
fn unescape(alloc: Global, bytes: &[u8]) -> Result<Option<Vec<u8>>, AllocError>
    ensures found { IfOk result (λ answer. IfSome answer (λ out. escape out.items ≡ bytes.now)) }
    ensures none { IfOk result (λ answer. IfNone answer ((s : List ℕ) → ¬ (escape s ≡ bytes.now))) }
{
    let mut out = Vec::new(alloc);
    let mut rest = bytes;
    while !rest.is_empty() {
        match first_escaped(rest) {
            Some((byte, behind)) => {
                out.push(byte)?;
                rest = behind;
            }
            None => return Ok(None),
        }
    }
    Ok(Some(out))
}

/// The text that is escaped so, or `None` where none is.
pub fn read_text(alloc: Global, bytes: &[u8]) -> Result<Option<Chars>, AllocError>
    ensures found { IfOk result (λ answer. IfSome answer (λ text. IsUtf8 text
        × (escape text ≡ bytes.now))) }
    ensures none { IfOk result (λ answer. IfNone answer ((text : List ℕ) → IsUtf8 text
        → ¬ (escape text ≡ bytes.now))) }
{
    match unescape(alloc, bytes)? {
        Some(out) => copy_utf8(alloc, &out),
        None => Ok(None),
    }
}

// The text that bytes are, where they are UTF-8.
fn copy_utf8(alloc: Global, bytes: &[u8]) -> Result<Option<Chars>, AllocError>
    ensures found { IfOk result (λ answer. IfSome answer (λ text. IsUtf8 bytes.now
        × (text ≡ bytes.now))) }
    ensures none { IfOk result (λ answer. IfNone answer (¬ (IsUtf8 bytes.now))) }
{
    match str::from_utf8(bytes) {
        Ok(text) => Ok(Some(Chars::copy(alloc, text)?)),
        Err(_) => Ok(None),
    }
}
