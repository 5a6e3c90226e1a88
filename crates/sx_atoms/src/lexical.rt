// The values that texts write, by the lexical forms of their types.
ghost use Rattle.std.specs.Prelude.{◌≡◌, ◌+◌, ◌-◌, ◌*◌, ◌^◌, ◌≤◌, min, pos};
ghost use Rattle.std.specs.Prelude.{length, IsTrue, reverse};
ghost use Rattle.std.specs.Char.{is_ascii_digit};
ghost use Rattle.std.specs.List.{list_all, before_first, after_first, take_while, position};
ghost use Rattle.std.specs.Str.Parse.{starts_with_minus, without_leading_sign};
ghost use Rattle.sx_atoms.specs.Numbers.{held_in_range};
ghost use Rattle.sx_atoms.specs.Lexical as spec;
ghost use Rattle.sx_atoms.specs.Lexical.{digits_value, units_of, decimal_in, integer_in, truth_in, is_point};

use crate::error_codes::Code;

fn is_blank(byte: u8) -> bool
    ensures { result ≡ spec.is_blank byte }
{
    byte == b' ' || byte == b'\t' || byte == b'\n' || byte == b'\r'
}

// How many bytes of white space stand at the front of a text.
fn blanks_before(text: &[u8]) -> usize
    ensures { result ≡ length (take_while spec.is_blank text.now) }
{
    text.iter().take_while(|byte| is_blank(**byte)).count()
}

// How many stand at its end.
fn blanks_behind(text: &[u8]) -> usize
    ensures { result ≡ length (take_while spec.is_blank (reverse text.now)) }
{
    text.iter()
        .rev()
        .take_while(|byte| is_blank(**byte))
        .count()
}

// A text without the white space at its ends.
fn trimmed(text: &[u8]) -> &[u8]
    ensures { result.now ≡ spec.trimmed text.now }
{
    let front = &text[blanks_before(text)..];
    &front[..front.len() - blanks_behind(front)]
}

// Whether a minus stands first, and what stands behind a sign.
fn split_sign(numeral: &[u8]) -> (bool, &[u8])
    ensures minus { result.0 ≡ starts_with_minus numeral.now }
    ensures rest { result.1.now ≡ without_leading_sign numeral.now }
{
    match numeral.split_first() {
        Some((b'-', rest)) => (true, rest),
        Some((b'+', rest)) => (false, rest),
        _ => (false, numeral),
    }
}

// The place of the first point.
fn first_point(digits: &[u8]) -> Option<usize>
    ensures { result ≡ position is_point digits.now }
{
    digits.iter().position(|byte| *byte == b'.')
}

// What stands before the first point, and what stands behind it.
fn split_point(digits: &[u8]) -> (&[u8], &[u8])
    ensures whole { result.0.now ≡ before_first is_point digits.now }
    ensures fraction { result.1.now ≡ after_first is_point digits.now }
{
    match first_point(digits) {
        Some(point) => (&digits[..point], &digits[point + 1..]),
        None => (digits, &[]),
    }
}

fn all_digits(bytes: &[u8]) -> bool
    ensures { result ≡ list_all is_ascii_digit bytes.now }
{
    bytes.iter().all(|byte| byte.is_ascii_digit())
}

// A number with digits written behind it, or the greatest that there is room for.
fn append_digits(number: u128, digits: &[u8]) -> u128
    requires { IsTrue (list_all is_ascii_digit digits.now) }
    ensures { result ≡ min (number * 10 ^ length digits.now + digits_value digits.now) (2 ^ 128 - 1) }
{
    let mut all = number;
    for digit in digits {
        all = all
            .saturating_mul(10)
            .saturating_add((*digit - b'0') as u128);
    }
    all
}

// A number, with a minus before it or without one.
fn with_sign(minus: bool, number: u128) -> Result<i128, Code>
    ensures { result ≡ held_in_range (spec.with_sign minus number) }
{
    let signed = if minus {
        0i128.checked_sub_unsigned(number)
    } else {
        0i128.checked_add_unsigned(number)
    };
    signed.ok_or(Code::Foar0002)
}

/// The integer that a text writes: digits, a sign before them or none, and white space round it.
pub fn integer(text: &[u8]) -> Result<i128, Code>
    ensures { result ≡ integer_in text.now }
{
    let (minus, digits) = split_sign(trimmed(text));
    if digits.is_empty() || !all_digits(digits) {
        return Err(Code::Forg0001);
    }
    with_sign(minus, append_digits(0, digits))
}

// The units that digits before a point and behind it write.
fn units(minus: bool, whole: &[u8], fraction: &[u8]) -> Result<i128, Code>
    ensures { result ≡ units_of minus whole.now fraction.now }
{
    if whole.is_empty() && fraction.is_empty() || !all_digits(whole) || !all_digits(fraction) {
        return Err(Code::Forg0001);
    }
    if fraction.len() > 9 {
        return Err(Code::Foca0006);
    }
    let number = append_digits(append_digits(0, whole), fraction);
    let units = number.saturating_mul(10u128.pow(9 - fraction.len() as u32));
    with_sign(minus, units)
}

/// The decimal that a text writes, in units of 10^-9: as an integer, but with a point before, between or behind the digits
/// or none.
pub fn decimal(text: &[u8]) -> Result<i128, Code>
    ensures { result ≡ decimal_in text.now }
{
    let (minus, digits) = split_sign(trimmed(text));
    let (whole, fraction) = split_point(digits);
    units(minus, whole, fraction)
}

/// The truth value that a text writes: `true` or `1`, `false` or `0`, and white space round it.
pub fn truth(text: &[u8]) -> Result<bool, Code>
    ensures { result ≡ truth_in text.now }
{
    match trimmed(text) {
        b"true" | b"1" => Ok(true),
        b"false" | b"0" => Ok(false),
        _ => Err(Code::Forg0001),
    }
}
