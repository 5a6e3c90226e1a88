// The escapes of a text, which are replaced where they stand.
ghost use Rattle.std.specs.Prelude.{◌≡◌, ◌<◌, ◌≤◌, ◌+◌, ◌-◌, ◌^◌, ◌++◌, []};
ghost use Rattle.std.specs.Prelude.{◌∷◌, true, false, not, min, length, take, drop, slice_index, Some};
ghost use Rattle.std.specs.Prelude.{Ok, Err, IfOk, IfErr};
ghost use Rattle.std.specs.Char.{encode_utf8, len_utf8};
ghost use Rattle.std.specs.List.{list_all, position, position_or_len};
ghost use Rattle.sx_esis.specs.Escapes as spec;
ghost use Rattle.sx_esis.specs.Replacing.{IsPartlyReplaced, IsOther, ReadsCharacter, comes_to};

use crate::faults::LineWhich;
use crate::places::place_of;

/// The character that an escape stands for, and how many bytes the escape has behind the backslash.
#[derive(Clone, Copy)]
struct Replacement {
    character: char,
    count: usize,
}

/// Where the text ends that was written, and where the bytes begin that are still to be read.
#[derive(Clone, Copy)]
struct Places {
    written: usize,
    read: usize,
}

/// Replaces each escape by what it stands for. Gives how many bytes the text has, which then stand in front. After an
/// `Err`, which says what is wrong with the first escape at fault, the bytes are any.
pub(crate) fn unescape(bytes: &mut [u8]) -> Result<usize, LineWhich>
    ensures ok { IfOk result (λ n. (n ≤ length bytes.old)
        × (spec.unescape bytes.old ≡ Ok (take n bytes.new))) }
    ensures err { IfErr result (λ w. spec.unescape bytes.old ≡ Err w) }
{
    let plain = place_of(b'\\', bytes);
    let mut places = Places {
        written: plain,
        read: plain,
    };
    while places.read < bytes.len() {
        places = replace_escape(bytes, places)?;
    }
    Ok(places.written)
}

/// Replaces the escape that is to be read next, and moves the plain text behind it.
fn replace_escape(bytes: &mut [u8], places: Places) -> Result<Places, LineWhich>
    requires cut { IsPartlyReplaced bytes.old places.written places.read }
    requires more { places.read < length bytes.old }
    ensures ok { IfOk result (λ p. IsPartlyReplaced bytes.new p.written p.read × (places.read < p.read)
        × (comes_to bytes.old places.written places.read ≡ comes_to bytes.new p.written p.read)) }
    ensures err { IfErr result (λ w. comes_to bytes.old places.written places.read ≡ Err w) }
{
    let escape = read_escape(&bytes[places.read + 1..])?;
    let next = Places {
        written: put_character(bytes, places.written, escape.character),
        read: places.read + 1 + escape.count,
    };
    Ok(move_plain(bytes, next))
}

/// Writes a character, and gives the place behind it.
fn put_character(bytes: &mut [u8], written: usize, character: char) -> usize
    requires { written + len_utf8 character ≤ length bytes.old }
    ensures end { result ≡ written + len_utf8 character }
    ensures front { take result bytes.new ≡ take written bytes.old ++ encode_utf8 character }
    ensures rest { drop result bytes.new ≡ drop result bytes.old }
{
    let mut buffer = [0; 4];
    let text = character.encode_utf8(&mut buffer);
    let end = written + text.len();
    bytes[written..end].copy_from_slice(text.as_bytes());
    end
}

/// Moves what stands in front of the next escape behind the text that was written.
fn move_plain(bytes: &mut [u8], places: Places) -> Places
    requires order { places.written ≤ places.read }
    requires within { places.read ≤ length bytes.old }
    ensures cut { IsPartlyReplaced bytes.new result.written result.read }
    ensures forward { places.read ≤ result.read }
    ensures same { comes_to bytes.old places.written places.read
        ≡ comes_to bytes.new result.written result.read }
{
    let count = place_of(b'\\', &bytes[places.read..]);
    bytes.copy_within(places.read..places.read + count, places.written);
    Places {
        written: places.written + count,
        read: places.read + count,
    }
}

/// The escape whose backslash stands in front of these bytes.
fn read_escape(bytes: &[u8]) -> Result<Replacement, LineWhich>
    ensures ok { IfOk result (λ e. ReadsCharacter bytes.now e.character e.count) }
    ensures err { IfErr result (λ w. spec.unescape_from (Some []) bytes.now ≡ Err w) }
{
    match bytes {
        [b'\\', ..] => Ok(Replacement {
            character: '\\',
            count: 1,
        }),
        [b'n', ..] => Ok(Replacement {
            character: '\n',
            count: 1,
        }),
        [b'#', digits @ ..] => decimal(digits),
        [b'|', ..] => Err(LineWhich::Sdata),
        _ => octal(bytes),
    }
}

/// The escape of a decimal number and a semicolon behind `#`.
fn decimal(bytes: &[u8]) -> Result<Replacement, LineWhich>
    ensures ok { IfOk result (λ e. ReadsCharacter (35 ∷ bytes.now) e.character e.count) }
    ensures err { IfErr result (λ w. spec.unescape_from (Some []) (35 ∷ bytes.now) ≡ Err w) }
{
    let digits = digit_count(bytes);
    if digits == 0 || digits == bytes.len() || bytes[digits] != b';' {
        return Err(LineWhich::BadEscape);
    }
    let character = character(decimal_number(&bytes[..digits]))?;
    Ok(Replacement {
        character,
        count: digits + 2,
    })
}

/// The escape of three octal digits.
fn octal(bytes: &[u8]) -> Result<Replacement, LineWhich>
    requires { IsOther bytes.now }
    ensures ok { IfOk result (λ e. ReadsCharacter bytes.now e.character e.count) }
    ensures err { IfErr result (λ w. spec.unescape_from (Some []) bytes.now ≡ Err w) }
{
    if bytes.len() < 3 || !are_octal(&bytes[..3]) {
        return Err(LineWhich::BadEscape);
    }
    let number = octal_number(bytes[0], bytes[1], bytes[2]);
    if number > 255 {
        return Err(LineWhich::BadEscape);
    }
    let character = character(number)?;
    Ok(Replacement {
        character,
        count: 3,
    })
}

fn digit_count(bytes: &[u8]) -> usize
    ensures { result ≡ position_or_len (λ b. not (spec.is_decimal_digit b)) bytes.now }
{
    place_of_no_digit(bytes).unwrap_or(bytes.len())
}

fn place_of_no_digit(bytes: &[u8]) -> Option<usize>
    ensures { result ≡ position (λ b. not (spec.is_decimal_digit b)) bytes.now }
{
    bytes.iter().position(|b| !b.is_ascii_digit())
}

fn are_octal(bytes: &[u8]) -> bool
    ensures { result ≡ list_all spec.is_octal_digit bytes.now }
{
    bytes.iter().all(|b| matches!(b, b'0'..=b'7'))
}

/// The number that decimal digits write, or the greatest `u32` where it is greater.
fn decimal_number(digits: &[u8]) -> u32
    ensures { result ≡ min (spec.number 10 digits.now) (2 ^ 32 - 1) }
{
    let mut number: u32 = 0;
    for digit in digits {
        number = number
            .saturating_mul(10)
            .saturating_add(u32::from(digit.saturating_sub(b'0')));
    }
    number
}

/// The number that three octal digits write.
fn octal_number(a: u8, b: u8, c: u8) -> u32
    ensures { result ≡ spec.number 8 (a ∷ b ∷ c ∷ []) }
{
    let [a, b, c] = [a, b, c].map(|digit| u32::from(digit.saturating_sub(b'0')));
    (a * 8 + b) * 8 + c
}

/// The character of a number.
fn character(number: u32) -> Result<char, LineWhich>
    ensures ok { IfOk result (λ c. (c ≡ number) × (spec.is_character number ≡ true)) }
    ensures err { IfErr result (λ w. (w ≡ LineWhich.BadEscape) × (spec.is_character number ≡ false)) }
{
    match char::from_u32(number) {
        Some(character) if character != '\0' => Ok(character),
        _ => Err(LineWhich::BadEscape),
    }
}
