// Numbers.
ghost use Rattle.std.specs.Prelude.{◌≡◌, true, length, drop};
ghost use Rattle.std.specs.Char.{is_ascii_digit};
ghost use Rattle.std.specs.List.{take_while};
ghost use Rattle.sx_lex.specs.Fronts as spec;
ghost use Rattle.sx_lex.specs.Fronts.{IsToken};

use crate::kinds::{Front, TokenKind};

/// Whether a number stands at the front.
pub(crate) fn begins_number(bytes: &[u8]) -> bool
    ensures { result ≡ spec.begins_number bytes.now }
{
    match bytes {
        [b'.', second, ..] => second.is_ascii_digit(),
        [first, ..] => first.is_ascii_digit(),
        [] => false,
    }
}

/// The number at the front of a text that begins with one.
pub(crate) fn number(text: &str) -> Front
    requires { spec.begins_number text.now ≡ true }
    ensures { IsToken text.now result.kind result.size }
{
    let bytes = text.as_bytes();
    let whole = digit_count(bytes);
    if whole < bytes.len() && bytes[whole] == b'.' {
        let fraction = digit_count(&bytes[whole + 1..]);
        Front {
            kind: TokenKind::Decimal,
            size: whole + 1 + fraction,
        }
    } else {
        Front {
            kind: TokenKind::Integer,
            size: whole,
        }
    }
}

/// How many digits stand at the front.
fn digit_count(bytes: &[u8]) -> usize
    ensures { result ≡ length (take_while is_ascii_digit bytes.now) }
{
    bytes
        .iter()
        .take_while(|byte| byte.is_ascii_digit())
        .count()
}
