// Literals.
ghost use Rattle.std.specs.Prelude.{◌≡◌, ◌+◌, ◌-◌, ◌≤◌, true, MatchOption, length, drop};
ghost use Rattle.std.specs.Prelude.{slice_index};
ghost use Rattle.sx_lex.specs.Fronts.{IsLongestFront, IsToken, IsQuoteFree};
ghost use Rattle.sx_lex.specs.Tokens as spec;
ghost use Rattle.sx_lex.specs.Tokens.{NoToken};

use crate::kinds::{Front, TokenKind};
use memchr::memchr;

/// Whether a byte is a quote.
pub(crate) fn is_quote(byte: u8) -> bool
    ensures { result ≡ spec.is_quote byte }
{
    matches!(byte, b'"' | b'\'')
}

/// The literal at the front of a text that begins with a quote, if it ends.
pub(crate) fn literal(text: &str) -> Option<Front>
    requires { spec.is_quote (slice_index text.now 0) ≡ true }
    ensures { MatchOption result (NoToken text.now) (λ front. IsToken text.now front.kind front.size) }
{
    match literal_size(text.as_bytes()) {
        0 => None,
        size => Some(Front {
            kind: TokenKind::Str,
            size,
        }),
    }
}

/// How many bytes the longest literal at the front has; 0 where none ends. A literal that has no end but has doubled quotes
/// ends at the last quote that was the first of two.
fn literal_size(bytes: &[u8]) -> usize
    requires { spec.is_quote (slice_index bytes.now 0) ≡ true }
    ensures { IsLongestFront spec.is_literal bytes.now result }
{
    let quote = bytes[0];
    let mut size = 0;
    let mut place = 1 + quote_free(quote, &bytes[1..]);
    while place < bytes.len() {
        size = place + 1;
        if size == bytes.len() || bytes[size] != quote {
            return size;
        }
        place = size + 1 + quote_free(quote, &bytes[size + 1..]);
    }
    size
}

/// How many bytes stand in front of the first quote of a kind, or how many there are.
fn quote_free(quote: u8, bytes: &[u8]) -> usize
    ensures { IsQuoteFree quote bytes.now result }
{
    match memchr(quote, bytes) {
        Some(place) => place,
        None => bytes.len(),
    }
}
