// The marks.
ghost use Rattle.std.specs.Prelude.{◌≡◌, ◌≢◌, [], ◌∷◌, MatchOption, false, slice_index};
ghost use Rattle.sx_lex.specs.Fronts.{IsLongestFront, IsToken, begins_name, begins_number};
ghost use Rattle.sx_lex.specs.Tokens as spec;
ghost use Rattle.sx_lex.specs.Tokens.{NoToken};

use crate::kinds::{Front, TokenKind};

/// The mark at the front of a text with which neither a name nor a wildcard, a number or a literal begins.
pub(crate) fn mark(text: &str) -> Option<Front>
    requires no_name { begins_name (slice_index text.now 0) ≡ false }
    requires no_number { begins_number text.now ≡ false }
    requires no_literal { spec.is_quote (slice_index text.now 0) ≡ false }
    requires no_wild { slice_index text.now 0 ≡ 42 → slice_index text.now 1 ≢ 58 }
    ensures { MatchOption result (NoToken text.now) (λ front. IsToken text.now front.kind front.size) }
{
    match mark_size(text.as_bytes()) {
        0 => None,
        size => Some(Front {
            kind: TokenKind::Mark,
            size,
        }),
    }
}

/// How many bytes the longest mark at the front has; 0 where there is none.
pub(crate) fn mark_size(bytes: &[u8]) -> usize
    ensures { IsLongestFront spec.is_mark bytes.now result }
{
    match bytes {
        [] => 0,
        [first] => usize::from(is_single(*first)),
        [first, second, ..] => {
            if is_double(*first, *second) {
                2
            } else {
                usize::from(is_single(*first))
            }
        }
    }
}

/// Whether two bytes are one mark.
fn is_double(first: u8, second: u8) -> bool
    ensures { result ≡ spec.is_mark (first ∷ second ∷ []) }
{
    if second == b'=' {
        b":!<>".contains(&first)
    } else {
        second == first && b"./:|".contains(&first)
    }
}

/// Whether a byte is a mark.
fn is_single(byte: u8) -> bool
    ensures { result ≡ spec.is_mark (byte ∷ []) }
{
    b"()[],$@?./|!=<>+-*".contains(&byte)
}
