// The tokens of a text, one behind the other.
ghost use Rattle.std.specs.Prelude.{◌≡◌, ◌<◌, ◌^◌, ◌↔◌, IsTrue, MatchOption, IfOk, IfErr};
ghost use Rattle.std.specs.Prelude.{length, slice_index};
ghost use Rattle.sx_lex.specs.Fronts.{IsToken};
ghost use Rattle.sx_lex.specs.Tokens.{AreTokens, BreaksAt, NoToken, white_len};

use crate::kinds::{Front, LexFault, Token, Tokens};
use crate::literals::{is_quote, literal};
use crate::marks::mark;
use crate::names::{any_prefix, begins_name, name};
use crate::numbers::{begins_number, number};
use sqlite_items::Items;
use std::alloc::{AllocError, Global};
use sx_chars::is_white_space;

/// The tokens of a text of fewer than 2^32 bytes, each the longest at its place, or the place at which none begins
/// (XPath 3.1, A.2). White space between tokens is skipped; there are no comments.
pub fn tokens(alloc: Global, s: &str) -> Result<Result<Tokens, LexFault>, AllocError>
    requires { length s.now < 2 ^ 32 }
    ensures tokens { IfOk result (λ read. IfOk read (AreTokens 0 s.now)) }
    ensures fault { IfOk result (λ read. IfErr read (λ fault. BreaksAt 0 s.now fault.offset)) }
{
    let mut found = Items::new(alloc);
    let mut start = white_count(s.as_bytes());
    while start < s.len() {
        let front = match first_token(&s[start..]) {
            None => {
                return Ok(Err(LexFault {
                    offset: start as u32,
                }));
            }
            Some(front) => front,
        };
        let end = start + front.size;
        found.push(Token {
            kind: front.kind,
            start: start as u32,
            end: end as u32,
        })?;
        start = end + white_count(&s.as_bytes()[end..]);
    }
    Ok(Ok(found))
}

/// The longest token at the front of a text, if one begins there.
fn first_token(text: &str) -> Option<Front>
    requires { 0 < length text.now }
    ensures { MatchOption result (NoToken text.now) (λ front. IsToken text.now front.kind front.size) }
{
    let bytes = text.as_bytes();
    if begins_name(bytes[0]) {
        name(text)
    } else if begins_number(bytes) {
        Some(number(text))
    } else if is_quote(bytes[0]) {
        literal(text)
    } else if begins_any_prefix(bytes) {
        Some(any_prefix(text))
    } else {
        mark(text)
    }
}

/// Whether an asterisk and a colon stand at the front.
fn begins_any_prefix(bytes: &[u8]) -> bool
    ensures { IsTrue result ↔ ((slice_index bytes.now 0 ≡ 42) × (slice_index bytes.now 1 ≡ 58)) }
{
    matches!(bytes, [b'*', b':', ..])
}

/// How many bytes of white space stand at the front.
fn white_count(bytes: &[u8]) -> usize
    ensures { result ≡ white_len bytes.now }
{
    bytes
        .iter()
        .take_while(|byte| is_white_space(**byte))
        .count()
}
