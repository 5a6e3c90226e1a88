// Where reading stops, and with which code.
ghost use Rattle.std.specs.Prelude.{◌≡◌, ◌≤◌, ◌<◌, ◌^◌, length, nat_eq, take};
ghost use Rattle.std.specs.Option.{option_copied};
ghost use Rattle.sx_parse.specs.Answers as spec;

use crate::faults::SyntaxFault;
use crate::lexemes::{Lexeme, Mark};
use sx_atoms::Code;
use sx_lex::Token;

/// How many predicates are open behind one more token.
fn open_behind(count: usize, lexeme: Lexeme) -> usize
    requires { count < 2 ^ 32 }
    ensures { result ≡ spec.open_behind count lexeme }
{
    match lexeme {
        Lexeme::Mark(Mark::OpenBracket) => count + 1,
        Lexeme::Mark(Mark::CloseBracket) => count.saturating_sub(1),
        _ => count,
    }
}

/// Whether a predicate is open behind tokens.
fn is_inside(lexemes: &[Lexeme]) -> bool
    requires { length lexemes.now < 2 ^ 32 }
    ensures { result ≡ spec.is_in_predicate 0 lexemes.now }
{
    let mut count = 0;
    for lexeme in lexemes {
        count = open_behind(count, *lexeme);
    }
    count > 0
}

/// The code of a fault of grammar at the token with this number; `breaks` where a break of the text stands there.
fn grammar_code(pattern: bool, lexemes: &[Lexeme], breaks: bool, count: usize) -> Code
    requires fit { length lexemes.now < 2 ^ 32 }
    requires within { count ≤ length lexemes.now }
    ensures { result ≡ spec.code_of pattern breaks (spec.is_in_predicate 0 (take count lexemes.now)) }
{
    if pattern && !breaks && !is_inside(&lexemes[..count]) {
        Code::Xtse0340
    } else {
        Code::Xpst0003
    }
}

/// Where the token with this number begins, or where the tokens end.
fn offset_of(tokens: &[Token], end: u32, count: usize) -> u32
    ensures { result ≡ spec.offset_in tokens.now end count }
{
    match tokens.get(count) {
        Some(token) => token.start,
        None => end,
    }
}

/// The fault of grammar at the token with this number, among the tokens of a text that ends, or breaks, at `end`.
pub(crate) fn grammar_fault(
    pattern: bool,
    tokens: &[Token],
    lexemes: &[Lexeme],
    breaks: bool,
    end: u32,
    count: usize,
) -> SyntaxFault
    requires fit { length lexemes.now < 2 ^ 32 }
    requires within { count ≤ length lexemes.now }
    ensures { result ≡ spec.fault_in pattern tokens.now lexemes.now breaks end count }
{
    SyntaxFault {
        code: grammar_code(pattern, lexemes, breaks && count == lexemes.len(), count),
        offset: offset_of(tokens, end, count),
    }
}
