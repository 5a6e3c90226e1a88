// The tokens of a text, and what they are to the grammar.
ghost use Rattle.std.specs.Prelude.{◌≡◌, ◌<◌, ◌^◌, IfOk, length};
ghost use Rattle.sx_lex.specs.Tokens.{BreaksAt, BreaksBehind};
ghost use Rattle.sx_parse.specs.Lexemes.{lexemes_of, text_of_token};
ghost use Rattle.sx_parse.specs.Lexing.{AreParts, AreRead, IsLexed, IsPart};

use crate::lexemes::Lexeme;
use crate::words::lexeme;
use sqlite_items::Items;
use std::alloc::{AllocError, Global};
use sx_lex::{Token, Tokens, tokens};

/// The tokens of a text, what they are to the grammar, and the offset at which no token begins, in bytes, counted from 0, if
/// there is one: then the tokens are those in front of it.
#[derive(Drop)]
pub(crate) struct Lexed {
    pub tokens: Tokens,
    pub lexemes: Items<Lexeme>,
    pub stop: Option<u32>,
}

/// The tokens of a text of fewer than 2^32 bytes (XPath 3.1, A.2).
pub(crate) fn lex(alloc: Global, text: &str) -> Result<Lexed, AllocError>
    requires { length text.now < 2 ^ 32 }
    ensures { IfOk result (λ l. IsLexed text.now l.tokens l.lexemes l.stop) }
{
    let (tokens, stop) = tokens_and_stop(alloc, text)?;
    let lexemes = lexemes(alloc, text, tokens.as_slice())?;
    Ok(Lexed {
        tokens,
        lexemes,
        stop,
    })
}

/// The tokens of a text, or those in front of the offset at which none begins, and that offset.
fn tokens_and_stop(alloc: Global, text: &str) -> Result<(Tokens, Option<u32>), AllocError>
    requires { length text.now < 2 ^ 32 }
    ensures { IfOk result (λ read. AreRead text.now read.0 read.1) }
{
    match tokens(alloc, text)? {
        Ok(tokens) => Ok((tokens, None)),
        Err(fault) => Ok((
            tokens_before(alloc, text, fault.offset)?,
            Some(fault.offset),
        )),
    }
}

/// The tokens of a text in front of the offset at which it breaks.
fn tokens_before(alloc: Global, text: &str, offset: u32) -> Result<Tokens, AllocError>
    requires short { length text.now < 2 ^ 32 }
    requires breaks { BreaksAt 0 text.now offset }
    ensures { IfOk result (λ tokens. BreaksBehind 0 text.now tokens offset) }
{
    match tokens(alloc, &text[..offset as usize])? {
        Ok(tokens) => Ok(tokens),
        Err(_) => unreachable!(),
    }
}

/// What tokens are to the grammar, each with its place among them.
fn lexemes(alloc: Global, text: &str, tokens: &[Token]) -> Result<Items<Lexeme>, AllocError>
    requires few { length tokens.now < 2 ^ 32 }
    requires parts { AreParts text.now tokens.now }
    ensures { IfOk result (λ lexemes. lexemes ≡ lexemes_of text.now tokens.now) }
{
    let mut lexemes = Items::new(alloc);
    for (place, token) in tokens.iter().enumerate() {
        let spelled = token_text(text, *token);
        lexemes.push(lexeme(token.kind, spelled, place as u32))?;
    }
    Ok(lexemes)
}

/// The part of a text that a token is.
pub(crate) fn token_text(text: &str, token: Token) -> &str
    requires { IsPart text.now token }
    ensures { result.now ≡ text_of_token text.now token }
{
    &text[token.start as usize..token.end as usize]
}
