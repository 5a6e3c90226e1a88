// Reading a text: what it says, or why it is refused.
ghost use Rattle.std.specs.Prelude.{◌≡◌, ◌≤◌, length, IfOk, MatchResult};
ghost use Rattle.sx_parse.specs.Answers.{IsRefused};
ghost use Rattle.sx_parse.specs.Answers as answers;
ghost use Rattle.sx_parse.specs.Lexemes.{lexemes_of};
ghost use Rattle.sx_parse.specs.Lexing.{IsLexed};
ghost use Rattle.sx_parse.specs.Understanding.{IsUnderstood};
ghost use Rattle.sx_parse.specs.Understanding as spec;

use crate::checks::first_fault;
use crate::faults::SyntaxFault;
use crate::lexing::{Lexed, lex};
use crate::nodes::Node;
use crate::reader::{Reading, read};
use crate::roles::Role;
use crate::stops::grammar_fault;
use sqlite_items::Items;
use std::alloc::{AllocError, Global};
use sx_lex::Tokens;
use sx_names::Scope;

/// A text that has a derivation, with nothing wrong with its tokens.
#[derive(Drop)]
pub(crate) struct Understood {
    pub tokens: Tokens,
    pub nodes: Items<Node>,
    pub roles: Items<Role>,
}

/// The number of the token at which no reading goes on, or at which the text breaks, if there is one.
fn stop_of(lexed: &Lexed, reading: &Reading) -> Option<usize>
    ensures { result ≡ spec.stop_of reading.now.fault lexed.now.stop (length lexed.now.tokens) }
{
    match (reading.fault, lexed.stop) {
        (Some(count), _) => Some(count as usize),
        (None, Some(_)) => Some(lexed.tokens.len()),
        (None, None) => None,
    }
}

/// The fault of grammar at the token with this number, or at the break behind them.
fn fault_in(pattern: bool, text: &str, lexed: &Lexed, count: usize) -> SyntaxFault
    requires lexed { IsLexed text.now lexed.now.tokens lexed.now.lexemes lexed.now.stop }
    requires fit { length text.now ≤ 4096 }
    requires within { count ≤ length lexed.now.lexemes }
    ensures { result ≡ answers.fault_in pattern lexed.now.tokens (lexemes_of text.now lexed.now.tokens)
        (answers.breaks lexed.now.stop) (answers.end_offset text.now lexed.now.stop) count }
{
    grammar_fault(
        pattern,
        lexed.tokens.as_slice(),
        lexed.lexemes.as_slice(),
        lexed.stop.is_some(),
        lexed.stop.unwrap_or(text.len() as u32),
        count,
    )
}

/// Reads a text of at most 4,096 bytes, as an expression or as a pattern.
pub(crate) fn understand(
    alloc: Global,
    pattern: bool,
    scope: &Scope,
    text: &str,
) -> Result<Result<Understood, SyntaxFault>, AllocError>
    requires { length text.now ≤ 4096 }
    ensures { IfOk result
        (λ r. MatchResult r
        (λ u. IsUnderstood pattern scope.now text.now u.tokens u.nodes u.roles)
        (IsRefused pattern scope.now text.now)) }
{
    let lexed = lex(alloc, text)?;
    let reading = read(alloc, pattern, lexed.lexemes.as_slice())?;
    let first = first_fault(
        alloc,
        pattern,
        scope,
        text,
        lexed.tokens.as_slice(),
        reading.roles.as_slice(),
    )?;
    Ok(match (first, stop_of(&lexed, &reading)) {
        (Some(fault), _) => Err(fault),
        (None, Some(count)) => Err(fault_in(pattern, text, &lexed, count)),
        (None, None) => Ok(Understood {
            tokens: lexed.tokens,
            nodes: reading.nodes,
            roles: reading.roles,
        }),
    })
}
