// What can be wrong with the tokens of an expression that has a derivation.
ghost use Rattle.std.specs.Prelude.{◌≡◌, IfOk};
ghost use Rattle.sx_parse.specs.Checks as spec;
ghost use Rattle.sx_parse.specs.Lexing.{AreParts, IsPart};

use crate::faults::SyntaxFault;
use crate::functions::{function_of, function_uri, name_uri, number, takes, type_named};
use crate::lexing::token_text;
use crate::roles::Role;
use std::alloc::{AllocError, Global};
use sx_atoms::{AtomType, Code, SeqFn};
use sx_chars::split_name;
use sx_kinds::Function;
use sx_lex::{Token, TokenKind};
use sx_names::Scope;

/// The most parentheses, predicates, expressions that begin with a word and further bindings of these that are open at once.
const MOST_OPEN: u64 = 64;

/// The first fault of the tokens of a text, which have these roles in an expression, or in a pattern.
pub(crate) fn first_fault(
    alloc: Global,
    pattern: bool,
    scope: &Scope,
    text: &str,
    tokens: &[Token],
    roles: &[Role],
) -> Result<Option<SyntaxFault>, AllocError>
    requires { AreParts text.now tokens.now }
    ensures { IfOk result
        (λ fault. fault ≡ spec.first_fault pattern scope.now text.now tokens.now roles.now tokens.now) }
{
    for (role, token) in roles.iter().zip(tokens) {
        if let Some(code) = role_fault(alloc, pattern, scope, text, tokens, *role, *token)? {
            return Ok(Some(SyntaxFault {
                code,
                offset: token.start,
            }));
        }
    }
    Ok(None)
}

/// What is wrong with a token of this role, if anything is.
fn role_fault(
    alloc: Global,
    pattern: bool,
    scope: &Scope,
    text: &str,
    tokens: &[Token],
    role: Role,
    token: Token,
) -> Result<Option<Code>, AllocError>
    requires parts { AreParts text.now tokens.now }
    requires part { IsPart text.now token }
    ensures { IfOk result
        (λ fault. fault ≡ spec.role_fault pattern scope.now text.now tokens.now role token) }
{
    let spelled = token_text(text, token);
    Ok(match role {
        Role::Plain => None,
        Role::Name => name_fault(scope, spelled),
        Role::Wild => wild_fault(scope, spelled),
        Role::Function => function_fault(pattern, scope, spelled),
        Role::Type => type_fault(scope, spelled),
        Role::Literal => literal_fault(alloc, token.kind, spelled)?,
        Role::Opens(count) => fails(Code::Sxst0002, MOST_OPEN < count),
        Role::Closes {
            function,
            arguments,
        } => {
            let function = function_of(scope, text_at(text, tokens, function));
            fails(Code::Xpst0017, !takes(function, arguments))
        }
    })
}

/// A code where something fails.
fn fails(code: Code, failure: bool) -> Option<Code>
    ensures { result ≡ spec.fails code failure }
{
    if failure { Some(code) } else { None }
}

/// XPST0081 where the prefix of a name is not bound.
fn name_fault(scope: &Scope, name: &str) -> Option<Code>
    ensures { result ≡ spec.name_fault (spec.name_uri scope.now name.now) }
{
    match name_uri(scope, name) {
        None => Some(Code::Xpst0081),
        Some(_) => None,
    }
}

/// XPST0081 where the prefix of a wildcard of one part is neither `*` nor bound.
fn wild_fault(scope: &Scope, name: &str) -> Option<Code>
    ensures { result ≡ spec.wild_fault scope.now name.now }
{
    if split_name(name).0 == "*" {
        None
    } else {
        name_fault(scope, name)
    }
}

/// XPST0081 where the prefix of a function's name is not bound, XTSE0340 for `current` in a pattern, and XPST0017 where no
/// function has the name.
fn function_fault(pattern: bool, scope: &Scope, name: &str) -> Option<Code>
    ensures { result ≡ spec.function_fault pattern (spec.function_uri scope.now name.now)
        (spec.function_of scope.now name.now) }
{
    if function_uri(scope, name).is_none() {
        return Some(Code::Xpst0081);
    }
    let function = function_of(scope, name);
    if pattern && is_current(function) {
        Some(Code::Xtse0340)
    } else {
        fails(Code::Xpst0017, function.is_none())
    }
}

/// Whether a function is `current`.
fn is_current(function: Option<Function>) -> bool
    ensures { result ≡ spec.is_current function }
{
    matches!(function, Some(Function::Seq(SeqFn::Current)))
}

/// XPST0081 where the prefix of a type's name is not bound, and XPST0003 where no atomic type has the name.
fn type_fault(scope: &Scope, name: &str) -> Option<Code>
    ensures { result ≡ spec.type_fault (spec.name_uri scope.now name.now) name.now }
{
    match name_uri(scope, name) {
        None => Some(Code::Xpst0081),
        Some(uri) => fails(
            Code::Xpst0003,
            type_named(uri, split_name(name).1).is_none(),
        ),
    }
}

/// XPST0003 where a literal is a number that has no value here.
fn literal_fault(alloc: Global, kind: TokenKind, text: &str) -> Result<Option<Code>, AllocError>
    ensures { IfOk result (λ fault. fault ≡ spec.literal_fault (spec.literal_of kind text.now)) }
{
    let failure = match kind {
        TokenKind::Integer => number(alloc, text, AtomType::Integer)?.is_err(),
        TokenKind::Decimal => number(alloc, text, AtomType::Decimal)?.is_err(),
        _ => false,
    };
    Ok(fails(Code::Xpst0003, failure))
}

/// The text of the token at a place, and none past the last.
pub(crate) fn text_at<'a>(text: &'a str, tokens: &[Token], place: u32) -> &'a str
    requires { AreParts text.now tokens.now }
    ensures { result.now ≡ spec.token_text text.now tokens.now place }
{
    match tokens.get(place as usize) {
        None => "",
        Some(token) => token_text(text, *token),
    }
}
