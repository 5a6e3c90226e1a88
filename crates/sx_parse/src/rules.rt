// What words and marks may do.
ghost use Rattle.std.specs.Prelude.{◌≡◌};
ghost use Rattle.sx_parse.specs.Grammar as grammar;
ghost use Rattle.sx_parse.specs.Roles as roles;

use crate::lexemes::{Binder, KindWord, Lexeme, Mark, Operator, Word};
use crate::roles::Role;
use sx_kinds::ArithOp;
use sx_tree::Axis;

/// Whether an operator may stand in a pattern outside predicates, where the flag is set (XSLT 3.0, 5.5).
pub(crate) fn allows(pattern: bool, lexeme: Lexeme) -> bool
    ensures { result ≡ grammar.allows_lexeme pattern lexeme }
{
    if !pattern {
        return true;
    }
    matches!(
        lexeme,
        Lexeme::Mark(Mark::Operator(Operator::Union | Operator::Slash | Operator::DoubleSlash))
    )
}

/// Whether a word names an axis; in a pattern, one of its two.
pub(crate) fn names_axis(pattern: bool, word: Word) -> bool
    ensures { result ≡ grammar.names_axis pattern word }
{
    match word {
        Word::Axis(Axis::Child) | Word::Kind(KindWord::Attribute) => true,
        Word::Axis(_) => !pattern,
        _ => false,
    }
}

/// Whether a name may stand in the parentheses of a kind test (XPath 3.1, 3.3.2.2).
pub(crate) fn takes_name(kind: KindWord, word: Word) -> bool
    ensures { result ≡ grammar.takes_name kind word }
{
    match kind {
        KindWord::Element | KindWord::Attribute => true,
        KindWord::ProcessingInstruction => !matches!(word, Word::Prefixed),
        _ => false,
    }
}

/// What the name in the parentheses of a kind test is.
pub(crate) fn inner_role(kind: KindWord) -> Role
    ensures { result ≡ roles.inner_role kind }
{
    match kind {
        KindWord::ProcessingInstruction => Role::Plain,
        _ => Role::Name,
    }
}

/// Whether a token may stand between a variable and its value.
pub(crate) fn introduces(binder: Binder, lexeme: Lexeme) -> bool
    ensures { result ≡ grammar.introduces binder lexeme }
{
    match binder {
        Binder::Let => matches!(lexeme, Lexeme::Mark(Mark::Assign)),
        _ => matches!(lexeme, Lexeme::Name(Word::In, _)),
    }
}

/// Whether a token may stand behind the last of the variables.
pub(crate) fn returns(binder: Binder, lexeme: Lexeme) -> bool
    ensures { result ≡ grammar.returns binder lexeme }
{
    match binder {
        Binder::For | Binder::Let => matches!(lexeme, Lexeme::Name(Word::Return, _)),
        Binder::Some | Binder::Every => matches!(lexeme, Lexeme::Name(Word::Satisfies, _)),
    }
}

/// Whether a token can begin a step.
pub(crate) fn begins_step(lexeme: Lexeme) -> bool
    ensures { result ≡ grammar.begins_step lexeme }
{
    match lexeme {
        Lexeme::Name(_, _) | Lexeme::Wild(_) | Lexeme::Literal(_) => true,
        Lexeme::Mark(mark) => mark_begins_step(mark),
    }
}

fn mark_begins_step(mark: Mark) -> bool
    ensures { result ≡ grammar.begins_step (Lexeme.Mark mark) }
{
    matches!(
        mark,
        Mark::Operator(Operator::Arith(ArithOp::Mul))
            | Mark::At
            | Mark::Dot
            | Mark::DotDot
            | Mark::Open
            | Mark::Dollar
    )
}
