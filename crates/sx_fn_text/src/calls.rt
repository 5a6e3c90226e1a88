// Calls of the functions on texts.
ghost use Rattle.std.specs.Prelude.{◌≡◌, ◌≤◌, ◌∷◌, [], length, slice_get, Ok, Err, IsTrue};
ghost use Rattle.std.specs.Prelude.{IfOk, MatchResult};
ghost use Rattle.std.specs.Str.{chars};
ghost use Rattle.sx_atoms.specs.Signature.{allows};
ghost use Rattle.sx_atoms.specs.declared.functions.TextFn.TheVariants as fn_of;
ghost use Rattle.sx_fn_text.specs.Calls as spec;
ghost use Rattle.sx_fn_text.specs.Calls.{text_call};
ghost use Rattle.sx_fn_text.specs.Signatures.{text_signature};

use crate::{characters, pieces, places};
use std::alloc::{AllocError, Global};
use sx_atoms::answers::answered;
use sx_atoms::arguments::{argument, given, positions, text};
use sx_atoms::{Args, Atom, Atoms, Code, Text, TextFn, print};

// What a call answers: atoms or the code of an error.
type Answer = Result<Result<Atoms, Code>, AllocError>;

// An argument as a text.
fn text_at(args: &Args, at: usize) -> Result<&str, Code>
    ensures { MatchResult result
        (λ s. spec.text_of_argument args.now at ≡ Ok (chars s.now))
        (λ e. spec.text_of_argument args.now at ≡ Err e) }
{
    text(argument(args, at))
}

fn string(alloc: Global, args: &Args) -> Answer
    ensures { IfOk result (λ answer. answer ≡ text_call fn_of.String args.now) }
{
    match argument(args, 0) {
        [] => answered(alloc, Ok(Atom::Str(Text::new(alloc)))),
        [atom] => answered(alloc, Ok(Atom::Str(print(alloc, atom)?))),
        _ => Ok(Err(Code::Xpty0004)),
    }
}

fn string_length(alloc: Global, args: &Args) -> Answer
    ensures { IfOk result (λ answer. answer ≡ text_call fn_of.StringLength args.now) }
{
    match text_at(args, 0) {
        Ok(s) => answered(alloc, Ok(Atom::Int(characters::length(s) as i128))),
        Err(code) => Ok(Err(code)),
    }
}

fn normalize_space(alloc: Global, args: &Args) -> Answer
    ensures { IfOk result (λ answer. answer ≡ text_call fn_of.NormalizeSpace args.now) }
{
    match text_at(args, 0) {
        Ok(s) => answered(alloc, Ok(Atom::Str(pieces::normalized(alloc, s)?))),
        Err(code) => Ok(Err(code)),
    }
}

fn concat(alloc: Global, args: &Args) -> Answer
    ensures { IfOk result (λ answer. answer ≡ text_call fn_of.Concat args.now) }
{
    match pieces::concat(alloc, args.as_slice())? {
        Ok(text) => answered(alloc, Ok(Atom::Str(text))),
        Err(code) => Ok(Err(code)),
    }
}

fn string_join(alloc: Global, args: &Args) -> Answer
    ensures { IfOk result (λ answer. answer ≡ text_call fn_of.StringJoin args.now) }
{
    match text_at(args, 1) {
        Ok(separator) => {
            let text = pieces::join(alloc, argument(args, 0), separator)?;
            answered(alloc, Ok(Atom::Str(text)))
        }
        Err(code) => Ok(Err(code)),
    }
}

// The first two arguments as texts.
fn two_texts(args: &Args) -> Result<(&str, &str), Code>
    ensures { MatchResult result
        (λ p. spec.two_texts args.now ≡ Ok (chars p.0.now, chars p.1.now))
        (λ e. spec.two_texts args.now ≡ Err e) }
{
    match (text_at(args, 0), text_at(args, 1)) {
        (Ok(s), Ok(t)) => Ok((s, t)),
        (Ok(_), Err(code)) => Err(code),
        (Err(code), _) => Err(code),
    }
}

fn contains(alloc: Global, args: &Args) -> Answer
    ensures { IfOk result (λ answer. answer ≡ text_call fn_of.Contains args.now) }
{
    match two_texts(args) {
        Ok((s, t)) => answered(alloc, Ok(Atom::Bool(places::is_within(t, s)))),
        Err(code) => Ok(Err(code)),
    }
}

fn starts_with(alloc: Global, args: &Args) -> Answer
    ensures { IfOk result (λ answer. answer ≡ text_call fn_of.StartsWith args.now) }
{
    match two_texts(args) {
        Ok((s, t)) => answered(alloc, Ok(Atom::Bool(places::begins(s, t)))),
        Err(code) => Ok(Err(code)),
    }
}

fn ends_with(alloc: Global, args: &Args) -> Answer
    ensures { IfOk result (λ answer. answer ≡ text_call fn_of.EndsWith args.now) }
{
    match two_texts(args) {
        Ok((s, t)) => answered(alloc, Ok(Atom::Bool(places::ends(s, t)))),
        Err(code) => Ok(Err(code)),
    }
}

fn substring_before(alloc: Global, args: &Args) -> Answer
    ensures { IfOk result (λ answer. answer ≡ text_call fn_of.SubstringBefore args.now) }
{
    match two_texts(args) {
        Ok((s, t)) => answered(
            alloc,
            Ok(Atom::Str(Text::copy(alloc, places::before(s, t))?)),
        ),
        Err(code) => Ok(Err(code)),
    }
}

fn substring_after(alloc: Global, args: &Args) -> Answer
    ensures { IfOk result (λ answer. answer ≡ text_call fn_of.SubstringAfter args.now) }
{
    match two_texts(args) {
        Ok((s, t)) => answered(
            alloc,
            Ok(Atom::Str(Text::copy(alloc, places::after(s, t))?)),
        ),
        Err(code) => Ok(Err(code)),
    }
}

fn substring(alloc: Global, args: &Args) -> Answer
    ensures { IfOk result (λ answer. answer ≡ text_call fn_of.Substring args.now) }
{
    let s = match text_at(args, 0) {
        Ok(s) => s,
        Err(code) => return Ok(Err(code)),
    };
    match positions(alloc, argument(args, 1), given(args, 2))? {
        Ok(span) => answered(alloc, Ok(Atom::Str(characters::cut(alloc, s, &span)?))),
        Err(code) => Ok(Err(code)),
    }
}

fn translate(alloc: Global, args: &Args) -> Answer
    ensures { IfOk result (λ answer. answer ≡ text_call fn_of.Translate args.now) }
{
    let (s, m) = match two_texts(args) {
        Ok(texts) => texts,
        Err(code) => return Ok(Err(code)),
    };
    match text_at(args, 2) {
        Ok(t) => answered(
            alloc,
            Ok(Atom::Str(characters::translated(alloc, s, m, t)?)),
        ),
        Err(code) => Ok(Err(code)),
    }
}

/// What a function on texts answers (XPath functions and operators 3.1, 5 and 2.3). An argument that is the context item where
/// it is missing has to be given. XPTY0004 where an argument is no text, `string` and `concat` have more than one atom in an
/// argument, or `substring` has no numbers; there also the codes of the cast to a decimal.
pub fn call_text(alloc: Global, f: TextFn, args: &Args) -> Result<Result<Atoms, Code>, AllocError>
    requires allowed { IsTrue (allows (text_signature f) (length args.now)) }
    requires given { 1 ≤ length args.now }
    ensures { IfOk result (λ answer. answer ≡ text_call f args.now) }
{
    match f {
        TextFn::String => string(alloc, args),
        TextFn::StringLength => string_length(alloc, args),
        TextFn::NormalizeSpace => normalize_space(alloc, args),
        TextFn::Concat => concat(alloc, args),
        TextFn::StringJoin => string_join(alloc, args),
        TextFn::Contains => contains(alloc, args),
        TextFn::StartsWith => starts_with(alloc, args),
        TextFn::EndsWith => ends_with(alloc, args),
        TextFn::SubstringBefore => substring_before(alloc, args),
        TextFn::SubstringAfter => substring_after(alloc, args),
        TextFn::Substring => substring(alloc, args),
        TextFn::Translate => translate(alloc, args),
    }
}
