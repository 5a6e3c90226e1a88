// The arguments of a call, and the text, the number and the positions that they are.
ghost use Rattle.std.specs.Prelude.{◌≡◌, Ok, Err, IfOk, MatchResult, slice_get};
ghost use Rattle.std.specs.Option.{option_copied};
ghost use Rattle.sx_atoms.specs.Positions.{span_of, rounded_answer};
ghost use Rattle.sx_atoms.specs.Arguments as spec;
ghost use Rattle.sx_atoms.specs.Arguments.{text_argument, number_atom, number_answer};

use crate::rounding::round;
use crate::span::Positions;
use crate::{Args, Atom, AtomType, Code, cast};
use std::alloc::{AllocError, Global};

/// The argument of a call at a place, counted from 0; an empty one where it is missing.
pub fn argument(args: &Args, place: usize) -> &[Atom]
    ensures { result.now ≡ spec.argument args.now place }
{
    match args.get(place) {
        Some(atoms) => atoms.as_slice(),
        None => &[],
    }
}

/// The argument of a call at a place, counted from 0, where it is given.
pub fn given(args: &Args, place: usize) -> Option<&[Atom]>
    ensures { option_copied result ≡ slice_get args.now place }
{
    match args.get(place) {
        Some(atoms) => Some(atoms.as_slice()),
        None => None,
    }
}

/// An argument as a text (XPath 3.1, 3.1.5.2): "" where it is empty. XPTY0004 for a number, a truth value and more than one
/// atom.
pub fn text(atoms: &[Atom]) -> Result<&str, Code>
    ensures { MatchResult result
        (λ s. text_argument atoms.now ≡ Ok s.now)
        (λ e. text_argument atoms.now ≡ Err e) }
{
    match atoms {
        [] => Ok(""),
        [Atom::Str(text)] | [Atom::Untyped(text)] => Ok(text.as_str()),
        _ => Err(Code::Xpty0004),
    }
}

// The number that an atom is, as an integer or a decimal.
fn number_in(alloc: Global, atom: &Atom) -> Result<Result<Atom, Code>, AllocError>
    ensures { IfOk result (λ answer. answer ≡ number_atom atom.now) }
{
    match atom {
        Atom::Int(n) => Ok(Ok(Atom::Int(*n))),
        Atom::Dec(d) => Ok(Ok(Atom::Dec(*d))),
        Atom::Untyped(_) => cast(alloc, atom, AtomType::Decimal),
        Atom::Str(_) | Atom::Bool(_) => Ok(Err(Code::Xpty0004)),
    }
}

/// An argument as a number (XPath 3.1, 3.1.5.2), which is an integer or a decimal: none where it is empty, and a decimal for
/// text without a type. XPTY0004 for a string, a truth value and more than one atom; the codes of the cast to a decimal.
pub fn number(alloc: Global, atoms: &[Atom]) -> Result<Result<Option<Atom>, Code>, AllocError>
    ensures { IfOk result (λ answer. answer ≡ number_answer atoms.now) }
{
    match atoms {
        [] => Ok(Ok(None)),
        [atom] => Ok(number_in(alloc, atom)?.map(|number| Some(number))),
        _ => Ok(Err(Code::Xpty0004)),
    }
}

// An argument as a number that is rounded.
fn rounded_number(alloc: Global, atoms: &[Atom]) -> Result<Result<Option<i128>, Code>, AllocError>
    ensures { IfOk result (λ answer. answer ≡ rounded_answer atoms.now) }
{
    match number(alloc, atoms)? {
        Ok(Some(Atom::Int(n))) => Ok(Ok(Some(n))),
        Ok(Some(Atom::Dec(d))) => Ok(Ok(Some(round(d)))),
        // No other atom is a number.
        Ok(_) => Ok(Ok(None)),
        Err(code) => Ok(Err(code)),
    }
}

/// What two arguments select, the second of which may be missing: from the first number on, and as many as the second one
/// says, both rounded; nothing where one of them is empty. The codes are those of `number`, first of the first argument.
pub fn positions(
    alloc: Global,
    start: &[Atom],
    count: Option<&[Atom]>,
) -> Result<Result<Positions, Code>, AllocError>
    ensures { IfOk result (λ answer. answer ≡ span_of start.now (option_copied count.entry)) }
{
    let first = match rounded_number(alloc, start)? {
        Ok(first) => first,
        Err(code) => return Ok(Err(code)),
    };
    let many = match count {
        Some(count) => match rounded_number(alloc, count)? {
            Ok(many) => many,
            Err(code) => return Ok(Err(code)),
        },
        None => return Ok(Ok(Positions::from_first(first))),
    };
    Ok(Ok(Positions::counted(first, many)))
}
