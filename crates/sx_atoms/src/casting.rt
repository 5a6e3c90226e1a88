// Casts of atoms.
ghost use Rattle.std.specs.Prelude.{◌≡◌, is_ok, IfOk};
ghost use Rattle.sx_atoms.specs.Casting.{integer_from, decimal_from, truth_from, cast_of};

use crate::atoms::{Atom, AtomType, Dec};
use crate::error_codes::Code;
use crate::lexical;
use crate::numbers::{Number, UNITS, product};
use crate::printing::print;
use std::alloc::{AllocError, Global};

fn to_integer(a: &Atom) -> Result<i128, Code>
    ensures { result ≡ integer_from a.now }
{
    match a {
        Atom::Int(n) => Ok(*n),
        Atom::Dec(d) => Ok(d.0 / UNITS),
        Atom::Str(text) | Atom::Untyped(text) => lexical::integer(text.as_str().as_bytes()),
        Atom::Bool(b) => Ok(*b as i128),
    }
}

fn to_units(a: &Atom) -> Result<i128, Code>
    ensures { result ≡ decimal_from a.now }
{
    match a {
        Atom::Int(n) => product(*n, UNITS),
        Atom::Dec(d) => Ok(d.0),
        Atom::Str(text) | Atom::Untyped(text) => lexical::decimal(text.as_str().as_bytes()),
        Atom::Bool(b) => Ok(if *b { UNITS } else { 0 }),
    }
}

fn to_truth(a: &Atom) -> Result<bool, Code>
    ensures { result ≡ truth_from a.now }
{
    match a {
        Atom::Int(n) => Ok(!Number::Int(*n).is_zero()),
        Atom::Dec(d) => Ok(!Number::Dec(*d).is_zero()),
        Atom::Str(text) | Atom::Untyped(text) => lexical::truth(text.as_str().as_bytes()),
        Atom::Bool(b) => Ok(*b),
    }
}

/// An atom as one of another type (XPath functions and operators 3.1, 19). Of a text that has white space at its ends these
/// count for nothing, but for a cast to a text. FORG0001 where a text does not write a value of the type; FOCA0006 where it
/// writes a decimal with more than 9 digits behind the point; FOAR0002 where the number is too great.
pub fn cast(alloc: Global, a: &Atom, to: AtomType) -> Result<Result<Atom, Code>, AllocError>
    ensures { IfOk result (λ answer. answer ≡ cast_of a.now to) }
{
    Ok(match to {
        AtomType::Integer => to_integer(a).map(|n| Atom::Int(n)),
        AtomType::Decimal => to_units(a).map(|units| Atom::Dec(Dec(units))),
        AtomType::Str => Ok(Atom::Str(print(alloc, a)?)),
        AtomType::Boolean => to_truth(a).map(|b| Atom::Bool(b)),
        AtomType::Untyped => Ok(Atom::Untyped(print(alloc, a)?)),
    })
}

/// Whether a cast gives an atom. It takes no memory.
pub fn castable(a: &Atom, to: AtomType) -> bool
    ensures { result ≡ is_ok (cast_of a.now to) }
{
    match to {
        AtomType::Integer => to_integer(a).is_ok(),
        AtomType::Decimal => to_units(a).is_ok(),
        AtomType::Boolean => to_truth(a).is_ok(),
        AtomType::Str | AtomType::Untyped => true,
    }
}
