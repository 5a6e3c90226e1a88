// Functions on numbers.
ghost use Rattle.std.specs.Prelude.{◌≡◌, IfOk};
ghost use Rattle.sx_atoms.specs.declared.numbers.Number.TheVariants as number;
ghost use Rattle.sx_fn_seq.specs.Rounding.{decimal_of, number_by, rounding_of};

use sqlite_items::Items;
use std::alloc::{AllocError, Global};
use sx_atoms::answers::answered;
use sx_atoms::arguments::number;
use sx_atoms::{Atom, Atoms, Code, Dec, UNITS, ceiling, floor, round};

/// What is made of a number: its distance from zero, or an integer that is near.
#[derive(Clone, Copy)]
pub enum Rounding {
    Abs,
    Floor,
    Ceiling,
    Round,
}

// What is made of an integer.
fn integer_by(rounding: Rounding, n: i128) -> Result<Atom, Code>
    ensures { result ≡ number_by rounding (number.Int n) }
{
    match rounding {
        Rounding::Abs => match n.checked_abs() {
            Some(distance) => Ok(Atom::Int(distance)),
            None => Err(Code::Foar0002),
        },
        Rounding::Floor | Rounding::Ceiling | Rounding::Round => Ok(Atom::Int(n)),
    }
}

// The decimal that an integer is, or FOAR0002.
fn whole(n: i128) -> Result<Atom, Code>
    ensures { result ≡ decimal_of n }
{
    match n.checked_mul(UNITS) {
        Some(units) => Ok(Atom::Dec(Dec(units))),
        None => Err(Code::Foar0002),
    }
}

// What is made of a decimal.
fn decimal_by(rounding: Rounding, d: Dec) -> Result<Atom, Code>
    ensures { result ≡ number_by rounding (number.Dec d) }
{
    match rounding {
        Rounding::Abs => match d.0.checked_abs() {
            Some(distance) => Ok(Atom::Dec(Dec(distance))),
            None => Err(Code::Foar0002),
        },
        Rounding::Floor => whole(floor(d)),
        Rounding::Ceiling => whole(ceiling(d)),
        Rounding::Round => whole(round(d)),
    }
}

/// What is made of a number argument, where there is a number. XPTY0004 and the codes of a cast where it is none, FOAR0002
/// where the answer is too great.
pub fn rounded(
    alloc: Global,
    rounding: Rounding,
    atoms: &[Atom],
) -> Result<Result<Atoms, Code>, AllocError>
    ensures { IfOk result (λ answer. answer ≡ rounding_of rounding atoms.now) }
{
    let answer = match number(alloc, atoms)? {
        Ok(Some(Atom::Int(n))) => integer_by(rounding, n),
        Ok(Some(Atom::Dec(d))) => decimal_by(rounding, d),
        // No other atom is a number.
        Ok(_) => return Ok(Ok(Items::new(alloc))),
        Err(code) => return Ok(Err(code)),
    };
    answered(alloc, answer)
}
