// Arithmetic of atoms.
ghost use Rattle.std.specs.Prelude.{◌≡◌, ◌≢◌, pos, IfOk};
ghost use Rattle.sx_atoms.specs.Arithmetic.{number_of, operands_of, dividend_and_divisor_of, with_operands};
ghost use Rattle.sx_atoms.specs.Arithmetic.{with_divisor, sum_of, difference_of, product_of};
ghost use Rattle.sx_atoms.specs.Arithmetic.{decimal_quotient, quotient_of, whole_quotient_of, remainder_of};
ghost use Rattle.sx_atoms.specs.Arithmetic.{calculation_of, signed_of};
ghost use Rattle.sx_atoms.specs.Numbers.{divisor_of};

use crate::atoms::{Atom, Dec};
use crate::error_codes::Code;
use crate::lexical::decimal;
use crate::numbers::{
    Number, Operands, UNITS, difference, opposite, paired, product, quotient, remainder, sum,
};

/// An operator of arithmetic: `+`, `-`, `*`, `div`, `idiv` and `mod` (XPath 3.1, 3.5).
#[derive(Clone, Copy, Debug, PartialEq, Eq)]
pub enum ArithOp {
    Add,
    Sub,
    Mul,
    Div,
    Idiv,
    Mod,
}

// The number that an atom is as an operand.
fn number(atom: &Atom) -> Result<Number, Code>
    ensures { result ≡ number_of atom.now }
{
    match atom {
        Atom::Int(n) => Ok(Number::Int(*n)),
        Atom::Dec(d) => Ok(Number::Dec(*d)),
        Atom::Str(_) | Atom::Bool(_) => Err(Code::Xpty0004),
        Atom::Untyped(text) => Ok(Number::Dec(Dec(decimal(text.as_str().as_bytes())?))),
    }
}

// Two atoms as operands.
fn operands(a: &Atom, b: &Atom) -> Result<Operands, Code>
    ensures { result ≡ operands_of a.now b.now }
{
    let x = number(a)?;
    let y = number(b)?;
    paired(x, y)
}

/// The sum (XPath 3.1, 3.5): an integer of two integers, and else a decimal. XPTY0004 for a string or a truth value, the
/// code of the cast to a decimal for text without a type, FOAR0002 where an operand is no decimal or the sum is too great.
pub fn add(a: &Atom, b: &Atom) -> Result<Atom, Code>
    ensures { result ≡ with_operands sum_of a.now b.now }
{
    match operands(a, b)? {
        Operands::Ints(a, b) => Ok(Atom::Int(sum(a, b)?)),
        Operands::Units(a, b) => Ok(Atom::Dec(Dec(sum(a, b)?))),
    }
}

/// The difference, as the sum.
pub fn sub(a: &Atom, b: &Atom) -> Result<Atom, Code>
    ensures { result ≡ with_operands difference_of a.now b.now }
{
    match operands(a, b)? {
        Operands::Ints(a, b) => Ok(Atom::Int(difference(a, b)?)),
        Operands::Units(a, b) => Ok(Atom::Dec(Dec(difference(a, b)?))),
    }
}

/// The product, as the sum. That of decimals is cut toward zero after 9 digits; FOAR0002 also where the product of their
/// units, before it is divided by 10^9, is too great.
pub fn mul(a: &Atom, b: &Atom) -> Result<Atom, Code>
    ensures { result ≡ with_operands product_of a.now b.now }
{
    match operands(a, b)? {
        Operands::Ints(a, b) => Ok(Atom::Int(product(a, b)?)),
        Operands::Units(a, b) => Ok(Atom::Dec(Dec(quotient(product(a, b)?, UNITS)?))),
    }
}

// Two atoms as a dividend and a divisor that is not zero.
fn dividend_and_divisor(a: &Atom, b: &Atom) -> Result<Operands, Code>
    ensures value { result ≡ dividend_and_divisor_of a.now b.now }
    ensures divisor { IfOk result (λ pair. divisor_of pair ≢ pos 0) }
{
    let x = number(a)?;
    let y = number(b)?;
    if y.is_zero() {
        return Err(Code::Foar0001);
    }
    paired(x, y)
}

// The quotient of two integers, or of two numbers of units.
fn quotient_in_units(a: i128, b: i128) -> Result<Atom, Code>
    requires { b ≢ pos 0 }
    ensures { result ≡ decimal_quotient a b }
{
    Ok(Atom::Dec(Dec(quotient(product(a, UNITS)?, b)?)))
}

/// The quotient, always a decimal, cut toward zero after 9 digits. XPTY0004 and the code of a cast come first, as for the
/// sum; then FOAR0001 where the divisor is zero; then FOAR0002 where an operand is no decimal and has to be one, or where
/// 10^9 times the dividend or the quotient is too great.
pub fn div(a: &Atom, b: &Atom) -> Result<Atom, Code>
    ensures { result ≡ with_divisor quotient_of a.now b.now }
{
    match dividend_and_divisor(a, b)? {
        Operands::Ints(a, b) => quotient_in_units(a, b),
        Operands::Units(a, b) => quotient_in_units(a, b),
    }
}

/// The whole quotient, always an integer, cut toward zero. Its codes are those of the quotient, but 10^9 times the dividend
/// does not count.
pub fn idiv(a: &Atom, b: &Atom) -> Result<Atom, Code>
    ensures { result ≡ with_divisor whole_quotient_of a.now b.now }
{
    match dividend_and_divisor(a, b)? {
        Operands::Ints(a, b) => Ok(Atom::Int(quotient(a, b)?)),
        Operands::Units(a, b) => Ok(Atom::Int(quotient(a, b)?)),
    }
}

/// What the whole quotient leaves (`mod`), with the sign of the dividend: an integer of two integers, and else a decimal. Its
/// codes are those of the quotient, but FOAR0002 comes only where an operand is no decimal and has to be one.
pub fn rem(a: &Atom, b: &Atom) -> Result<Atom, Code>
    ensures { result ≡ with_divisor remainder_of a.now b.now }
{
    match dividend_and_divisor(a, b)? {
        Operands::Ints(a, b) => Ok(Atom::Int(remainder(a, b))),
        Operands::Units(a, b) => Ok(Atom::Dec(Dec(remainder(a, b)))),
    }
}

/// What an operator of arithmetic makes of two atoms; the codes are those of the operator (XPath 3.1, 3.5). It takes no
/// memory.
pub fn calculate(op: ArithOp, a: &Atom, b: &Atom) -> Result<Atom, Code>
    ensures { result ≡ calculation_of op a.now b.now }
{
    match op {
        ArithOp::Add => add(a, b),
        ArithOp::Sub => sub(a, b),
        ArithOp::Mul => mul(a, b),
        ArithOp::Div => div(a, b),
        ArithOp::Idiv => idiv(a, b),
        ArithOp::Mod => rem(a, b),
    }
}

/// A number behind a sign, a minus or a plus (XPath 3.1, 3.5): an integer of an integer, and else a decimal. XPTY0004 for a
/// string or a truth value, the code of the cast to a decimal for text without a type, FOAR0002 where the opposite of a
/// number is too great. It takes no memory.
pub fn signed(is_minus: bool, a: &Atom) -> Result<Atom, Code>
    ensures { result ≡ signed_of is_minus a.now }
{
    match (is_minus, number(a)?) {
        (false, Number::Int(n)) => Ok(Atom::Int(n)),
        (false, Number::Dec(d)) => Ok(Atom::Dec(d)),
        (true, Number::Int(n)) => Ok(Atom::Int(opposite(n)?)),
        (true, Number::Dec(d)) => Ok(Atom::Dec(Dec(opposite(d.0)?))),
    }
}
