// Numbers as operands, and integers that may leave the range of an i128.
ghost use Rattle.std.specs.Prelude.{◌≡◌, ◌≢◌, pos, neg_ℤ, ◌+ℤ◌, ◌-ℤ◌, ◌*ℤ◌};
ghost use Rattle.std.specs.Prelude.{int_div, int_rem, Ok};
ghost use Rattle.sx_atoms.specs.Numbers as spec;
ghost use Rattle.sx_atoms.specs.Numbers.{held_in_range};

use crate::atoms::Dec;
use crate::error_codes::Code;

/// How many units of a decimal make one.
pub const UNITS: i128 = 1_000_000_000;

/// A number.
#[derive(Clone, Copy, Debug, PartialEq, Eq)]
pub enum Number {
    Int(i128),
    Dec(Dec),
}

/// Two numbers, as they are reckoned with: two integers, or two decimals in units of 10^-9.
#[derive(Clone, Copy, Debug, PartialEq, Eq)]
pub enum Operands {
    Ints(i128, i128),
    Units(i128, i128),
}

/// The sum, or FOAR0002.
pub fn sum(a: i128, b: i128) -> Result<i128, Code>
    ensures { result ≡ held_in_range (a +ℤ b) }
{
    a.checked_add(b).ok_or(Code::Foar0002)
}

/// The difference, or FOAR0002.
pub fn difference(a: i128, b: i128) -> Result<i128, Code>
    ensures { result ≡ held_in_range (a -ℤ b) }
{
    a.checked_sub(b).ok_or(Code::Foar0002)
}

/// The opposite, or FOAR0002.
pub fn opposite(n: i128) -> Result<i128, Code>
    ensures { result ≡ held_in_range (neg_ℤ n) }
{
    difference(0, n)
}

/// The product, or FOAR0002.
pub fn product(a: i128, b: i128) -> Result<i128, Code>
    ensures { result ≡ held_in_range (a *ℤ b) }
{
    a.checked_mul(b).ok_or(Code::Foar0002)
}

/// The quotient, cut toward zero, or FOAR0002.
pub fn quotient(a: i128, b: i128) -> Result<i128, Code>
    requires { b ≢ pos 0 }
    ensures { result ≡ held_in_range (int_div a b) }
{
    a.checked_div(b).ok_or(Code::Foar0002)
}

/// The remainder, with the sign of the dividend.
pub fn remainder(a: i128, b: i128) -> i128
    requires { b ≢ pos 0 }
    ensures { held_in_range (int_rem a b) ≡ Ok result }
{
    a.wrapping_rem(b)
}

impl Number {
    /// Whether it is zero.
    pub fn is_zero(self) -> bool
        ensures { result ≡ spec.is_zero self }
    {
        match self {
            Number::Int(n) => n == 0,
            Number::Dec(d) => d.0 == 0,
        }
    }
}

/// Two numbers as they are reckoned with, or FOAR0002 where an integer is no decimal.
pub fn paired(x: Number, y: Number) -> Result<Operands, Code>
    ensures { result ≡ spec.paired x y }
{
    match (x, y) {
        (Number::Int(a), Number::Int(b)) => Ok(Operands::Ints(a, b)),
        (Number::Int(a), Number::Dec(b)) => Ok(Operands::Units(product(a, UNITS)?, b.0)),
        (Number::Dec(a), Number::Int(b)) => Ok(Operands::Units(a.0, product(b, UNITS)?)),
        (Number::Dec(a), Number::Dec(b)) => Ok(Operands::Units(a.0, b.0)),
    }
}
