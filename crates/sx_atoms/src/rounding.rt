// Integers near to decimals.
ghost use Rattle.std.specs.Prelude.{◌≡◌};
ghost use Rattle.sx_atoms.specs.Positions.{floor_of, ceiling_of, rounded};
ghost use Rattle.sx_atoms.specs.declared.numbers.Number.TheVariants as number;

use crate::Dec;
use crate::numbers::UNITS;

// How many units of a decimal make half of one.
const HALF: i128 = 500_000_000;

/// The greatest integer that is no greater than a decimal (XPath functions and operators 3.1, 4.4.3).
pub fn floor(d: Dec) -> i128
    ensures { result ≡ floor_of (number.Dec d) }
{
    d.0.div_euclid(UNITS)
}

/// The least integer that is no less than a decimal (4.4.2).
pub fn ceiling(d: Dec) -> i128
    ensures { result ≡ ceiling_of (number.Dec d) }
{
    if d.0.rem_euclid(UNITS) == 0 {
        floor(d)
    } else {
        floor(d) + 1
    }
}

/// The integer nearest to a decimal, and of two that are as near the greater one: -2.5 gives -2, and 2.5 gives 3 (4.4.4).
pub fn round(d: Dec) -> i128
    ensures { result ≡ rounded (number.Dec d) }
{
    if d.0.rem_euclid(UNITS) < HALF {
        floor(d)
    } else {
        floor(d) + 1
    }
}
