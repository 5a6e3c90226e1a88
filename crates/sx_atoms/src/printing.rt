// Atoms as texts.
ghost use Rattle.std.specs.Prelude.{◌≡◌, ◌<◌, ◌++◌, string_bytes, OnOk, IfOk};
ghost use Rattle.sx_atoms.specs.Printing.{fraction_text, decimal_text, text_of};

use crate::atoms::{Atom, Dec, Text};
use crate::numbers::UNITS;
use itoa::Buffer;
use std::alloc::{AllocError, Global};

// Appends units that are less than one, as they stand behind a point.
fn append_fraction(out: &mut String, units: u64) -> Result<(), AllocError>
    requires { units < 1000000000 }
    ensures { OnOk result (string_bytes out.new ≡ string_bytes out.old ++ fraction_text units) }
{
    let mut rest = units;
    let mut places = 9;
    while rest > 0 {
        places -= 1;
        let unit = 10u64.pow(places);
        out.push((b'0' + (rest / unit) as u8) as char)?;
        rest %= unit;
    }
    Ok(())
}

// The text of a decimal.
fn print_decimal(alloc: Global, d: Dec) -> Result<Text, AllocError>
    ensures { IfOk result (λ t. t ≡ decimal_text d.0) }
{
    let mut out = String::new(alloc);
    if d.0 < 0 {
        out.push('-')?;
    }
    let units = d.0.unsigned_abs();
    out.push_str(Buffer::new().format(units / UNITS as u128))?;
    let rest = (units % UNITS as u128) as u64;
    if rest > 0 {
        out.push('.')?;
        append_fraction(&mut out, rest)?;
    }
    Ok(Text::from_string(out))
}

/// The text of an atom: an integer in digits, a decimal without zeros at its end and as an integer where it is whole, a truth
/// value as a word.
pub fn print(alloc: Global, a: &Atom) -> Result<Text, AllocError>
    ensures { IfOk result (λ t. t ≡ text_of a.now) }
{
    match a {
        Atom::Int(n) => Text::copy(alloc, Buffer::new().format(*n)),
        Atom::Dec(d) => print_decimal(alloc, *d),
        Atom::Str(text) | Atom::Untyped(text) => Text::copy(alloc, text.as_str()),
        Atom::Bool(true) => Text::copy(alloc, "true"),
        Atom::Bool(false) => Text::copy(alloc, "false"),
    }
}
