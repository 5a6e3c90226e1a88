// Values that were seen.
ghost use Rattle.std.specs.Prelude.{◌≡◌, false, ◌*ℤ◌, Some, None, if◌then◌else◌, IfOk};
ghost use Rattle.sx_atoms.specs.Arithmetic.{dec};
ghost use Rattle.sx_atoms.specs.Comparison as value;
ghost use Rattle.sx_atoms.specs.Comparison.{value_of};
ghost use Rattle.sx_atoms.specs.Numbers.{fits, one_unit};
ghost use Rattle.sx_fn_seq.specs.Seeing.{AddsValue, IsEmpty};

use std::alloc::{AllocError, Global};
use std::collections::BTreeSet;
use sx_atoms::{Atom, UNITS};

/// Values that were seen, each once: numbers by their units where these are in the range of a decimal, the other integers,
/// texts and truth values.
#[derive(Drop)]
pub struct Seen<'a> {
    decimals: BTreeSet<i128>,
    integers: BTreeSet<i128>,
    texts: BTreeSet<&'a str>,
    truths: BTreeSet<bool>,
}

// The units of an integer, where it is a decimal.
fn units(n: i128) -> Option<i128>
    ensures { result ≡ (if fits (n *ℤ one_unit) then Some (n *ℤ one_unit) else None) }
{
    n.checked_mul(UNITS)
}

impl<'a> Seen<'a> {
    /// No values.
    pub fn new(alloc: Global) -> Seen<'a>
        ensures { IsEmpty result }
    {
        Seen {
            decimals: BTreeSet::new(alloc),
            integers: BTreeSet::new(alloc),
            texts: BTreeSet::new(alloc),
            truths: BTreeSet::new(alloc),
        }
    }

    // Adds a decimal, in units, and says whether it is new.
    fn insert_decimal(&mut self, units: i128) -> Result<bool, AllocError>
        ensures { IfOk result (λ added. AddsValue self.old self.new (value.quantity units) added) }
    {
        Ok(self.decimals.insert(units)?)
    }

    // Adds an integer that is no decimal, and says whether it is new.
    fn insert_integer(&mut self, n: i128) -> Result<bool, AllocError>
        requires { fits (n *ℤ one_unit) ≡ false }
        ensures { IfOk result (λ added. AddsValue self.old self.new (value.quantity (n *ℤ one_unit))
            added) }
    {
        Ok(self.integers.insert(n)?)
    }

    // Adds a text, and says whether it is new.
    fn insert_text(&mut self, text: &'a str) -> Result<bool, AllocError>
        ensures { IfOk result (λ added. AddsValue self.old self.new (value.text text.now) added) }
    {
        Ok(self.texts.insert(text)?)
    }

    // Adds a truth value, and says whether it is new.
    fn insert_truth(&mut self, b: bool) -> Result<bool, AllocError>
        ensures { IfOk result (λ added. AddsValue self.old self.new (value.truth b) added) }
    {
        Ok(self.truths.insert(b)?)
    }

    /// Adds the value of an atom, and says whether it is new.
    pub fn insert(&mut self, atom: &'a Atom) -> Result<bool, AllocError>
        ensures { IfOk result (λ added. AddsValue self.old self.new (value_of atom.now) added) }
    {
        match atom {
            Atom::Int(n) => match units(*n) {
                Some(units) => self.insert_decimal(units),
                None => self.insert_integer(*n),
            },
            Atom::Dec(d) => self.insert_decimal(d.0),
            Atom::Str(text) | Atom::Untyped(text) => self.insert_text(text.as_str()),
            Atom::Bool(b) => self.insert_truth(*b),
        }
    }
}
