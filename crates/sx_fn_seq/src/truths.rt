// Sequences as truth values.
ghost use Rattle.std.specs.Prelude.{◌≡◌, map};
ghost use Rattle.std.specs.Option.{option_copied};
ghost use Rattle.sx_fn_seq.specs.Truths as spec;

use sx_atoms::{Atom, Code};

/// An item of a sequence: an atom, or one that is none, as a node is.
pub trait AsAtom {
    ghost use Rattle.std.specs.Prelude.{Option};
    ghost use Rattle.sx_atoms.specs.declared.atoms.Atom.{Atom as AnyAtom};

    ghost atom: { Self → Option AnyAtom };

    /// The atom that the item is.
    fn as_atom(&self) -> Option<&Atom>
        ensures { option_copied result ≡ atom self.now };
}

impl AsAtom for Atom {
    ghost use Rattle.std.specs.Prelude.{Some};

    ghost atom = { λ a. Some a };

    fn as_atom(&self) -> Option<&Atom> {
        Some(self)
    }
}

/// Whether an atom counts as true (XPath 3.1, 2.4.3): a number that is not zero, a text that is not empty, a truth value as
/// it is. It takes no memory.
pub fn counts_as_true(atom: &Atom) -> bool
    ensures { result ≡ spec.counts_as_true atom.now }
{
    match atom {
        Atom::Int(n) => *n != 0,
        Atom::Dec(d) => d.0 != 0,
        Atom::Str(text) | Atom::Untyped(text) => !text.as_str().is_empty(),
        Atom::Bool(b) => *b,
    }
}

/// The effective boolean value (XPath 3.1, 2.4.3): none is false, items of which the first one is no atom are true, and one
/// atom is what it counts as. FORG0006 where an atom stands first and more items stand behind it. It takes no memory.
pub fn effective_truth<I: AsAtom>(items: &[I]) -> Result<bool, Code>
    ensures { result ≡ spec.effective_truth (map I.atom items.now) }
{
    let Some(first) = items.first() else {
        return Ok(false);
    };
    match first.as_atom() {
        None => Ok(true),
        Some(atom) if items.len() == 1 => Ok(counts_as_true(atom)),
        Some(_) => Err(Code::Forg0006),
    }
}
