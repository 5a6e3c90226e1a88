// Answers that are made of atoms of an argument.
ghost use Rattle.std.specs.Prelude.{◌≡◌, Ok, Err, IfOk, MatchResult};

use sqlite_items::Items;
use std::alloc::{AllocError, Global};
use sx_atoms::{Atom, Atoms, Code};

/// Copies of atoms.
pub fn copies(alloc: Global, atoms: &[Atom]) -> Result<Atoms, AllocError>
    ensures { IfOk result (λ copy. copy ≡ atoms.now) }
{
    let mut copy = Items::new(alloc);
    for atom in atoms {
        copy.push(Atom::copy(alloc, atom)?)?;
    }
    Ok(copy)
}

/// Copies of the atoms of an answer.
pub fn copied(
    alloc: Global,
    answer: Result<&[Atom], Code>,
) -> Result<Result<Atoms, Code>, AllocError>
    ensures { IfOk result (λ copy. MatchResult answer.entry
        (λ atoms. copy ≡ Ok atoms.now) (λ e. copy ≡ Err e)) }
{
    match answer {
        Ok(atoms) => Ok(Ok(copies(alloc, atoms)?)),
        Err(code) => Ok(Err(code)),
    }
}
