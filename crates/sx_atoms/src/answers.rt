// Answers of one atom.
ghost use Rattle.std.specs.Prelude.{◌≡◌, [], ◌∷◌, IfOk};
ghost use Rattle.sx_atoms.specs.Answers as spec;

use crate::{Atom, Atoms, Code};
use sqlite_items::Items;
use std::alloc::{AllocError, Global};

/// One atom, as a value.
pub fn single(alloc: Global, atom: Atom) -> Result<Atoms, AllocError>
    ensures { IfOk result (λ atoms. atoms ≡ atom ∷ []) }
{
    let mut atoms = Items::new(alloc);
    atoms.push(atom)?;
    Ok(atoms)
}

/// An answer that is one atom or a code, as the answer of a call.
pub fn answered(
    alloc: Global,
    answer: Result<Atom, Code>,
) -> Result<Result<Atoms, Code>, AllocError>
    ensures { IfOk result (λ atoms. atoms ≡ spec.answered answer) }
{
    match answer {
        Ok(atom) => Ok(Ok(single(alloc, atom)?)),
        Err(code) => Ok(Err(code)),
    }
}
