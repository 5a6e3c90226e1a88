// Sums and averages.
ghost use Rattle.std.specs.Prelude.{◌≡◌, IfOk};
ghost use Rattle.sx_fn_seq.specs.Sums.{with_item, total_of, mean_of, average_of};

use sqlite_items::Items;
use std::alloc::{AllocError, Global};
use sx_atoms::answers::single;
use sx_atoms::{Atom, Atoms, Code, add, div};

// A sum and one item more.
fn with(sum: &Atom, item: &Atom) -> Result<Atom, Code>
    ensures { result ≡ with_item sum.now item.now }
{
    match item {
        Atom::Int(_) | Atom::Dec(_) | Atom::Untyped(_) => add(sum, item),
        Atom::Str(_) | Atom::Bool(_) => Err(Code::Forg0006),
    }
}

/// The sum from left to right, or the code of the first item that fails.
pub fn total(items: &[Atom]) -> Result<Atom, Code>
    ensures { result ≡ total_of items.now }
{
    let mut sum = Atom::Int(0);
    for item in items {
        sum = with(&sum, item)?;
    }
    Ok(sum)
}

// The sum divided by how many items there are.
fn mean(items: &[Atom]) -> Result<Atom, Code>
    ensures { result ≡ mean_of items.now }
{
    let sum = total(items)?;
    div(&sum, &Atom::Int(items.len() as i128))
}

/// The average, where there is an item.
pub fn average(alloc: Global, items: &[Atom]) -> Result<Result<Atoms, Code>, AllocError>
    ensures { IfOk result (λ answer. answer ≡ average_of items.now) }
{
    match items {
        [] => Ok(Ok(Items::new(alloc))),
        [_, ..] => match mean(items) {
            Ok(average) => Ok(Ok(single(alloc, average)?)),
            Err(code) => Ok(Err(code)),
        },
    }
}
