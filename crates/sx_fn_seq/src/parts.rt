// Parts and sizes of sequences, and casts.
ghost use Rattle.std.specs.Prelude.{◌≡◌, Ok, Err, reverse, slice_get, IfOk, MatchResult};
ghost use Rattle.std.specs.Option.{option_copied};
ghost use Rattle.sx_atoms.specs.Positions.{selects, at_positions};
ghost use Rattle.sx_fn_seq.specs.Parts as spec;
ghost use Rattle.sx_fn_seq.specs.Parts.{subsequence_of, cast_argument};

use crate::answers::copies;
use sqlite_items::Items;
use std::alloc::{AllocError, Global};
use sx_atoms::answers::answered;
use sx_atoms::arguments::positions;
use sx_atoms::{Atom, AtomType, Atoms, Code, Positions, cast};

/// The first item, where there is one (XPath functions and operators 3.1, 14.1.3).
pub fn head<T>(items: &[T]) -> &[T]
    ensures { result.now ≡ spec.head_of items.now }
{
    match items {
        [] => &[],
        [_, ..] => &items[..1],
    }
}

/// The items behind the first one (14.1.4).
pub fn tail<T>(items: &[T]) -> &[T]
    ensures { result.now ≡ spec.tail_of items.now }
{
    match items {
        [] => &[],
        [_, rest @ ..] => rest,
    }
}

/// The item at a place, counted from 0, of the items in reverse order (14.1.9), where they reach so far.
pub fn in_reverse<T>(items: &[T], place: usize) -> Option<&T>
    ensures { option_copied result ≡ slice_get (reverse items.now) place }
{
    if place < items.len() {
        Some(&items[items.len() - 1 - place])
    } else {
        None
    }
}

/// The items at the positions that are selected (14.1.8).
pub fn subsequence<'a, T>(items: &'a [T], positions: &Positions) -> &'a [T]
    ensures { result.now ≡ at_positions (selects positions.now) 1 items.now }
{
    let (first, end) = positions.range(items.len());
    &items[first..end]
}

/// The items, where there is one at most (14.3.1). FORG0003 where there are more.
pub fn zero_or_one<T>(items: &[T]) -> Result<&[T], Code>
    ensures { MatchResult result
        (λ same. spec.zero_or_one items.now ≡ Ok same.now)
        (λ e. spec.zero_or_one items.now ≡ Err e) }
{
    if items.len() <= 1 {
        Ok(items)
    } else {
        Err(Code::Forg0003)
    }
}

/// The items, where there is one at least (14.3.2). FORG0004 where there is none.
pub fn one_or_more<T>(items: &[T]) -> Result<&[T], Code>
    ensures { MatchResult result
        (λ same. spec.one_or_more items.now ≡ Ok same.now)
        (λ e. spec.one_or_more items.now ≡ Err e) }
{
    if items.is_empty() {
        Err(Code::Forg0004)
    } else {
        Ok(items)
    }
}

/// The items, where there is exactly one (14.3.3). FORG0005 where there is none, and where there are more.
pub fn exactly_one<T>(items: &[T]) -> Result<&[T], Code>
    ensures { MatchResult result
        (λ same. spec.exactly_one items.now ≡ Ok same.now)
        (λ e. spec.exactly_one items.now ≡ Err e) }
{
    if items.len() == 1 {
        Ok(items)
    } else {
        Err(Code::Forg0005)
    }
}

/// Copies of the items, from the last one to the first.
pub fn reversed(alloc: Global, items: &[Atom]) -> Result<Atoms, AllocError>
    ensures { IfOk result (λ atoms. atoms ≡ reverse items.now) }
{
    let mut atoms = Items::new(alloc);
    while let Some(item) = in_reverse(items, atoms.len()) {
        atoms.push(Atom::copy(alloc, item)?)?;
    }
    Ok(atoms)
}

/// Copies of the items at the positions that numbers select, or the code of the first argument that is no number.
pub fn selected(
    alloc: Global,
    items: &[Atom],
    start: &[Atom],
    count: Option<&[Atom]>,
) -> Result<Result<Atoms, Code>, AllocError>
    ensures { IfOk result (λ answer. answer
        ≡ subsequence_of items.now start.now (option_copied count.entry)) }
{
    match positions(alloc, start, count)? {
        Ok(positions) => Ok(Ok(copies(alloc, subsequence(items, &positions))?)),
        Err(code) => Ok(Err(code)),
    }
}

/// A cast of the one atom, where there is one (XPath functions and operators 3.1, 18.1). XPTY0004 where there are more.
pub fn cast_one(
    alloc: Global,
    to: AtomType,
    atoms: &[Atom],
) -> Result<Result<Atoms, Code>, AllocError>
    ensures { IfOk result (λ answer. answer ≡ cast_argument to atoms.now) }
{
    match atoms {
        [] => Ok(Ok(Items::new(alloc))),
        [atom] => answered(alloc, cast(alloc, atom, to)?),
        _ => Ok(Err(Code::Xpty0004)),
    }
}
