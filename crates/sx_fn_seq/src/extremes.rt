// The least and the greatest of numbers and of texts.
ghost use Rattle.std.specs.Prelude.{◌≡◌, ◌⊎◌, false, IfOk};
ghost use Rattle.sx_fn_seq.specs.Best as steps;
ghost use Rattle.sx_fn_seq.specs.Best.{better_of};
ghost use Rattle.sx_fn_seq.specs.Extremes as spec;
ghost use Rattle.sx_fn_seq.specs.Extremes.{compared_among, extreme_of};
ghost use Rattle.sx_fn_seq.specs.Order as order;

use sqlite_items::Items;
use std::alloc::{AllocError, Global};
use sx_atoms::answers::single;
use sx_atoms::{Atom, AtomType, Atoms, CmpOp, Code, cast, compare};

// Whether an operator holds of two values. It does not where they have no order.
fn stands(operator: CmpOp, a: &Atom, b: &Atom) -> bool
    ensures { result ≡ order.stands operator a.now b.now }
{
    compare(operator, false, a, b).unwrap_or(false)
}

// Whether an atom is a string.
fn is_text(atom: &Atom) -> bool
    ensures { result ≡ spec.is_text_atom atom.now }
{
    matches!(atom, Atom::Str(_))
}

// A number among numbers; there is none among texts.
fn number(alloc: Global, texts: bool, item: &Atom) -> Result<Result<Atom, Code>, AllocError>
    requires { spec.is_text_atom item.now ≡ false }
    ensures { IfOk result (λ answer. answer ≡ compared_among texts item.now) }
{
    match item {
        Atom::Untyped(_) => match cast(alloc, item, AtomType::Decimal)? {
            Ok(decimal) => Ok(if texts {
                Err(Code::Forg0006)
            } else {
                Ok(decimal)
            }),
            Err(code) => Ok(Err(code)),
        },
        Atom::Int(n) if !texts => Ok(Ok(Atom::Int(*n))),
        Atom::Dec(d) if !texts => Ok(Ok(Atom::Dec(*d))),
        _ => Ok(Err(Code::Forg0006)),
    }
}

// The first item, as it is compared.
fn first_of(alloc: Global, texts: bool, item: &Atom) -> Result<Result<Atom, Code>, AllocError>
    ensures { IfOk result (λ answer. answer ≡ compared_among texts item.now) }
{
    match item {
        Atom::Str(_) if texts => Ok(Ok(Atom::copy(alloc, item)?)),
        Atom::Str(_) => Ok(Err(Code::Forg0006)),
        _ => number(alloc, texts, item),
    }
}

// The better of two.
fn better(operator: CmpOp, best: Atom, next: Atom) -> Atom
    ensures { result ≡ better_of operator best next }
{
    if stands(operator, &next, &best) {
        next
    } else {
        best
    }
}

// The better of the best so far and a text, which is copied only where it is.
fn better_text(alloc: Global, operator: CmpOp, best: Atom, text: &Atom) -> Result<Atom, AllocError>
    ensures { IfOk result (λ answer. answer ≡ better_of operator best text.now) }
{
    if stands(operator, text, &best) {
        Atom::copy(alloc, text)
    } else {
        Ok(best)
    }
}

// The better of the best so far and one item more, or the code of an item that is none of the kind.
fn best_with(
    alloc: Global,
    operator: CmpOp,
    texts: bool,
    best: Atom,
    item: &Atom,
) -> Result<Result<Atom, Code>, AllocError>
    ensures { IfOk result (λ answer. answer ≡ steps.best_with operator texts best item.now) }
{
    if is_text(item) {
        return if texts {
            Ok(Ok(better_text(alloc, operator, best, item)?))
        } else {
            Ok(Err(Code::Forg0006))
        };
    }
    match number(alloc, texts, item)? {
        Ok(next) => Ok(Ok(better(operator, best, next))),
        Err(code) => Ok(Err(code)),
    }
}

// The best of the best so far and more items, or the code of the first that is none of the kind.
fn best_from(
    alloc: Global,
    operator: CmpOp,
    texts: bool,
    first: Atom,
    items: &[Atom],
) -> Result<Result<Atom, Code>, AllocError>
    ensures { IfOk result (λ answer. answer ≡ steps.best_from operator texts first items.now) }
{
    let mut best = first;
    for item in items {
        match best_with(alloc, operator, texts, best, item)? {
            Ok(next) => best = next,
            Err(code) => return Ok(Err(code)),
        }
    }
    Ok(Ok(best))
}

// The best of a first item and more items.
fn best_of(
    alloc: Global,
    operator: CmpOp,
    item: &Atom,
    rest: &[Atom],
) -> Result<Result<Atom, Code>, AllocError>
    ensures { IfOk result (λ answer. answer ≡ steps.best_of operator item.now rest.now) }
{
    let texts = is_text(item);
    match first_of(alloc, texts, item)? {
        Ok(first) => best_from(alloc, operator, texts, first, rest),
        Err(code) => Ok(Err(code)),
    }
}

/// The least item by `Lt` and the greatest by `Gt`, where there is an item, or the code of the first item that is none of the
/// kind.
pub fn extreme(
    alloc: Global,
    operator: CmpOp,
    items: &[Atom],
) -> Result<Result<Atoms, Code>, AllocError>
    requires { (operator ≡ CmpOp.Lt) ⊎ (operator ≡ CmpOp.Gt) }
    ensures { IfOk result (λ answer. answer ≡ extreme_of operator items.now) }
{
    let (first, rest) = match items {
        [] => return Ok(Ok(Items::new(alloc))),
        [first, rest @ ..] => (first, rest),
    };
    match best_of(alloc, operator, first, rest)? {
        Ok(best) => Ok(Ok(single(alloc, best)?)),
        Err(code) => Ok(Err(code)),
    }
}
