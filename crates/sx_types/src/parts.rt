// What is known of the parts of an expression together.
ghost use Rattle.std.specs.Prelude.{◌≡◌, ◌||◌, List, [], ◌∷◌, ◌++◌};
ghost use Rattle.sx_kinds.specs.Types.{is_positional, is_same_start, is_source, joined_start};
ghost use Rattle.sx_kinds.specs.Types.{parts_of_typings, there};
ghost use Rattle.sx_kinds.specs.declared.types.Typing.{Typing};
ghost use Rattle.sx_types.specs.Added as spec;

use crate::kinds::{joined, may_be_node, may_be_number, one};
use sx_kinds::{Origin, Parts, Shape, Start, TyKind, Typing};

/// No parts.
pub fn none() -> Parts
    ensures { result ≡ parts_of_typings [] }
{
    Parts {
        first: None,
        second: None,
        third: None,
        kind: TyKind::Nothing,
        origin: None,
        start: Start::Nowhere,
        counts: false,
        positional: false,
    }
}

/// What is known of a part that may be there.
pub fn there(part: Option<Typing>) -> Typing
    ensures { result ≡ there part }
{
    match part {
        Some(t) => t,
        None => Typing {
            ty: one(TyKind::Nothing),
            shape: Shape::Other,
            deep: false,
            start: Start::Nowhere,
            counts: false,
        },
    }
}

/// Whether an origin is the document.
pub fn is_source(origin: Origin) -> bool
    ensures { result ≡ is_source origin }
{
    match origin {
        Origin::Source => true,
        _ => false,
    }
}

/// Whether two expressions take their nodes by steps from one item or one variable.
pub fn is_same_start(a: Start, b: Start) -> bool
    ensures { result ≡ is_same_start a b }
{
    match (a, b) {
        (Start::Context, Start::Context) => true,
        (Start::Variable(x), Start::Variable(y)) => x == y,
        _ => false,
    }
}

/// Where the nodes of two expressions together start.
pub fn joined_start(a: Start, b: Start) -> Start
    ensures { result ≡ joined_start a b }
{
    match (a, b) {
        (Start::Nowhere, _) => b,
        (_, Start::Nowhere) => a,
        _ => {
            if is_same_start(a, b) {
                a
            } else {
                Start::Elsewhere
            }
        }
    }
}

// The origin of what gives nodes of an origin behind others.
fn origin_behind(before: Option<Origin>, origin: Origin) -> Origin
    ensures { result ≡ spec.joined_origin before origin }
{
    match before {
        None => origin,
        Some(other) => {
            if is_source(other) && is_source(origin) {
                Origin::Source
            } else {
                Origin::Forest
            }
        }
    }
}

// The origin of parts and one more.
fn origin_with(before: Option<Origin>, part: &Typing) -> Option<Origin>
    ensures { result ≡ spec.origin_with before part.now }
{
    if may_be_node(part.ty.kind) {
        Some(origin_behind(before, part.ty.origin))
    } else {
        before
    }
}

// Whether a predicate of this type is positional.
fn is_positional(t: &Typing) -> bool
    ensures { result ≡ is_positional t.now }
{
    may_be_number(t.ty.kind) || t.counts
}

// The first part, where there is one more.
fn first_with(first: Option<Typing>, part: &Typing) -> Option<Typing>
    ensures { result ≡ spec.first_with first part.now }
{
    match first {
        None => Some(*part),
        Some(t) => Some(t),
    }
}

// The part behind another one, where there is one more.
fn behind_with(before: Option<Typing>, place: Option<Typing>, part: &Typing) -> Option<Typing>
    ensures { result ≡ spec.behind_with before place part.now }
{
    match before {
        None => None,
        Some(_) => first_with(place, part),
    }
}

// Whether one of two things is so.
fn either(a: bool, b: bool) -> bool
    ensures { result ≡ (a || b) }
{
    a || b
}

/// The parts and one more behind them.
pub fn and_one(before: &Parts, part: &Typing) -> Parts
    ensures { (ts : List Typing) → before.now ≡ parts_of_typings ts
        → result ≡ parts_of_typings (ts ++ part.now ∷ []) }
{
    Parts {
        first: first_with(before.first, part),
        second: behind_with(before.first, before.second, part),
        third: behind_with(before.second, before.third, part),
        kind: joined(before.kind, part.ty.kind),
        origin: origin_with(before.origin, part),
        start: joined_start(before.start, part.start),
        counts: either(before.counts, part.counts),
        positional: either(before.positional, is_positional(part)),
    }
}
