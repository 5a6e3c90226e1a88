// Paths, unions, choices and bindings.
ghost use Rattle.std.specs.Prelude.{◌≡◌, [], ◌∷◌, false};
ghost use Rattle.sx_kinds.specs.Types as spec;

use crate::kinds::{is_atomic, joined, may_be_node, step};
use crate::parts::{is_same_start, is_source};
use sx_atoms::Code;
use sx_kinds::{Deep, Origin, Shape, Start, Ty, TyKind, Typing};
use sx_tree::{Axis, NodeTest};

// Whether an origin is one copied tree.
fn is_one(origin: Origin) -> bool
    ensures { result ≡ spec.is_one origin }
{
    match origin {
        Origin::One => true,
        _ => false,
    }
}

/// Whether an origin is copies, each node in one of its own.
pub fn is_separate(origin: Origin) -> bool
    ensures { result ≡ spec.is_separate origin }
{
    match origin {
        Origin::Separate => true,
        _ => false,
    }
}

// Whether an origin is none of these.
fn is_forest(origin: Origin) -> bool
    ensures { result ≡ spec.is_forest origin }
{
    match origin {
        Origin::Forest => true,
        _ => false,
    }
}

// Whether two origins are one.
fn is_same_origin(a: Origin, b: Origin) -> bool
    ensures { result ≡ spec.is_same_origin a b }
{
    match a {
        Origin::Source => is_source(b),
        Origin::One => is_one(b),
        Origin::Separate => is_separate(b),
        Origin::Forest => is_forest(b),
    }
}

/// One item of those of a type, as it is the focus of what is evaluated for each of them.
pub fn item_of(t: &Ty) -> Ty
    ensures { result ≡ spec.item_of t.now }
{
    let origin = if is_source(t.origin) {
        Origin::Source
    } else {
        Origin::One
    };
    Ty {
        kind: t.kind,
        at_most_one: true,
        origin,
    }
}

/// Whether an expression stands behind `//`.
pub fn is_deep(deep: Deep) -> bool
    ensures { result ≡ spec.is_deep deep }
{
    match deep {
        Deep::No => false,
        _ => true,
    }
}

/// The context behind `//`: a node at or below it.
pub fn below(deep: Deep, context: &Ty) -> Ty
    ensures { result ≡ spec.type_below deep context.now }
{
    match deep {
        Deep::No => *context,
        _ => Ty {
            kind: TyKind::Node,
            at_most_one: true,
            origin: context.origin,
        },
    }
}

/// Whether a part is a step.
pub fn is_step(shape: Shape) -> bool
    ensures { result ≡ spec.is_step shape }
{
    match shape {
        Shape::ChildStep | Shape::Step => true,
        _ => false,
    }
}

/// Whether a part is a child step without a positional predicate.
pub fn is_child_step(shape: Shape) -> bool
    ensures { result ≡ spec.is_child_step shape }
{
    match shape {
        Shape::ChildStep => true,
        _ => false,
    }
}

/// Whether a part is a call of `copy-of` or `snapshot`, or a filter of one.
pub fn is_copy(shape: Shape) -> bool
    ensures { result ≡ spec.is_copy shape }
{
    match shape {
        Shape::Copy => true,
        _ => false,
    }
}

/// Whether a part is a path that is evaluated for each item of a front part.
pub fn is_per_item(shape: Shape) -> bool
    ensures { result ≡ spec.is_per_item shape }
{
    match shape {
        Shape::PerItem => true,
        _ => false,
    }
}

/// Where the nodes of what is evaluated for each item of the first start.
pub fn start_through(a: Start, b: Start) -> Start
    ensures { result ≡ spec.start_through a b }
{
    match b {
        Start::Nowhere => Start::Nowhere,
        Start::Context => a,
        Start::Variable(_) | Start::Elsewhere => Start::Elsewhere,
    }
}

/// Where nodes start, outside the scope of a variable.
pub fn start_outside(name: u64, start: Start) -> Start
    ensures { result ≡ spec.start_outside name start }
{
    match start {
        Start::Variable(other) => {
            if other == name {
                Start::Elsewhere
            } else {
                Start::Variable(other)
            }
        }
        Start::Nowhere => Start::Nowhere,
        Start::Context => Start::Context,
        Start::Elsewhere => Start::Elsewhere,
    }
}

// The origin of a choice between two branches.
fn choice_origin(a: &Typing, b: &Typing) -> Origin
    ensures { result ≡ spec.choice_origin (spec.origins (a.now ∷ b.now ∷ [])) }
{
    let left = may_be_node(a.ty.kind);
    let right = may_be_node(b.ty.kind);
    if left && right {
        return if is_same_origin(a.ty.origin, b.ty.origin) {
            a.ty.origin
        } else {
            Origin::Forest
        };
    }
    if left {
        return a.ty.origin;
    }
    if right {
        return b.ty.origin;
    }
    Origin::Source
}

/// A choice between two branches (XPath 3.1, 3.10).
pub fn choice(a: &Typing, b: &Typing) -> Ty
    ensures { result ≡ spec.choice a.now b.now }
{
    Ty {
        kind: joined(a.ty.kind, b.ty.kind),
        at_most_one: a.ty.at_most_one && b.ty.at_most_one,
        origin: choice_origin(a, b),
    }
}

/// What a `for` returns for each item (XPath 3.1, 3.9.1).
pub fn returned(over: &Ty, t: &Ty) -> Ty
    ensures { result ≡ spec.returned_type over.now t.now }
{
    let origin = if is_source(t.origin) {
        Origin::Source
    } else {
        Origin::Forest
    };
    Ty {
        kind: t.kind,
        at_most_one: over.at_most_one && t.at_most_one,
        origin,
    }
}

// The origin of a union with one operand that may give nodes.
fn single_origin(origin: Origin) -> Result<Origin, Code>
    ensures { result ≡ spec.union_origin false (origin ∷ []) }
{
    match origin {
        Origin::Source => Ok(Origin::Source),
        Origin::One => Ok(Origin::One),
        _ => Err(Code::Sxst0003),
    }
}

// The origin of a union with two operands that may give nodes.
fn double_origin(same: bool, a: Origin, b: Origin) -> Result<Origin, Code>
    ensures { result ≡ spec.union_origin same (a ∷ b ∷ []) }
{
    if is_source(a) && is_source(b) {
        return Ok(Origin::Source);
    }
    if is_one(a) && is_one(b) && same {
        return Ok(Origin::One);
    }
    Err(Code::Sxst0003)
}

// The origin of a union.
fn union_origin(a: &Typing, b: &Typing) -> Result<Origin, Code>
    ensures { result ≡ spec.union_origin (spec.is_same_start a.now.start b.now.start)
        (spec.origins (a.now ∷ b.now ∷ [])) }
{
    let left = may_be_node(a.ty.kind);
    let right = may_be_node(b.ty.kind);
    if left && right {
        return double_origin(is_same_start(a.start, b.start), a.ty.origin, b.ty.origin);
    }
    if left {
        return single_origin(a.ty.origin);
    }
    if right {
        return single_origin(b.ty.origin);
    }
    Ok(Origin::Source)
}

/// A union (XPath 3.1, 3.4.2).
pub fn union(a: &Typing, b: &Typing) -> Result<Ty, Code>
    ensures { result ≡ spec.union a.now b.now }
{
    let origin = union_origin(a, b)?;
    Ok(Ty {
        kind: joined(a.ty.kind, b.ty.kind),
        at_most_one: false,
        origin,
    })
}

// The origin of what is evaluated for each item of the left side.
fn path_origin(left: &Ty, right: &Typing) -> Origin
    ensures { result ≡ spec.path_origin left.now right.now }
{
    if left.at_most_one || is_source(right.ty.origin) {
        return right.ty.origin;
    }
    if is_one(left.origin) && is_same_start(right.start, Start::Context) {
        return Origin::One;
    }
    if is_copy(right.shape) {
        return Origin::Separate;
    }
    Origin::Forest
}

/// What is evaluated for each item of the left side (XPath 3.1, 3.3 and 3.14).
pub fn along(left: &Ty, right: &Typing) -> Ty
    ensures { result ≡ spec.type_along left.now right.now }
{
    Ty {
        kind: right.ty.kind,
        at_most_one: left.at_most_one && right.ty.at_most_one,
        origin: path_origin(left, right),
    }
}

// The nodes at and below those of the left side.
fn descendants(left: &Ty) -> Ty
    ensures { result ≡ spec.descendants left.now }
{
    let nodes = Typing {
        ty: step(&item_of(left), Axis::DescendantOrSelf, &NodeTest::Node),
        shape: Shape::Step,
        deep: false,
        start: Start::Context,
        counts: false,
    };
    along(left, &nodes)
}

/// A path (XPath 3.1, 3.3): an atom has no nodes, and steps from nodes of several trees have no order, unless they are
/// evaluated for each item of a front part.
pub fn path(left: &Typing, right: &Typing) -> Result<Ty, Code>
    ensures { result ≡ spec.path left.now right.now }
{
    if is_atomic(left.ty.kind) {
        return Err(Code::Xpty0004);
    }
    if is_forest(left.ty.origin)
        && !is_per_item(left.shape)
        && (right.deep || is_step(right.shape))
    {
        return Err(Code::Sxst0003);
    }
    if right.deep {
        return Ok(along(&descendants(&left.ty), right));
    }
    Ok(along(&left.ty, right))
}
