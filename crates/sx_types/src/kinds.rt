// The kinds of items.
ghost use Rattle.std.specs.Prelude.{◌≡◌};
ghost use Rattle.sx_kinds.specs.Types as spec;

use sx_atoms::{ArithOp, Atom, AtomType};
use sx_kinds::{Origin, Ty, TyKind};
use sx_tree::{Axis, NodeTest};

// The number of a kind, from those of nodes to those of atoms.
fn rank(kind: TyKind) -> u8
    ensures { result ≡ spec.rank kind }
{
    match kind {
        TyKind::Document => 0,
        TyKind::Element => 1,
        TyKind::Attribute => 2,
        TyKind::Text => 3,
        TyKind::Pi => 4,
        TyKind::Node => 5,
        TyKind::Integer => 6,
        TyKind::Decimal => 7,
        TyKind::Str => 8,
        TyKind::Boolean => 9,
        TyKind::Untyped => 10,
        TyKind::AnyAtom => 11,
        TyKind::Any => 12,
        TyKind::Nothing => 13,
    }
}

/// Whether the items of a kind are nodes.
pub fn is_node(kind: TyKind) -> bool
    ensures { result ≡ spec.is_node kind }
{
    rank(kind) <= 5
}

/// Whether the items of a kind are atoms.
pub fn is_atomic(kind: TyKind) -> bool
    ensures { result ≡ spec.is_atomic kind }
{
    let number = rank(kind);
    6 <= number && number <= 11
}

/// Whether a node may be among the items of a kind.
pub fn may_be_node(kind: TyKind) -> bool
    ensures { result ≡ spec.may_be_node kind }
{
    is_node(kind) || rank(kind) == 12
}

/// Whether a number may be among the items of a kind.
pub fn may_be_number(kind: TyKind) -> bool
    ensures { result ≡ spec.may_be_number kind }
{
    match kind {
        TyKind::Integer | TyKind::Decimal | TyKind::AnyAtom | TyKind::Any => true,
        _ => false,
    }
}

/// Two kinds joined: the one that both are, or the least that has both.
pub fn joined(a: TyKind, b: TyKind) -> TyKind
    ensures { result ≡ spec.joined_kind a b }
{
    let (m, n) = (rank(a), rank(b));
    if m == 13 {
        return b;
    }
    if n == 13 || m == n {
        return a;
    }
    if is_node(a) && is_node(b) {
        return TyKind::Node;
    }
    if is_atomic(a) && is_atomic(b) {
        return TyKind::AnyAtom;
    }
    TyKind::Any
}

/// The kind of an item's atom (XPath data model 3.1, 5.15 and 6).
pub fn atomised(kind: TyKind) -> TyKind
    ensures { result ≡ spec.atomised kind }
{
    match kind {
        TyKind::Document | TyKind::Element | TyKind::Attribute | TyKind::Text => TyKind::Untyped,
        TyKind::Pi => TyKind::Str,
        TyKind::Node | TyKind::Any => TyKind::AnyAtom,
        other => other,
    }
}

/// The kind of what is compared or rounded as a number: nodes and untyped text are read as decimals.
pub fn as_number(kind: TyKind) -> TyKind
    ensures { result ≡ spec.as_number kind }
{
    match kind {
        TyKind::Integer => TyKind::Integer,
        TyKind::Str => TyKind::Str,
        TyKind::Boolean => TyKind::Boolean,
        TyKind::AnyAtom | TyKind::Any => TyKind::AnyAtom,
        TyKind::Nothing => TyKind::Nothing,
        _ => TyKind::Decimal,
    }
}

/// The kind of the least or the greatest of some items (XPath functions and operators 3.1, 14.4.3 and 14.4.4): that of their
/// atoms, of which the untyped ones are read as decimals.
pub fn extreme(kind: TyKind) -> TyKind
    ensures { result ≡ spec.extreme kind }
{
    as_number(atomised(kind))
}

/// The kind of a number that is this one with a sign (XPath 3.1, 3.5).
pub fn signed(kind: TyKind) -> TyKind
    ensures { result ≡ spec.signed kind }
{
    match kind {
        TyKind::Integer => TyKind::Integer,
        TyKind::Decimal => TyKind::Decimal,
        _ => TyKind::AnyAtom,
    }
}

// The kind of a sum, a difference, a product or a remainder.
fn mixed(a: TyKind, b: TyKind) -> TyKind
    ensures { result ≡ spec.mixed a b }
{
    match (a, b) {
        (TyKind::Integer, TyKind::Integer) => TyKind::Integer,
        (TyKind::Decimal, _) => TyKind::Decimal,
        (_, TyKind::Decimal) => TyKind::Decimal,
        _ => TyKind::AnyAtom,
    }
}

/// The kind of what an operator of arithmetic gives (XPath 3.1, 3.5).
pub fn reckoned(op: ArithOp, a: TyKind, b: TyKind) -> TyKind
    ensures { result ≡ spec.reckoned op a b }
{
    match op {
        ArithOp::Add => mixed(as_number(a), as_number(b)),
        ArithOp::Sub => mixed(as_number(a), as_number(b)),
        ArithOp::Mul => mixed(as_number(a), as_number(b)),
        ArithOp::Div => TyKind::Decimal,
        ArithOp::Idiv => TyKind::Integer,
        ArithOp::Mod => mixed(as_number(a), as_number(b)),
    }
}

/// The kind of a sum of all items (XPath functions and operators 3.1, 14.4.5).
pub fn summed(kind: TyKind) -> TyKind
    ensures { result ≡ spec.summed kind }
{
    match kind {
        TyKind::Integer => TyKind::Integer,
        _ => TyKind::AnyAtom,
    }
}

/// The kind that an atomic type has.
pub fn kind_of(of: AtomType) -> TyKind
    ensures { result ≡ spec.kind_of of }
{
    match of {
        AtomType::Integer => TyKind::Integer,
        AtomType::Decimal => TyKind::Decimal,
        AtomType::Str => TyKind::Str,
        AtomType::Boolean => TyKind::Boolean,
        AtomType::Untyped => TyKind::Untyped,
    }
}

/// The kind of an atom.
pub fn kind_of_atom(atom: &Atom) -> TyKind
    ensures { result ≡ spec.kind_of_atom atom.now }
{
    match atom {
        Atom::Int(_) => TyKind::Integer,
        Atom::Dec(_) => TyKind::Decimal,
        Atom::Str(_) => TyKind::Str,
        Atom::Bool(_) => TyKind::Boolean,
        Atom::Untyped(_) => TyKind::Untyped,
    }
}

// The kind of a node that passes a test, on another axis than that of attributes (XPath 3.1, 3.3.2.2).
fn tested(test: &NodeTest) -> TyKind
    ensures { result ≡ spec.tested test.now }
{
    match test {
        NodeTest::Name(_) | NodeTest::AnyName => TyKind::Element,
        NodeTest::InSpace(_) | NodeTest::Local(_) => TyKind::Element,
        NodeTest::Node | NodeTest::Comment => TyKind::Node,
        NodeTest::Text => TyKind::Text,
        NodeTest::Document => TyKind::Document,
        NodeTest::Pi(_) => TyKind::Pi,
        NodeTest::Element(_) => TyKind::Element,
        NodeTest::Attribute(_) => TyKind::Attribute,
    }
}

// Whether a test of attributes gives a full name.
fn names_one(test: &NodeTest) -> bool
    ensures { result ≡ spec.names_one test.now }
{
    match test {
        NodeTest::Name(_) => true,
        NodeTest::Attribute(Some(_)) => true,
        _ => false,
    }
}

/// At most one item of a kind, which is no node of a copy.
pub fn one(kind: TyKind) -> Ty
    ensures { result ≡ spec.one_of_kind kind }
{
    Ty {
        kind,
        at_most_one: true,
        origin: Origin::Source,
    }
}

/// Any number of such items.
pub fn many(kind: TyKind) -> Ty
    ensures { result ≡ spec.many kind }
{
    Ty {
        kind,
        at_most_one: false,
        origin: Origin::Source,
    }
}

/// A step from a context (XPath 3.1, 3.3.2).
pub fn step(context: &Ty, axis: Axis, test: &NodeTest) -> Ty
    ensures { result ≡ spec.step_type context.now axis test.now }
{
    let origin = context.origin;
    let (kind, at_most_one) = match axis {
        Axis::Attribute => (TyKind::Attribute, names_one(test)),
        Axis::SelfNode | Axis::Parent => (tested(test), true),
        _ => (tested(test), false),
    };
    Ty {
        kind,
        at_most_one,
        origin,
    }
}
