// Calls of functions.
ghost use Rattle.std.specs.Prelude.{◌≡◌};
ghost use Rattle.sx_kinds.specs.Types as spec;

use crate::kinds::{as_number, atomised, extreme, many, one, summed};
use sx_atoms::{SeqFn, TextFn};
use sx_kinds::{Function, Origin, Shape, Start, Ty, TyKind, Typing};

// A call of a function on texts (XPath functions and operators 3.1, 5 and 2.3).
fn text_call(f: TextFn) -> Ty
    ensures { result ≡ spec.text_call_type f }
{
    match f {
        TextFn::String | TextFn::NormalizeSpace | TextFn::Concat => one(TyKind::Str),
        TextFn::StringLength => one(TyKind::Integer),
        TextFn::StringJoin | TextFn::Substring | TextFn::Translate => one(TyKind::Str),
        TextFn::Contains | TextFn::StartsWith | TextFn::EndsWith => one(TyKind::Boolean),
        TextFn::SubstringBefore | TextFn::SubstringAfter => one(TyKind::Str),
    }
}

// The same items, at most one of them or any number.
fn counted(x: &Ty, at_most_one: bool) -> Ty
    ensures { result ≡ record x.now { at_most_one = at_most_one } }
{
    Ty {
        kind: x.kind,
        at_most_one,
        origin: x.origin,
    }
}

// Copies of items, each one in a tree of its own (XSLT 3.0, 18.1).
fn copied(x: &Ty) -> Ty
    ensures { result ≡ spec.copied x.now }
{
    let origin = if x.at_most_one {
        Origin::One
    } else {
        Origin::Separate
    };
    Ty {
        kind: x.kind,
        at_most_one: x.at_most_one,
        origin,
    }
}

// A call of another function, by the type of the current item or group and that of the first argument (XPath functions and
// operators 3.1; XSLT 3.0, 14, 18 and 20).
fn seq_call(f: SeqFn, ty: &Ty, x: &Ty) -> Ty
    ensures { result ≡ spec.seq_call_type f ty.now x.now }
{
    match f {
        SeqFn::Name | SeqFn::LocalName | SeqFn::NamespaceUri => one(TyKind::Str),
        SeqFn::Count => one(TyKind::Integer),
        SeqFn::Empty | SeqFn::Exists | SeqFn::Boolean | SeqFn::Not => one(TyKind::Boolean),
        SeqFn::Sum => one(summed(x.kind)),
        SeqFn::Avg => one(TyKind::Decimal),
        SeqFn::Min | SeqFn::Max => one(extreme(x.kind)),
        SeqFn::Data | SeqFn::DistinctValues => many(atomised(x.kind)),
        SeqFn::Abs | SeqFn::Floor | SeqFn::Ceiling | SeqFn::Round => one(as_number(x.kind)),
        SeqFn::True | SeqFn::False => one(TyKind::Boolean),
        SeqFn::Position | SeqFn::Last => one(TyKind::Integer),
        SeqFn::Head | SeqFn::ZeroOrOne | SeqFn::ExactlyOne => counted(x, true),
        SeqFn::Tail | SeqFn::Reverse | SeqFn::Subsequence => counted(x, false),
        SeqFn::OneOrMore => counted(x, false),
        SeqFn::CopyOf | SeqFn::Snapshot => copied(x),
        SeqFn::Current => counted(ty, true),
        SeqFn::CurrentGroup => *ty,
        SeqFn::CurrentGroupingKey => one(TyKind::AnyAtom),
        SeqFn::AccumulatorBefore | SeqFn::AccumulatorAfter => many(TyKind::AnyAtom),
        SeqFn::ToInteger => one(TyKind::Integer),
        SeqFn::ToDecimal => one(TyKind::Decimal),
        SeqFn::ToStr => one(TyKind::Str),
        SeqFn::ToBoolean => one(TyKind::Boolean),
    }
}

/// A call, by the type of the current item or group and that of the first argument.
pub fn called(f: Function, ty: &Ty, x: &Ty) -> Ty
    ensures { result ≡ spec.called f ty.now x.now }
{
    match f {
        Function::Text(f) => text_call(f),
        Function::Seq(f) => seq_call(f, ty, x),
    }
}

/// The type of the first argument: that of the context item where there is none.
pub fn argument(context: &Ty, first: Option<Typing>) -> Ty
    ensures { result ≡ spec.argument_type context.now first }
{
    match first {
        None => counted(context, true),
        Some(t) => t.ty,
    }
}

/// What a function call is to what stands around it.
pub fn called_shape(f: Function) -> Shape
    ensures { result ≡ spec.called_shape f }
{
    match f {
        Function::Seq(SeqFn::CopyOf) => Shape::Copy,
        Function::Seq(SeqFn::Snapshot) => Shape::Copy,
        _ => Shape::Other,
    }
}

// The same for another function than one on texts.
fn seq_start(f: SeqFn, x: Start) -> Start
    ensures { result ≡ spec.called_start (Function.Seq f) x }
{
    match f {
        SeqFn::Head | SeqFn::Tail | SeqFn::Reverse | SeqFn::Subsequence => x,
        SeqFn::ZeroOrOne | SeqFn::OneOrMore | SeqFn::ExactlyOne => x,
        SeqFn::CopyOf | SeqFn::Snapshot => Start::Elsewhere,
        SeqFn::Current | SeqFn::CurrentGroup => Start::Elsewhere,
        _ => Start::Nowhere,
    }
}

/// Where the nodes of a call start, by where those of its first argument do.
pub fn called_start(f: Function, x: Start) -> Start
    ensures { result ≡ spec.called_start f x }
{
    match f {
        Function::Text(_) => Start::Nowhere,
        Function::Seq(f) => seq_start(f, x),
    }
}

/// Whether a function is `position` or `last`.
pub fn is_count(f: Function) -> bool
    ensures { result ≡ spec.is_count f }
{
    match f {
        Function::Seq(SeqFn::Position) => true,
        Function::Seq(SeqFn::Last) => true,
        _ => false,
    }
}
