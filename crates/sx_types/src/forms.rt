// What is known of an expression by its form and its parts.
ghost use Rattle.std.specs.Prelude.{◌≡◌};
ghost use Rattle.sx_kinds.specs.Types as spec;

use crate::calls::{argument, called, called_shape, called_start, is_count};
use crate::kinds::{as_number, kind_of, kind_of_atom, many, one, reckoned, signed, step};
use crate::parts::{joined_start, there};
use crate::paths::{
    along, choice, is_copy, is_deep, is_per_item, is_separate, item_of, path, returned,
    start_outside, start_through, union,
};
use sx_atoms::Code;
use sx_kinds::{Deep, ExprForm, Origin, Parts, Shape, Start, Ty, TyKind, Typing};
use sx_tree::Axis;

// Operands behind commas (XPath 3.1, 3.4.1).
fn comma(parts: &Parts) -> Ty
    ensures { result ≡ spec.comma_type parts.now }
{
    let origin = match parts.origin {
        None => Origin::Source,
        Some(origin) => origin,
    };
    Ty {
        kind: parts.kind,
        at_most_one: false,
        origin,
    }
}

// The type of an expression, or the code of a construct that has none.
fn type_by(form: &ExprForm, context: &Ty, parts: &Parts) -> Result<Ty, Code>
    ensures { result ≡ spec.type_by form.now context.now parts.now }
{
    let first = there(parts.first);
    let second = there(parts.second);
    match form {
        ExprForm::Comma => Ok(comma(parts)),
        ExprForm::For { .. } => Ok(returned(&first.ty, &second.ty)),
        ExprForm::Let { .. } => Ok(second.ty),
        ExprForm::Some { .. } | ExprForm::Every { .. } => Ok(one(TyKind::Boolean)),
        ExprForm::If => Ok(choice(&second, &there(parts.third))),
        ExprForm::Or | ExprForm::And | ExprForm::Compare { .. } => Ok(one(TyKind::Boolean)),
        ExprForm::Concat => Ok(one(TyKind::Str)),
        ExprForm::Range => Ok(many(TyKind::Integer)),
        ExprForm::Arith(op) => Ok(one(reckoned(*op, first.ty.kind, second.ty.kind))),
        ExprForm::Unary { .. } => Ok(one(signed(as_number(first.ty.kind)))),
        ExprForm::Union => union(&first, &second),
        ExprForm::Castable { .. } => Ok(one(TyKind::Boolean)),
        ExprForm::Cast { to, .. } => Ok(one(kind_of(*to))),
        ExprForm::Map => Ok(along(&first.ty, &second)),
        ExprForm::Path { .. } => path(&first, &second),
        ExprForm::Step { axis, test } => Ok(step(context, *axis, test)),
        ExprForm::Filter => Ok(first.ty),
        ExprForm::Literal(atom) => Ok(one(kind_of_atom(atom))),
        ExprForm::Var { ty, .. } => Ok(*ty),
        ExprForm::Empty => Ok(one(TyKind::Nothing)),
        ExprForm::Dot => Ok(argument(context, None)),
        ExprForm::Root => Ok(Ty {
            kind: TyKind::Document,
            at_most_one: true,
            origin: context.origin,
        }),
        ExprForm::Call { function, ty, .. } => {
            Ok(called(*function, ty, &argument(context, parts.first)))
        }
    }
}

// What a step is to what stands around it.
fn step_shape(axis: Axis, positional: bool) -> Shape
    ensures { result ≡ spec.step_shape axis positional }
{
    match axis {
        Axis::Child => {
            if positional {
                Shape::Step
            } else {
                Shape::ChildStep
            }
        }
        _ => Shape::Step,
    }
}

// What a path with this left side is to what stands around it.
fn path_shape(left: &Typing) -> Shape
    ensures { result ≡ spec.path_shape left.now }
{
    if is_separate(left.ty.origin) || is_per_item(left.shape) {
        Shape::PerItem
    } else {
        Shape::Other
    }
}

// What an expression is to what stands around it.
fn shape_by(form: &ExprForm, parts: &Parts) -> Shape
    ensures { result ≡ spec.shape_by form.now parts.now }
{
    match form {
        ExprForm::Path { .. } => path_shape(&there(parts.first)),
        ExprForm::Step { axis, .. } => step_shape(*axis, parts.positional),
        ExprForm::Filter => {
            if is_copy(there(parts.first).shape) {
                Shape::Copy
            } else {
                Shape::Other
            }
        }
        ExprForm::Call { function, .. } => called_shape(*function),
        _ => Shape::Other,
    }
}

// Where the nodes of an expression start.
fn start_by(form: &ExprForm, parts: &Parts) -> Start
    ensures { result ≡ spec.start_by form.now parts.now }
{
    let first = there(parts.first).start;
    let second = there(parts.second).start;
    match form {
        ExprForm::Comma => parts.start,
        ExprForm::For { name } => start_outside(*name, second),
        ExprForm::Let { name } => start_outside(*name, second),
        ExprForm::If => joined_start(second, there(parts.third).start),
        ExprForm::Union => joined_start(first, second),
        ExprForm::Map | ExprForm::Path { .. } => start_through(first, second),
        ExprForm::Step { .. } | ExprForm::Dot | ExprForm::Root => Start::Context,
        ExprForm::Filter => first,
        ExprForm::Var { name, .. } => Start::Variable(*name),
        ExprForm::Call { function, .. } => called_start(*function, first),
        _ => Start::Nowhere,
    }
}

// Whether an expression calls `position()` or `last()` in its own focus.
fn counts_by(form: &ExprForm, parts: &Parts) -> bool
    ensures { result ≡ spec.counts_by form.now parts.now }
{
    match form {
        ExprForm::Map | ExprForm::Path { .. } | ExprForm::Filter => there(parts.first).counts,
        ExprForm::Step { .. } => false,
        ExprForm::Call { function, .. } => is_count(*function) || parts.counts,
        _ => parts.counts,
    }
}

/// What is known of an expression by its form and its parts, or the code of a construct that has no type.
pub fn known_by(form: &ExprForm, deep: Deep, context: &Ty, parts: &Parts) -> Result<Typing, Code>
    ensures { result ≡ spec.known_by form.now deep context.now parts.now }
{
    let ty = type_by(form, context, parts)?;
    Ok(Typing {
        ty,
        shape: shape_by(form, parts),
        deep: is_deep(deep),
        start: start_by(form, parts),
        counts: counts_by(form, parts),
    })
}

/// The context of a part, by what is known of the first one before it.
pub fn focus(form: &ExprForm, context: &Ty, before: Option<Typing>) -> Ty
    ensures { result ≡ spec.focus form.now context.now before }
{
    if let ExprForm::Step { axis, test } = form {
        return item_of(&step(context, *axis, test));
    }
    let Some(t) = before else {
        return *context;
    };
    match form {
        ExprForm::Map | ExprForm::Path { .. } | ExprForm::Filter => item_of(&t.ty),
        _ => *context,
    }
}
