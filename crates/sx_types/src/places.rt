// Where expressions stand, and what is written into them there.
ghost use Rattle.std.specs.Prelude.{◌≡◌, [], ◌∷◌, IfOk};
ghost use Rattle.sx_kinds.specs.Settled as spec;
ghost use Rattle.sx_types.specs.Places.{bindings, one_bound, place_of};

use crate::kinds::many;
use crate::paths::{is_child_step, is_per_item, item_of};
use std::alloc::{AllocError, Global};
use sx_atoms::SeqFn;
use sx_kinds::{Deep, ExprForm, Function, Ty, TyKind, Typing, VarType};

/// The variables in scope, of two with one name the inner one counting.
#[derive(Clone, Copy)]
pub enum Scope<'a> {
    /// those that are handed in, of two with one name the later one counting
    Base(&'a [VarType]),
    /// one that an expression binds
    Bound(VarType, &'a Scope<'a>),
}

/// Where an expression stands: the types of its context item, of the instruction's context item and of the current group, and
/// the variables in scope.
#[derive(Clone, Copy)]
pub struct Place<'a> {
    pub context: Ty,
    pub current: Ty,
    pub group: Ty,
    pub scope: &'a Scope<'a>,
}

// The type of the last variable of a name, or any items.
fn latest(vars: &[VarType], name: u64) -> Ty
    ensures { result ≡ spec.type_in name vars.now }
{
    let mut found = many(TyKind::Any);
    for var in vars {
        if var.name == name {
            found = var.ty;
        }
    }
    found
}

/// The type of a variable; any items where it is not in scope.
#[tactic(auto, using(crate::proofs::Bindings::latest_more))]
pub fn type_in<'a>(mut scope: &'a Scope<'a>, name: u64) -> Ty
    ensures { result ≡ spec.type_in name (bindings scope.entry.now) }
{
    while let Scope::Bound(var, outer) = scope {
        if var.name == name {
            return var.ty;
        }
        scope = outer;
    }
    match scope {
        Scope::Base(vars) => latest(vars, name),
        Scope::Bound(var, _) => var.ty,
    }
}

/// The variable that an expression binds for the parts behind its first one (XPath 3.1, 3.9 and 3.11).
pub fn bound(form: &ExprForm, first: Option<Typing>) -> Option<VarType>
    ensures { one_bound result ≡ spec.variable_bound form.now first }
{
    let t = first?;
    match form {
        ExprForm::Let { name } => Some(VarType {
            name: *name,
            ty: t.ty,
        }),
        ExprForm::For { name } | ExprForm::Some { name } | ExprForm::Every { name } => {
            Some(VarType {
                name: *name,
                ty: item_of(&t.ty),
            })
        }
        _ => None,
    }
}

// The type at a call: that of the current item, or of the current group (XSLT 3.0, 20.4.1 and 14.2.1).
fn type_at(function: Function, place: &Place<'_>, ty: Ty) -> Ty
    ensures { result ≡ spec.type_of_call function (place_of place.now) ty }
{
    match function {
        Function::Seq(SeqFn::Current) => place.current,
        Function::Seq(SeqFn::CurrentGroup) => place.group,
        _ => ty,
    }
}

/// What is written into the form of an expression of which this is known.
pub fn form_in(
    alloc: Global,
    form: &ExprForm,
    place: &Place<'_>,
    t: &Typing,
) -> Result<ExprForm, AllocError>
    ensures { IfOk result (λ f. f ≡ spec.form_in form.now (place_of place.now) t.now) }
{
    match form {
        ExprForm::Path { .. } => Ok(ExprForm::Path {
            per_item: is_per_item(t.shape),
        }),
        ExprForm::Var { name, .. } => Ok(ExprForm::Var {
            name: *name,
            ty: type_in(place.scope, *name),
        }),
        ExprForm::Call {
            function,
            ty,
            accumulator,
        } => Ok(ExprForm::Call {
            function: *function,
            ty: type_at(*function, place, *ty),
            accumulator: *accumulator,
        }),
        _ => ExprForm::copy(alloc, form),
    }
}

/// How an expression behind `//` is read (XPath 3.1, 3.3.5).
pub fn deep_in(deep: Deep, t: &Typing) -> Deep
    ensures { result ≡ spec.deep_in deep t.now }
{
    match deep {
        Deep::No => Deep::No,
        _ => {
            if is_child_step(t.shape) {
                Deep::Descendant
            } else {
                Deep::Parents
            }
        }
    }
}
