// Settling expressions.
ghost use Rattle.std.specs.Prelude.{◌≡◌, ◌<◌, ◌≤◌, ◌∷◌, ◌++◌, [], Ok, List, Result};
ghost use Rattle.std.specs.Prelude.{IfOk, OnErr, OnOk, drop};
ghost use Rattle.sx_atoms.specs.declared.error_codes.Code.{Code as AnyCode};
ghost use Rattle.sx_kinds.specs.Settled as spec;
ghost use Rattle.sx_kinds.specs.Types.{focus as focus_of, type_of};
ghost use Rattle.sx_kinds.specs.declared.types.Ty.{Ty as AnyTy};
ghost use Rattle.sx_kinds.specs.declared.types.Typing.{Typing as AnyTyping};
ghost use Rattle.sx_kinds.specs.Ways.{front, levels};
ghost use Rattle.sx_kinds.specs.declared.walks.Way.TheVariants.{OneFocus};
ghost use Rattle.sx_types.specs.Places.{place_of};
ghost use Rattle.sx_types.specs.Settling.{AddsSettled, AreKnownParts, IsBegun, IsSettledAt, finished_in};
ghost use Rattle.sx_types.specs.Settling.{known_after, known_from, next_part, together};

use crate::forms::{focus, known_by};
use crate::parts::{and_one, none};
use crate::paths;
use crate::places::{Place, Scope, bound, deep_in, form_in};
use std::alloc::{AllocError, Global};
use sx_atoms::Code;
use sx_kinds::{Deep, Expr, ExprForm, Exprs, Parts, Ty, Typing, VarTypes, Way};

// What is known of an expression by its form and what is known of its parts.
fn answered(
    form: &ExprForm,
    deep: Deep,
    context: &Ty,
    known: &Result<Parts, Code>,
) -> Result<Typing, Code>
    ensures { result ≡ known_from form.now deep context.now known.now }
{
    match known {
        Ok(parts) => known_by(form, deep, context, parts),
        Err(code) => Err(*code),
    }
}

// How an expression behind `//` is read, where this is known of it.
fn deep_after(deep: Deep, answer: &Result<Typing, Code>) -> Deep
    ensures { result ≡ spec.deep_after deep answer.now }
{
    match answer {
        Ok(t) => deep_in(deep, t),
        Err(_) => deep,
    }
}

// The form of an expression, where this is known of it.
fn form_after(
    alloc: Global,
    form: &ExprForm,
    here: &Place<'_>,
    answer: &Result<Typing, Code>,
) -> Result<ExprForm, AllocError>
    ensures { IfOk result (λ f. f ≡ spec.form_after form.now (place_of here.now) answer.now) }
{
    match answer {
        Ok(t) => form_in(alloc, form, here, t),
        Err(_) => ExprForm::copy(alloc, form),
    }
}

// Puts an expression with these parts behind others, with its own fields where it has a type. The answer is what is known of
// it. It is kept apart, as are the next three, so that a level of an expression takes little of the stack.
#[inline(never)]
fn finish(
    alloc: Global,
    e: &Expr,
    here: &Place<'_>,
    parts: Exprs,
    known: &Result<Parts, Code>,
    done: &mut Exprs,
) -> Result<Result<Typing, Code>, AllocError>
    ensures { (before : Result (List AnyTyping) AnyCode) (outer : AnyTy)
        → AreKnownParts e.now parts here.now.context outer known.now before
        → IfOk result (λ answer.
        AddsSettled done.old done.new (finished_in e.now (place_of here.now) parts outer) outer answer) }
{
    let context = &here.context;
    let answer = answered(&e.form, e.deep, context, known);
    let deep = deep_after(e.deep, &answer);
    let form = form_after(alloc, &e.form, here, &answer)?;
    let settled = answered(&form, deep, context, known);
    let construct = e.construct;
    done.push(Expr {
        construct,
        deep,
        form,
        parts,
    })?;
    Ok(settled)
}

// Puts a copy of an expression behind others.
#[inline(never)]
fn keep(alloc: Global, e: &Expr, done: &mut Exprs) -> Result<(), AllocError>
    ensures { OnOk result (done.new ≡ done.old ++ e.now ∷ []) }
{
    done.push(Expr::copy(alloc, e)?)
}

// What is known of parts and of one more.
#[inline(never)]
fn known_more(known: &Result<Parts, Code>, answer: &Result<Typing, Code>) -> Result<Parts, Code>
    ensures { (ts : List AnyTyping) → known.now ≡ together (Ok ts)
        → result ≡ together (spec.and_one ts answer.now) }
{
    match (known, answer) {
        (Ok(parts), Ok(t)) => Ok(and_one(parts, t)),
        (Ok(_), Err(code)) => Err(*code),
        (Err(code), _) => Err(*code),
    }
}

// The parts behind the first ones.
#[inline(never)]
fn behind(parts: &[Expr], n: usize) -> &[Expr]
    ensures { result.now ≡ drop n parts.entry.now }
{
    if n < parts.len() { &parts[n..] } else { &[] }
}

// Puts a part settled behind those in front of it, of which the first is known. The answer is what is known of the part.
#[cycle(settling)]
fn settle_inside(
    alloc: Global,
    part: &Expr,
    form: &ExprForm,
    here: &Place<'_>,
    first: Option<Typing>,
    done: &mut Exprs,
) -> Result<Result<Typing, Code>, AllocError>
    ensures { IfOk result (λ answer.
        let made = spec.settled_expression part.now (spec.inner form.now (place_of here.now) first) in
        AddsSettled done.old done.new made (focus_of form.now here.now.context first) answer) }
{
    let context = focus(form, &here.context, first);
    match bound(form, first) {
        Some(var) => {
            let scope = Scope::Bound(var, here.scope);
            let place = Place {
                context,
                current: here.current,
                group: here.group,
                scope: &scope,
            };
            settle_in(alloc, part, &place, done)
        }
        None => {
            let place = Place {
                context,
                current: here.current,
                group: here.group,
                scope: here.scope,
            };
            settle_in(alloc, part, &place, done)
        }
    }
}

// Puts a part behind those in front of it: settled, or as it was behind one that has a code. The answer is what is known then.
#[cycle(settling)]
fn settle_part(
    alloc: Global,
    part: &Expr,
    form: &ExprForm,
    here: &Place<'_>,
    known: &Result<Parts, Code>,
    done: &mut Exprs,
) -> Result<Result<Parts, Code>, AllocError>
    ensures { (before : Result (List AnyTyping) AnyCode) → known.now ≡ together before
        → IfOk result (λ after.
        (done.new ≡ done.old ++ next_part form.now (place_of here.now) before part.now ∷ [])
        × (after ≡ together (known_after form.now (place_of here.now) before part.now))) }
{
    match known {
        Err(code) => {
            keep(alloc, part, done)?;
            Ok(Err(*code))
        }
        Ok(before) => {
            let answer = settle_inside(alloc, part, form, here, before.first, done)?;
            Ok(known_more(known, &answer))
        }
    }
}

// Puts an expression, settled in a place, behind others, where its first parts may be settled and this is known of them. The
// answer is what is known of it then.
#[cycle(settling)]
fn settle_level(
    alloc: Global,
    e: &Expr,
    place: &Place<'_>,
    mut parts: Exprs,
    mut known: Result<Parts, Code>,
    done: &mut Exprs,
) -> Result<Result<Typing, Code>, AllocError>
    requires { IsBegun e.now (place_of place.now) parts known }
    ensures { IfOk result (λ answer.
        AddsSettled done.old done.new (spec.settled_expression e.now (place_of place.now)) place.now.context
        answer) }
{
    let here = Place {
        context: paths::below(e.deep, &place.context),
        current: place.current,
        group: place.group,
        scope: place.scope,
    };
    for part in behind(e.parts.as_slice(), parts.as_slice().len()) {
        known = settle_part(alloc, part, &e.form, &here, &known, &mut parts)?;
    }
    finish(alloc, e, &here, parts, &known, done)
}

// Puts an expression, settled in a place, behind others, where what lies so many first parts below in its focus is settled and
// this is known of it. The answer is what is known of the whole. Halving keeps the calls within one another few.
#[cycle(settling)]
fn settle_rise(
    alloc: Global,
    e: &Expr,
    place: &Place<'_>,
    n: usize,
    parts: Exprs,
    known: Result<Typing, Code>,
    done: &mut Exprs,
) -> Result<Result<Typing, Code>, AllocError>
    requires above { 0 < n }
    requires within { n ≤ levels OneFocus e.now }
    requires below { IsSettledAt (place_of place.now) (front OneFocus n e.now) parts known }
    ensures { IfOk result (λ answer.
        AddsSettled done.old done.new (spec.settled_expression e.now (place_of place.now)) place.now.context
        answer) }
{
    if n == 1 {
        let first = known_more(&Ok(none()), &known);
        return settle_level(alloc, e, place, parts, first, done);
    }
    let half = n / 2;
    let middle = e.below(Way::OneFocus, half);
    let mut halfway = Exprs::new(alloc);
    let answer = settle_rise(alloc, middle, place, n - half, parts, known, &mut halfway)?;
    settle_rise(alloc, e, place, half, halfway, answer, done)
}

/// Puts an expression, settled in a place, behind others. The answer is what is known of it then.
#[cycle(settling)]
pub fn settle_in(
    alloc: Global,
    e: &Expr,
    place: &Place<'_>,
    done: &mut Exprs,
) -> Result<Result<Typing, Code>, AllocError>
    ensures { IfOk result (λ answer.
        AddsSettled done.old done.new (spec.settled_expression e.now (place_of place.now)) place.now.context
        answer) }
{
    let n = e.levels(Way::OneFocus);
    if n == 0 {
        return settle_level(alloc, e, place, Exprs::new(alloc), Ok(none()), done);
    }
    let bottom = e.below(Way::OneFocus, n);
    let mut parts = Exprs::new(alloc);
    let answer = settle_level(
        alloc,
        bottom,
        place,
        Exprs::new(alloc),
        Ok(none()),
        &mut parts,
    )?;
    settle_rise(alloc, e, place, n, parts, answer, done)
}

/// Writes into an expression what the types of what stands around it say: the type of each variable and of each call of
/// `current` and `current-group`, which paths are evaluated for each item of a front part, and how each `//` is read.
/// `context` is the type of the instruction's context item, `group` that of the current group, and `vars` has the types of the
/// variables in scope. The answer is the code that `type_of` then has, if any; the parts before that place are settled then,
/// and the others are as they were. After an `AllocError` nothing has changed.
pub fn settle(
    alloc: Global,
    e: &mut Expr,
    context: &Ty,
    group: &Ty,
    vars: &VarTypes,
) -> Result<Result<(), Code>, AllocError>
    ensures settled { IfOk result (λ answer.
        e.new ≡ spec.settled_expression e.old (spec.typing_place context.now group.now vars.now)) }
    ensures stays { IfOk result
        (λ answer. spec.IsSettled e.new (spec.typing_place context.now group.now vars.now)) }
    ensures answer { IfOk result (λ answer. answer ≡ spec.without_type (type_of e.new context.now)) }
    ensures unchanged { OnErr result (e.new ≡ e.old) }
{
    let scope = Scope::Base(vars.as_slice());
    let place = Place {
        context: *context,
        current: *context,
        group: *group,
        scope: &scope,
    };
    let mut done = Exprs::new(alloc);
    let answer = settle_in(alloc, e, &place, &mut done)?;
    let Some(new) = done.pop() else {
        unreachable!()
    };
    *e = new;
    match answer {
        Ok(_) => Ok(Ok(())),
        Err(code) => Ok(Err(code)),
    }
}
