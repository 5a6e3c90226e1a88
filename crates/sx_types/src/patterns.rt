// Settling patterns.
ghost use Rattle.std.specs.Prelude.{◌≡◌, ◌∷◌, ◌++◌, [], Ok, IfOk, OnErr, OnOk};
ghost use Rattle.sx_kinds.specs.Patterns as spec;
ghost use Rattle.sx_kinds.specs.Settled.{typing_place as place_at, settled_expression};
ghost use Rattle.sx_kinds.specs.Types.{typing};
ghost use Rattle.sx_types.specs.Places.{place_of};
ghost use Rattle.sx_types.specs.Settling.{next_alternative};

use crate::places::{Place, Scope};
use crate::settling::settle_in;
use std::alloc::{AllocError, Global};
use sx_atoms::Code;
use sx_kinds::{Expr, Exprs, Pattern, Ty, VarTypes};

// Puts an alternative behind those in front of it: settled, or as it was behind one that has a code. The answer is whether all
// of these have types, or the first code.
fn settle_alternative(
    alloc: Global,
    e: &Expr,
    place: &Place<'_>,
    known: Result<(), Code>,
    done: &mut Exprs,
) -> Result<Result<(), Code>, AllocError>
    ensures { IfOk result (λ after. let made = next_alternative (place_of place.now) known e.now in
        (done.new ≡ done.old ++ made ∷ [])
        × (after ≡ spec.have_types place.now.context known (made ∷ []))) }
{
    match known {
        Err(code) => {
            done.push(Expr::copy(alloc, e)?)?;
            Ok(Err(code))
        }
        Ok(()) => match settle_in(alloc, e, place, done)? {
            Ok(_) => Ok(Ok(())),
            Err(code) => Ok(Err(code)),
        },
    }
}

/// Writes into the alternatives of a pattern, in their predicates above all, what `settle` writes into an expression. `context`
/// is the type of the node that the pattern is tried on, which is the current item of its predicates too, `group` that of the
/// current group, and `vars` has the types of the variables in scope. The answer is the first code that one of the alternatives
/// then has, if any; what stands before that place is settled then, and the rest is as it was. After an `AllocError` nothing has
/// changed.
pub fn settle_pattern(
    alloc: Global,
    pattern: &mut Pattern,
    context: &Ty,
    group: &Ty,
    vars: &VarTypes,
) -> Result<Result<(), Code>, AllocError>
    ensures settled_expression { IfOk result (λ answer.
        pattern.new ≡ spec.settled_pattern pattern.old (place_at context.now group.now vars.now)) }
    ensures stays { IfOk result (λ answer.
        spec.IsSettledPattern pattern.new (place_at context.now group.now vars.now)) }
    ensures answer { IfOk result (λ answer. answer ≡ spec.pattern_types pattern.new context.now) }
    ensures unchanged { OnErr result (pattern.new ≡ pattern.old) }
{
    let scope = Scope::Base(vars.as_slice());
    let place = Place {
        context: *context,
        current: *context,
        group: *group,
        scope: &scope,
    };
    let mut done = Exprs::new(alloc);
    let mut known = Ok(());
    for e in pattern.alternatives.as_slice() {
        known = settle_alternative(alloc, e, &place, known, &mut done)?;
    }
    pattern.alternatives = done;
    Ok(known)
}
