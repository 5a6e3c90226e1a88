// Ways down an expression.
ghost use Rattle.std.specs.Prelude.{◌≡◌, ◌≤◌, ◌-◌, ◌^◌, min};
ghost use Rattle.sx_kinds.specs.Ways as spec;
ghost use Rattle.sx_kinds.specs.declared.expressions.Expr.{size-Expr};
ghost use Rattle.sx_kinds.specs.declared.expressions.Expr.TheViews.{out-Expr};

use crate::expressions::{Deep, Expr, ExprForm};

/// Which first parts lie on the way down an expression.
#[derive(Clone, Copy, Debug, PartialEq, Eq)]
pub enum Way {
    /// all of them
    FirstParts,
    /// those that stand in the focus of the whole: it ends at a step, whose parts are predicates, and at what stands behind
    /// `//`
    OneFocus,
}

// Whether a way goes on from an expression to its first part.
fn goes_on(way: Way, e: &Expr) -> bool
    ensures { result ≡ spec.goes_on way (out-Expr e.now).form (out-Expr e.now).deep }
{
    match way {
        Way::FirstParts => true,
        Way::OneFocus => in_focus(&e.form, e.deep),
    }
}

// Whether the first part of an expression stands in its focus.
fn in_focus(form: &ExprForm, deep: Deep) -> bool
    ensures { result ≡ spec.in_focus form.now deep }
{
    match form {
        ExprForm::Step { .. } => false,
        _ => match deep {
            Deep::No => true,
            _ => false,
        },
    }
}

impl Expr {
    /// How many first parts lie below one another on the way down an expression: a chain of operators has as many as it is
    /// long. What follows such a chain goes up it from below, in a loop or by halves, with `below`, and never calls itself
    /// along it. No more than a `usize` counts.
    pub fn levels(&self, way: Way) -> usize
        ensures { result ≡ min (spec.levels way self.now) (2 ^ 64 - 1) }
    {
        let mut count: usize = 0;
        let mut e = self;
        while goes_on(way, e) {
            let Some(first) = e.parts.as_slice().first() else {
                return count;
            };
            count = count.saturating_add(1);
            e = first;
        }
        count
    }

    /// The expression so many first parts below this one, or the last one on that way.
    pub fn below(&self, way: Way, count: usize) -> &Expr
        ensures is { result.now ≡ spec.front way count self.now }
        ensures smaller { size-Expr result.now ≤ size-Expr self.now }
    {
        let mut e = self;
        let mut left = count;
        while left > 0 && goes_on(way, e) {
            let Some(first) = e.parts.as_slice().first() else {
                return e;
            };
            e = first;
            left -= 1;
        }
        e
    }
}
