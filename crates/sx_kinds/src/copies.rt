// Copies of expressions. A chain of operators is as deep as it is long, all along first parts. So a copy begins at the end of
// these, and goes up by halves: it calls itself no deeper than there are other parts in one another, and a few levels more for
// each of them.
ghost use Rattle.std.specs.Prelude.{◌≡◌, IfOk, IfSome};
ghost use Rattle.sx_kinds.specs.Ways.{front};
ghost use Rattle.sx_kinds.specs.declared.walks.Way.TheVariants as way;

use crate::expressions::{Expr, ExprForm, Exprs};
use crate::walks::Way;
use std::alloc::{AllocError, Global};

// A copy of an expression, by that of its first part where there is one already.
#[cycle(copying_expressions)]
fn copy_level(alloc: Global, e: &Expr, first: Option<Expr>) -> Result<Expr, AllocError>
    ensures { IfSome first (λ made. made ≡ front way.FirstParts 1 e.now)
        → IfOk result (λ copy. copy ≡ e.now) }
{
    let mut first = first;
    let mut parts = Exprs::new(alloc);
    for part in e.parts.as_slice() {
        match first.take() {
            Some(made) => parts.push(made)?,
            None => parts.push(Expr::copy(alloc, part)?)?,
        }
    }
    Ok(Expr {
        construct: e.construct,
        deep: e.deep,
        form: ExprForm::copy(alloc, &e.form)?,
        parts,
    })
}

// A copy of an expression, by that of the one so many first parts below it.
#[cycle(copying_expressions)]
fn copy_up(alloc: Global, e: &Expr, count: usize, made: Expr) -> Result<Expr, AllocError>
    ensures { made ≡ front way.FirstParts count e.now → IfOk result (λ copy. copy ≡ e.now) }
{
    if count == 0 {
        return Ok(made);
    }
    if count == 1 {
        return copy_level(alloc, e, Some(made));
    }
    let half = count / 2;
    let middle = e.below(Way::FirstParts, half);
    let made = copy_up(alloc, middle, count - half, made)?;
    copy_up(alloc, e, half, made)
}

impl Expr {
    /// A copy of an expression.
    #[cycle(copying_expressions)]
    pub fn copy(alloc: Global, e: &Expr) -> Result<Expr, AllocError>
        ensures { IfOk result (λ copy. copy ≡ e.now) }
    {
        let count = e.levels(Way::FirstParts);
        let last = copy_level(alloc, e.below(Way::FirstParts, count), None)?;
        copy_up(alloc, e, count, last)
    }
}
