// Expressions of their parts.
ghost use Rattle.std.specs.Prelude.{◌≡◌, [], ◌∷◌, ◌++◌, reverse, IfOk};
ghost use Rattle.sx_parse.specs.Says as spec;
ghost use Rattle.sx_parse.specs.Wording.{meaning_of};

use crate::meanings::Wording;
use std::alloc::{AllocError, Global};
use sx_kinds::{Construct, ConstructKind, Deep, Expr, ExprForm, Exprs};

/// The same expressions, the last one first.
pub(crate) fn reversed(alloc: Global, mut exprs: Exprs) -> Result<Exprs, AllocError>
    ensures { IfOk result (λ es. es ≡ reverse exprs) }
{
    let mut back = Exprs::new(alloc);
    while let Some(expr) = exprs.pop() {
        back.push(expr)?;
    }
    Ok(back)
}

/// A list of one expression.
pub(crate) fn one(alloc: Global, a: Expr) -> Result<Exprs, AllocError>
    ensures { IfOk result (λ es. es ≡ a ∷ []) }
{
    let mut exprs = Exprs::new(alloc);
    exprs.push(a)?;
    Ok(exprs)
}

/// A list of two expressions.
pub(crate) fn two(alloc: Global, a: Expr, b: Expr) -> Result<Exprs, AllocError>
    ensures { IfOk result (λ es. es ≡ a ∷ b ∷ []) }
{
    let mut exprs = one(alloc, a)?;
    exprs.push(b)?;
    Ok(exprs)
}

/// An expression on a line, not numbered yet.
pub(crate) fn made(words: &Wording, kind: ConstructKind, form: ExprForm, parts: Exprs) -> Expr
    ensures { result ≡ spec.made (meaning_of words.now) kind form parts }
{
    Expr {
        construct: Construct {
            number: 0,
            line: words.line,
            kind,
        },
        deep: Deep::No,
        form,
        parts,
    }
}

/// An expression of two parts.
pub(crate) fn made_of_two(
    alloc: Global,
    words: &Wording,
    kind: ConstructKind,
    form: ExprForm,
    a: Expr,
    b: Expr,
) -> Result<Expr, AllocError>
    ensures { IfOk result (λ e. e ≡ spec.made (meaning_of words.now) kind form (a ∷ b ∷ [])) }
{
    Ok(made(words, kind, form, two(alloc, a, b)?))
}

/// An expression that stands behind `//`.
pub(crate) fn deepened(expr: Expr) -> Expr
    ensures { result ≡ spec.deepened expr }
{
    let (construct, _, form, parts) = expr.into_fields();
    Expr {
        construct,
        deep: Deep::Written,
        form,
        parts,
    }
}

/// An expression with one more predicate.
pub(crate) fn with_part(expr: Expr, part: Expr) -> Result<Expr, AllocError>
    ensures { IfOk result (λ e. e ≡ spec.with_part expr part) }
{
    let (construct, deep, form, mut parts) = expr.into_fields();
    parts.push(part)?;
    Ok(Expr {
        construct,
        deep,
        form,
        parts,
    })
}

/// Operands that commas join: one alone is itself.
pub(crate) fn whole(words: &Wording, mut operands: Exprs) -> Expr
    ensures { result ≡ spec.whole_expression (meaning_of words.now) operands }
{
    if operands.len() == 1 {
        if let Some(alone) = operands.pop() {
            return alone;
        }
    }
    made(words, ConstructKind::Comma, ExprForm::Comma, operands)
}

/// An expression of one part.
pub(crate) fn made_of_one(
    alloc: Global,
    words: &Wording,
    kind: ConstructKind,
    form: ExprForm,
    a: Expr,
) -> Result<Expr, AllocError>
    ensures { IfOk result (λ e. e ≡ spec.made (meaning_of words.now) kind form (a ∷ [])) }
{
    Ok(made(words, kind, form, one(alloc, a)?))
}

/// An expression without parts.
pub(crate) fn made_of_none(
    alloc: Global,
    words: &Wording,
    kind: ConstructKind,
    form: ExprForm,
) -> Expr
    ensures { result ≡ spec.made (meaning_of words.now) kind form [] }
{
    made(words, kind, form, Exprs::new(alloc))
}
