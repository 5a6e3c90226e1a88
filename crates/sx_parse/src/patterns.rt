// Patterns.
ghost use Rattle.std.specs.Prelude.{◌≡◌, ℕ, ◌<◌, ◌≤◌, ◌+◌, ◌*◌, ◌^◌, true};
ghost use Rattle.std.specs.Prelude.{length, IfOk, IfErr, OnErr, OnOk};
ghost use Rattle.sx_kinds.specs.Formed.{AreFormed};
ghost use Rattle.sx_names.specs.Numbering.{KeepsPlaces};
ghost use Rattle.sx_parse.specs.Checks.{takes_arguments};
ghost use Rattle.sx_parse.specs.Parsed.{AnswersPattern, IsPatternOf};
ghost use Rattle.sx_parse.specs.Understanding.{IsUnderstood};
ghost use Rattle.sx_kinds.specs.declared.expressions.Expr.TheViews.{out-Expr};
ghost use Rattle.sx_parse.specs.Grammar.{Fits, Tree};
ghost use Rattle.sx_parse.specs.Says as spec;
ghost use Rattle.sx_parse.specs.Says.{Meaning};
ghost use Rattle.sx_parse.specs.Unions.{is_union};

use crate::expressions::{is_too_long, said, too_long};
use crate::faults::{Numbering, SyntaxFault};
use crate::forms::reversed;
use crate::numbering::number_parts;
use crate::parsing::{Understood, understand};
use std::alloc::{AllocError, Global};
use sx_kinds::{Construct, ConstructKind, Expr, ExprForm, Exprs, Pattern};
use sx_names::{Names, Scope};

fn is_a_union(form: &ExprForm) -> bool
    ensures { result ≡ is_union form.now }
{
    matches!(form, ExprForm::Union)
}

fn parts_of(expr: Expr) -> Exprs
    ensures { result ≡ (out-Expr expr).parts }
{
    let (_, _, _, parts) = expr.into_fields();
    parts
}

/// The alternatives of a pattern, which `|` joins in its expression (XSLT 3.0, 5.5.2).
pub(crate) fn alternatives(alloc: Global, expr: Expr) -> Result<Exprs, AllocError>
    ensures { IfOk result
        (λ es. (m : Meaning) (n : ℕ) (t : Tree) → Fits true n t → expr ≡ spec.says m t → es
        ≡ spec.alternatives m t) }
{
    let mut front = expr;
    // the alternatives behind the front, the last one first
    let mut behind = Exprs::new(alloc);
    while is_a_union(&front.form) {
        let mut parts = parts_of(front);
        let Some(last) = parts.pop() else {
            return Ok(parts);
        };
        let Some(first) = parts.pop() else {
            return Ok(parts);
        };
        behind.push(last)?;
        front = first;
    }
    behind.push(front)?;
    reversed(alloc, behind)
}

/// The pattern of a text that was read.
fn pattern(
    alloc: Global,
    scope: &Scope,
    names: &mut Names,
    text: &str,
    understood: &Understood,
    at: &mut Numbering,
) -> Result<Pattern, AllocError>
    requires understood { IsUnderstood true scope.now text.now
        understood.now.tokens understood.now.nodes understood.now.roles }
    requires short { length text.now ≤ 4096 }
    requires room { at.old.next < 2 ^ 63 }
    ensures says { IfOk result (IsPatternOf scope.now text.now names.old names.new at.old at.new) }
    ensures formed { IfOk result (λ q. AreFormed takes_arguments q.alternatives) }
    ensures grows { OnOk result (at.new.next ≤ at.old.next + 2 * length text.now) }
    ensures failed { OnErr result (at.new ≡ at.old) }
    ensures line { at.new.line ≡ at.old.line }
    ensures kept { KeepsPlaces names.old names.new }
{
    let expr = said(alloc, scope, names, text, understood, at.line)?;
    let alternatives = alternatives(alloc, expr)?;
    let construct = Construct {
        number: at.next,
        line: at.line,
        kind: ConstructKind::Pattern,
    };
    let mut behind = Numbering {
        next: at.next + 1,
        line: at.line,
    };
    let alternatives = number_parts(alloc, alternatives, true, &mut behind)?;
    *at = behind;
    Ok(Pattern {
        construct,
        alternatives,
    })
}

/// Reads a pattern (XSLT 3.0, 5.5.2) of at most 4,096 bytes: paths on the child and attribute axes, joined by `|`, or `/` alone.
/// It is numbered `at.next`, its own steps are not numbered, and the constructs in its predicates have the next numbers. It is
/// refused as an expression is, but that a fault of grammar outside predicates is `XTSE0340`, and so is a call of `current`. After an
/// `AllocError` no number is used up, names may have been added, and each number that was given keeps its name.
pub fn parse_pattern(
    alloc: Global,
    s: &str,
    scope: &Scope,
    names: &mut Names,
    at: &mut Numbering,
) -> Result<Result<Pattern, SyntaxFault>, AllocError>
    requires { at.old.next < 2 ^ 62 }
    ensures exactly { IfOk result (AnswersPattern scope.now s.now names.old names.new at.old at.new) }
    ensures formed { IfOk result (λ r. IfOk r (λ q. AreFormed takes_arguments q.alternatives)) }
    ensures grows { OnOk result (at.new.next ≤ at.old.next + 2 * length s.now) }
    ensures refused { IfOk result (λ r. IfErr r (λ fault. (at.new ≡ at.old)
        × (names.new ≡ names.old))) }
    ensures failed { OnErr result (at.new ≡ at.old) }
    ensures line { at.new.line ≡ at.old.line }
    ensures kept { KeepsPlaces names.old names.new }
{
    if is_too_long(s) {
        return Ok(Err(too_long()));
    }
    match understand(alloc, true, scope, s)? {
        Err(fault) => Ok(Err(fault)),
        Ok(understood) => Ok(Ok(pattern(alloc, scope, names, s, &understood, at)?)),
    }
}
