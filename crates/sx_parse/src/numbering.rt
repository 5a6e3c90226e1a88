// The numbers of constructs.
ghost use Rattle.std.specs.Prelude.{◌≡◌, suc, false, ◌+◌, ◌<◌, ◌^◌, map, IfOk, OnErr, OnOk};
ghost use Rattle.sx_parse.specs.Numbered.{construct_count, counts, in_order, is_path, numbered, numbers_in};
ghost use Rattle.sx_parse.specs.Raised.{left_of, level_with_parts, whole_level, levels_behind};

use crate::faults::Numbering;
use crate::forms::reversed;
use sqlite_items::Items;
use std::alloc::{AllocError, Global};
use sx_kinds::{Construct, Deep, Expr, ExprForm, Exprs};

// An expression that has its number; its parts get theirs one by one.
#[derive(Drop)]
struct Level {
    construct: Construct,
    deep: Deep,
    form: ExprForm,
    // the parts that are numbered
    done: Exprs,
    // the parts that are not numbered yet, the last one first
    left: Exprs,
    // whether the parts are parts of a pattern, outside predicates
    outside: bool,
}

/// An expression whose constructs are numbered in document order: its own first, then those of its parts. No number is used up
/// where the memory does not suffice.
pub(crate) fn number(alloc: Global, expr: Expr, at: &mut Numbering) -> Result<Expr, AllocError>
    requires { at.old.next + construct_count expr < 2 ^ 64 }
    ensures expr { IfOk result (λ e. e ≡ numbered at.old.next expr) }
    ensures next { OnOk result (at.new.next ≡ at.old.next + construct_count expr) }
    ensures failed { OnErr result (at.new ≡ at.old) }
    ensures line { at.new.line ≡ at.old.line }
{
    let mut behind = *at;
    let numbered = number_in(alloc, expr, false, &mut behind)?;
    *at = behind;
    Ok(numbered)
}

fn is_a_path(form: &ExprForm) -> bool
    ensures { result ≡ is_path form.now }
{
    matches!(form, ExprForm::Path { .. })
}

// The level of an expression: its own number is given, and none of its parts has one.
fn opened(alloc: Global, expr: Expr, outside: bool, at: &mut Numbering) -> Result<Level, AllocError>
    requires { at.old.next + (numbers_in expr outside).count < 2 ^ 64 }
    ensures expr { IfOk result (λ l. whole_level l at.new.next
        ≡ (numbers_in expr outside).from at.old.next) }
    ensures next { IfOk result (λ l. levels_behind l at.new.next
        ≡ at.old.next + (numbers_in expr outside).count) }
    ensures size { IfOk result (λ l. construct_count expr ≡ suc (counts false (left_of l))) }
    ensures line { at.new.line ≡ at.old.line }
{
    let (construct, deep, form, parts) = expr.into_fields();
    let left = reversed(alloc, parts)?;
    let done = Exprs::new(alloc);
    if outside {
        let outside = is_a_path(&form);
        return Ok(Level {
            construct,
            deep,
            form,
            done,
            left,
            outside,
        });
    }
    let construct = Construct {
        number: at.next,
        ..construct
    };
    at.next += 1;
    Ok(Level {
        construct,
        deep,
        form,
        done,
        left,
        outside,
    })
}

// The expression of a level whose parts are all numbered.
fn closed(level: Level) -> Expr
    ensures { result ≡ level_with_parts level level.done }
{
    let Level {
        construct,
        deep,
        form,
        done,
        ..
    } = level;
    Expr {
        construct,
        deep,
        form,
        parts: done,
    }
}

// An expression; outside predicates, where it is a part of a pattern there. A chain of operators is as deep as it is long, so the
// levels lie in a list and not on the stack.
fn number_in(
    alloc: Global,
    expr: Expr,
    outside: bool,
    at: &mut Numbering,
) -> Result<Expr, AllocError>
    requires { at.old.next + (numbers_in expr outside).count < 2 ^ 64 }
    ensures expr { IfOk result (λ e. e ≡ (numbers_in expr outside).from at.old.next) }
    ensures next { OnOk result (at.new.next ≡ at.old.next + (numbers_in expr outside).count) }
    ensures line { at.new.line ≡ at.old.line }
{
    let mut levels = Items::new(alloc);
    let mut level = opened(alloc, expr, outside, at)?;
    loop {
        if let Some(part) = level.left.pop() {
            let outside = level.outside;
            levels.push(level)?;
            level = opened(alloc, part, outside, at)?;
            continue;
        }
        let made = closed(level);
        let Some(outer) = levels.pop() else {
            return Ok(made);
        };
        level = outer;
        level.done.push(made)?;
    }
}

pub(crate) fn number_parts(
    alloc: Global,
    parts: Exprs,
    outside: bool,
    at: &mut Numbering,
) -> Result<Exprs, AllocError>
    requires { at.old.next + counts outside (map numbers_in parts) < 2 ^ 64 }
    ensures exprs { IfOk result (λ es. es ≡ in_order outside at.old.next (map numbers_in parts)) }
    ensures next { OnOk result (at.new.next ≡ at.old.next + counts outside (map numbers_in parts)) }
    ensures line { at.new.line ≡ at.old.line }
{
    let mut left = reversed(alloc, parts)?;
    let mut done = Exprs::new(alloc);
    while let Some(part) = left.pop() {
        done.push(number_in(alloc, part, outside, at)?)?;
    }
    Ok(done)
}
