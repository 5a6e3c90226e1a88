// The types of expressions.
ghost use Rattle.std.specs.Prelude.{◌≡◌, ◌≤◌, Ok, drop, length};
ghost use Rattle.sx_kinds.specs.Types as spec;
ghost use Rattle.sx_kinds.specs.Ways.{front, levels};
ghost use Rattle.sx_kinds.specs.declared.walks.Way.TheVariants.{OneFocus};
ghost use Rattle.sx_types.specs.Firsts.{IsKnownTyping, known_front};

use crate::forms::{focus, known_by};
use crate::parts::{and_one, none};
use crate::paths::below;
use sx_atoms::Code;
use sx_kinds::{Expr, Parts, Ty, Typing, Way};

// What is known of parts whose first one may be known, and the parts behind those.
#[inline(never)]
fn begun<'a>(parts: &'a [Expr], first: Option<Typing>) -> (Parts, &'a [Expr])
    ensures known { result.0 ≡ spec.parts_of_typings (known_front first parts.entry.now) }
    ensures behind { result.1.now ≡ drop (length (known_front first parts.entry.now)) parts.entry.now }
{
    match (first, parts) {
        (Some(t), [_, behind @ ..]) => (and_one(&none(), &t), behind),
        _ => (none(), parts),
    }
}

// What is known of an expression in a context, where this may be known of its first part.
#[cycle(typing)]
fn level(e: &Expr, outer: &Ty, first: Option<Typing>) -> Result<Typing, Code>
    ensures { IsKnownTyping e.now outer.now first → result ≡ spec.typing e.now outer.now }
{
    let context = below(e.deep, outer);
    let (mut parts, behind) = begun(e.parts.as_slice(), first);
    for part in behind {
        let inner = focus(&e.form, &context, parts.first);
        let t = typing_of(part, &inner)?;
        parts = and_one(&parts, &t);
    }
    known_by(&e.form, e.deep, &context, &parts)
}

// What is known of an expression in a context, where this is known of what lies so many first parts below in its focus.
// Halving keeps the calls within one another few.
#[cycle(typing)]
fn rise(e: &Expr, outer: &Ty, n: usize, answer: Typing) -> Result<Typing, Code>
    requires { n ≤ levels OneFocus e.now }
    ensures { spec.typing (front OneFocus n e.now) outer.now ≡ Ok answer
        → result ≡ spec.typing e.now outer.now }
{
    if n == 0 {
        return Ok(answer);
    }
    if n == 1 {
        return level(e, outer, Some(answer));
    }
    let half = n / 2;
    let middle = e.below(Way::OneFocus, half);
    let known = rise(middle, outer, n - half, answer)?;
    rise(e, outer, half, known)
}

/// What is known of an expression in a context, its static type among it, or its first code in written order, that of an inner
/// construct before that of an outer one: XPTY0004 for atoms on the left of `/`, SXST0003 for steps or a union where the nodes
/// may be of several copied trees. Of a part it can be asked in the context that `focus` gives for it, from that of the whole
/// behind `//`, which `below` gives. It takes no memory.
#[cycle(typing)]
pub fn typing_of(e: &Expr, context: &Ty) -> Result<Typing, Code>
    ensures { result ≡ spec.typing e.now context.now }
{
    let n = e.levels(Way::OneFocus);
    let bottom = e.below(Way::OneFocus, n);
    let answer = level(bottom, context, None)?;
    rise(e, context, n, answer)
}

/// The static type of an expression in a context, or its first code, as `typing_of` has it.
pub fn type_of(e: &Expr, context: &Ty) -> Result<Ty, Code>
    ensures { result ≡ spec.type_of e.now context.now }
{
    let t = typing_of(e, context)?;
    Ok(t.ty)
}
