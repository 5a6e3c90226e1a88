// Comparison of atoms.
ghost use Rattle.std.specs.Prelude.{◌≡◌, ◌*ℤ◌, Ok, Err, MatchResult};
ghost use Rattle.std.specs.Ordering.{int_cmp};
ghost use Rattle.sx_atoms.specs.Comparison.{order_of, holds, value_of, read_beside, value_beside};
ghost use Rattle.sx_atoms.specs.Comparison.{comparison_of, seen_value};
ghost use Rattle.sx_atoms.specs.Numbers.{units, one_unit};

use crate::atoms::{Atom, Dec};
use crate::error_codes::Code;
use crate::lexical;
use crate::numbers::{Number, UNITS};
use std::cmp::Ordering;

/// An operator of comparison: `eq`, `ne`, `lt`, `le`, `gt`, `ge` of value comparisons (XPath 3.1, 3.7.1), and `=`, `!=`, `<`,
/// `<=`, `>`, `>=` of general ones (3.7.2).
#[derive(Clone, Copy, Debug, PartialEq, Eq)]
pub enum CmpOp {
    Eq,
    Ne,
    Lt,
    Le,
    Gt,
    Ge,
}

/// What is compared.
#[derive(Clone, Copy)]
pub enum Comparable<'a> {
    Quantity(Number),
    Text(&'a str),
    Truth(bool),
}

// An integer and a number of units: one that no decimal is as great as is beyond each decimal.
fn order_whole(n: i128, units: i128) -> Ordering
    ensures { result ≡ int_cmp (n *ℤ one_unit) units }
{
    match n.checked_mul(UNITS) {
        Some(whole) => whole.cmp(&units),
        None => n.cmp(&0),
    }
}

// The order of two numbers by their exact values.
fn order_numbers(x: Number, y: Number) -> Ordering
    ensures { result ≡ int_cmp (units x) (units y) }
{
    match (x, y) {
        (Number::Int(a), Number::Int(b)) => a.cmp(&b),
        (Number::Int(a), Number::Dec(b)) => order_whole(a, b.0),
        (Number::Dec(a), Number::Int(b)) => order_whole(b, a.0).reverse(),
        (Number::Dec(a), Number::Dec(b)) => a.0.cmp(&b.0),
    }
}

// The order of two values, which must be of one kind.
fn order(x: Comparable<'_>, y: Comparable<'_>) -> Result<Ordering, Code>
    ensures { result ≡ order_of (seen_value x.entry) (seen_value y.entry) }
{
    match (x, y) {
        (Comparable::Quantity(a), Comparable::Quantity(b)) => Ok(order_numbers(a, b)),
        (Comparable::Text(a), Comparable::Text(b)) => Ok(a.cmp(b)),
        (Comparable::Truth(a), Comparable::Truth(b)) => Ok(a.cmp(&b)),
        _ => Err(Code::Xpty0004),
    }
}

fn value(atom: &Atom) -> Comparable<'_>
    ensures { seen_value result ≡ value_of atom.now }
{
    match atom {
        Atom::Int(n) => Comparable::Quantity(Number::Int(*n)),
        Atom::Dec(d) => Comparable::Quantity(Number::Dec(*d)),
        Atom::Str(text) | Atom::Untyped(text) => Comparable::Text(text.as_str()),
        Atom::Bool(b) => Comparable::Truth(*b),
    }
}

// Text without a type, read as what stands beside it in a general comparison.
fn text_beside<'a>(text: &'a str, other: &Atom) -> Result<Comparable<'a>, Code>
    ensures { MatchResult result
        (λ x. read_beside text.now (value_of other.now) ≡ Ok (seen_value x))
        (λ e. read_beside text.now (value_of other.now) ≡ Err e) }
{
    match other {
        Atom::Int(_) | Atom::Dec(_) => {
            let units = lexical::decimal(text.as_bytes())?;
            Ok(Comparable::Quantity(Number::Dec(Dec(units))))
        }
        Atom::Str(_) | Atom::Untyped(_) => Ok(Comparable::Text(text)),
        Atom::Bool(_) => Ok(Comparable::Truth(lexical::truth(text.as_bytes())?)),
    }
}

// An operand of a comparison, general or not, beside the other one.
fn operand<'a>(general: bool, atom: &'a Atom, other: &Atom) -> Result<Comparable<'a>, Code>
    ensures { MatchResult result
        (λ x. value_beside general atom.now other.now ≡ Ok (seen_value x))
        (λ e. value_beside general atom.now other.now ≡ Err e) }
{
    match atom {
        Atom::Untyped(text) if general => text_beside(text.as_str(), other),
        _ => Ok(value(atom)),
    }
}

// Whether an operator holds of values in this order.
fn is_met(op: CmpOp, order: Ordering) -> bool
    ensures { result ≡ holds op order }
{
    match op {
        CmpOp::Eq => order.is_eq(),
        CmpOp::Ne => order.is_ne(),
        CmpOp::Lt => order.is_lt(),
        CmpOp::Le => order.is_le(),
        CmpOp::Gt => order.is_gt(),
        CmpOp::Ge => order.is_ge(),
    }
}

/// Whether an operator holds of two atoms. Numbers are compared by their exact values, texts by their characters, and false
/// comes before true; text without a type is text in a value comparison, and in a general one a decimal beside a number and
/// a truth value beside a truth value. XPTY0004 for other pairs, and the code of the cast in a general comparison.
pub fn compare(op: CmpOp, general: bool, a: &Atom, b: &Atom) -> Result<bool, Code>
    ensures { result ≡ comparison_of op general a.now b.now }
{
    let x = operand(general, a, b)?;
    let y = operand(general, b, a)?;
    Ok(is_met(op, order(x, y)?))
}
