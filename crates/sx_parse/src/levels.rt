// The levels of the rules of the grammar (XPath 3.1, A.1).
ghost use Rattle.std.specs.Prelude.{◌≡◌, ◌<◌, suc};
ghost use Rattle.sx_parse.specs.Grammar as grammar;

use crate::lexemes::{Casting, Operator};
use sx_kinds::ArithOp;

/// The level of the rule that has the operator.
pub(crate) fn level(operator: Operator) -> u8
    ensures level { result ≡ grammar.level operator }
    ensures small { result < 16 }
{
    match operator {
        Operator::Or => 2,
        Operator::And => 3,
        Operator::Compare { op: _, general: _ } => 4,
        Operator::Concat => 5,
        Operator::Range => 6,
        Operator::Arith(ArithOp::Add | ArithOp::Sub) => 7,
        Operator::Arith(_) => 8,
        Operator::Union => 9,
        Operator::Map => 13,
        Operator::Slash | Operator::DoubleSlash => 15,
    }
}

/// The level of what stands to its left: its own where the rule repeats, else the next.
pub(crate) fn left_level(operator: Operator) -> u8
    ensures { result ≡ grammar.left_level operator }
{
    match operator {
        Operator::Compare { op: _, general: _ } => 5,
        Operator::Range => 7,
        _ => level(operator),
    }
}

/// The levels of the rules with a type to the right.
pub(crate) fn casting_level(casting: Casting) -> u8
    ensures { result ≡ grammar.casting_level casting }
{
    match casting {
        Casting::Castable => 10,
        Casting::Cast => 11,
    }
}

/// The level of the operand before such a word.
pub(crate) fn cast_operand_level(casting: Casting) -> u8
    ensures { result ≡ suc (grammar.casting_level casting) }
{
    match casting {
        Casting::Castable => 11,
        Casting::Cast => 12,
    }
}

/// The level of what a sign, `/` or `//` makes of the operand behind it.
pub(crate) fn prefix_level(operator: Operator) -> u8
    ensures { result ≡ grammar.prefix_level operator }
{
    match operator {
        Operator::Slash | Operator::DoubleSlash => 15,
        _ => 12,
    }
}

/// The level of the operand behind a sign, `/` or `//`.
pub(crate) fn prefix_floor(operator: Operator) -> u8
    ensures { result ≡ grammar.prefix_floor operator }
{
    match operator {
        Operator::Slash | Operator::DoubleSlash => 16,
        _ => 12,
    }
}
