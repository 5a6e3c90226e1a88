// What a caller relies on, said of the definitions.
ghost use Rattle.std.specs.Prelude.{◌≡◌, true, Bool, Ok, ℕ, List, ℤ, pos, neg_ℤ, ◌+ℤ◌};
ghost use Rattle.std.specs.Prelude.{◌-ℤ◌, ◌*ℤ◌, ◌<ℤ◌, ◌≤ℤ◌};
ghost use Rattle.std.specs.Cmp.{IsTotalOrder};
ghost use Rattle.std.specs.Cmp.Lexicographic.{slice_cmp};
ghost use Rattle.std.specs.Ordering.{nat_cmp};
ghost use Rattle.std.specs.Str.{encode_utf8_all};
ghost use Rattle.sx_atoms.specs.Arithmetic.{with_operands, with_divisor, sum_of, product_of, quotient_of};
ghost use Rattle.sx_atoms.specs.Arithmetic.{whole_quotient_of, remainder_of, dec};
ghost use Rattle.sx_atoms.specs.Casting.{cast_of};
ghost use Rattle.sx_atoms.specs.Comparison.{comparison_of, holds};
ghost use Rattle.sx_atoms.specs.Laws.{atom_of, number_type, exact_content, order_of_numbers, IsQuotient};
ghost use Rattle.sx_atoms.specs.Numbers.{fits, units, one_unit};
ghost use Rattle.sx_atoms.specs.Positions.{floor_of, ceiling_of, rounded};
ghost use Rattle.sx_atoms.specs.Printing.{text_of};
ghost use Rattle.sx_atoms.specs.declared.atoms.Atom.{Atom as AnyAtom};
ghost use Rattle.sx_atoms.specs.declared.comparison.CmpOp.{CmpOp as Operator};
ghost use Rattle.sx_atoms.specs.declared.numbers.Number.{Number as AnyNumber};

use crate::atoms::Atom;

/// Numbers are compared by their exact values, in value comparisons and in general ones, and so they have a total order.
pub fn order()
    ensures by_value { (op : Operator) (general : Bool) (x y : AnyNumber)
        → comparison_of op general (atom_of x) (atom_of y) ≡ Ok (holds op (order_of_numbers x y)) }
    ensures total { IsTotalOrder order_of_numbers }
{}

/// The order of texts by their bytes is that by their characters.
pub fn text_order()
    ensures { (s t : List ℕ)
        → slice_cmp nat_cmp (encode_utf8_all s) (encode_utf8_all t) ≡ slice_cmp nat_cmp s t }
{}

/// What is printed of a number casts back to it, also as text without a type.
pub fn printing()
    ensures text { (x : AnyNumber) → fits (exact_content x) ≡ true
        → cast_of (Atom.Str (text_of (atom_of x))) (number_type x) ≡ Ok (atom_of x) }
    ensures untyped { (x : AnyNumber) → fits (exact_content x) ≡ true
        → cast_of (Atom.Untyped (text_of (atom_of x))) (number_type x) ≡ Ok (atom_of x) }
{}

/// The order of summands makes no difference; nor does it which sum is made first, where both sums of all three are held.
pub fn addition()
    ensures commutative { (a b s : AnyAtom)
        → with_operands sum_of a b ≡ Ok s → with_operands sum_of b a ≡ Ok s }
    ensures associative { (a b c s t u v : AnyAtom)
        → with_operands sum_of a b ≡ Ok s → with_operands sum_of b c ≡ Ok t
        → with_operands sum_of s c ≡ Ok u → with_operands sum_of a t ≡ Ok v → u ≡ v }
{}

/// The whole quotient and the remainder are those of the division that cuts toward zero, so that the quotient times the
/// divisor and the remainder give the dividend again; a decimal quotient and a product of decimals are cut alike.
pub fn division()
    ensures whole { (x y r : AnyNumber) (q : ℤ)
        → with_divisor whole_quotient_of (atom_of x) (atom_of y) ≡ Ok (Atom.Int q)
        → with_divisor remainder_of (atom_of x) (atom_of y) ≡ Ok (atom_of r)
        → IsQuotient (units x) (units y) q (units r) }
    ensures restored { (x y r p s : AnyNumber) (q : ℤ)
        → with_divisor whole_quotient_of (atom_of x) (atom_of y) ≡ Ok (Atom.Int q)
        → with_divisor remainder_of (atom_of x) (atom_of y) ≡ Ok (atom_of r)
        → with_operands product_of (Atom.Int q) (atom_of y) ≡ Ok (atom_of p)
        → with_operands sum_of (atom_of p) (atom_of r) ≡ Ok (atom_of s) → units s ≡ units x }
    ensures quotient { (x y : AnyNumber) (d : ℤ)
        → with_divisor quotient_of (atom_of x) (atom_of y) ≡ Ok (Atom.Dec (dec d))
        → (r : ℤ) × IsQuotient (units x *ℤ one_unit) (units y) d r }
    ensures product { (d e p : ℤ)
        → with_operands product_of (Atom.Dec (dec d)) (Atom.Dec (dec e)) ≡ Ok (Atom.Dec (dec p))
        → (r : ℤ) × IsQuotient (d *ℤ e) one_unit p r }
{}

/// The nearest integer is no more than half of one away, and half of one only upward; the integer below a number is less than
/// one away; and the one above is minus that below minus the number.
pub fn rounding()
    ensures nearest_above { (x : AnyNumber)
        → ((pos 2 *ℤ units x) -ℤ one_unit) <ℤ ((pos 2 *ℤ rounded x) *ℤ one_unit) }
    ensures nearest_below { (x : AnyNumber)
        → ((pos 2 *ℤ rounded x) *ℤ one_unit) ≤ℤ ((pos 2 *ℤ units x) +ℤ one_unit) }
    ensures floor_below { (x : AnyNumber) → (floor_of x *ℤ one_unit) ≤ℤ units x }
    ensures floor_above { (x : AnyNumber) → units x <ℤ ((floor_of x +ℤ pos 1) *ℤ one_unit) }
    ensures ceiling { (x y : AnyNumber) → units y ≡ neg_ℤ (units x)
        → ceiling_of x ≡ neg_ℤ (floor_of y) }
{}
