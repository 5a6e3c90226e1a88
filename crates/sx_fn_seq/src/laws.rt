// What a caller relies on, said of the definitions.
ghost use Rattle.std.specs.Prelude.{◌≡◌, ◌⊎◌, false, [], ◌∷◌, ◌++◌, Ok, List, All};
ghost use Rattle.std.specs.Prelude.{AllPairs, Contains};
ghost use Rattle.sx_atoms.specs.declared.atoms.Atom.{Atom as AnyAtom};
ghost use Rattle.sx_atoms.specs.declared.comparison.CmpOp.{CmpOp as Operator};
ghost use Rattle.sx_atoms.specs.declared.comparison.CmpOp.TheVariants as op;
ghost use Rattle.sx_atoms.specs.declared.functions.SeqFn.TheVariants as fn_named;
ghost use Rattle.sx_fn_seq.specs.Calls.{seq_call};
ghost use Rattle.sx_fn_seq.specs.Distinct.{are_equal, distinct_of};
ghost use Rattle.sx_fn_seq.specs.Extremes.{is_text_atom, all_compared, extreme_of};
ghost use Rattle.sx_fn_seq.specs.Order.{stands};
ghost use Rattle.sx_fn_seq.specs.Sums.{sum_from, sum_after};

/// The sum of two sequences behind one another is that of the second one, begun with the sum of the first.
pub fn sums()
    ensures { (start : AnyAtom) (xs ys : List AnyAtom)
        → sum_from start (xs ++ ys) ≡ sum_after (sum_from start xs) ys }
{}

/// Where there is an item and none fails, the least and the greatest are one of the items as they are compared, and no item
/// is less, or greater.
pub fn extremes()
    ensures one { (o : Operator) → (o ≡ op.Lt) ⊎ (o ≡ op.Gt)
        → (item : AnyAtom) (rest answer : List AnyAtom) → extreme_of o (item ∷ rest) ≡ Ok answer
        → (m : AnyAtom) × (answer ≡ m ∷ []) }
    ensures among { (o : Operator) (item m : AnyAtom) (rest xs : List AnyAtom)
        → extreme_of o (item ∷ rest) ≡ Ok (m ∷ [])
        → all_compared (is_text_atom item) (item ∷ rest) ≡ Ok xs → Contains xs m }
    ensures unbeaten { (o : Operator) (item m : AnyAtom) (rest xs : List AnyAtom)
        → extreme_of o (item ∷ rest) ≡ Ok (m ∷ [])
        → all_compared (is_text_atom item) (item ∷ rest) ≡ Ok xs
        → All (λ x. stands o x m ≡ false) xs }
{}

/// What is turned twice stands as before, and the head and the tail together are the sequence.
pub fn parts()
    ensures turned { (x y : List AnyAtom)
        → seq_call fn_named.Reverse (x ∷ []) ≡ Ok y → seq_call fn_named.Reverse (y ∷ []) ≡ Ok x }
    ensures together { (x head tail : List AnyAtom)
        → seq_call fn_named.Head (x ∷ []) ≡ Ok head → seq_call fn_named.Tail (x ∷ []) ≡ Ok tail
        → head ++ tail ≡ x }
{}

/// Of distinct values no two are equal, and they are their own distinct values.
pub fn distinct_values()
    ensures apart { (xs : List AnyAtom) → AllPairs (λ x y. are_equal x y ≡ false) (distinct_of xs) }
    ensures settled { (xs : List AnyAtom) → distinct_of (distinct_of xs) ≡ distinct_of xs }
{}
