// What a caller relies on, said of the definitions.
ghost use Rattle.std.specs.Prelude.{◌≡◌, ℕ, ◌+◌, List, [], ◌∷◌, ◌++◌, length, true, Ok};
ghost use Rattle.std.specs.Str.{chars, IsUtf8};
ghost use Rattle.sx_atoms.specs.declared.functions.TextFn.TheVariants as fn_of;
ghost use Rattle.sx_fn_text.specs.Calls.{text_call, truth};
ghost use Rattle.sx_fn_text.specs.Laws.{text, integer};

/// A text that is put together is as long as its parts.
pub fn lengths()
    ensures { (s t u : List ℕ) → IsUtf8 s → IsUtf8 t
        → text_call fn_of.Concat (text s ∷ text t ∷ []) ≡ Ok (text u)
        → text_call fn_of.StringLength (text u ∷ [])
        ≡ Ok (integer (length (chars s) + length (chars t))) }
{}

/// What stands before the first place of a text, that text and what stands behind it are the whole.
pub fn parts()
    ensures { (s t b a : List ℕ) → IsUtf8 s → IsUtf8 t
        → text_call fn_of.Contains (text s ∷ text t ∷ []) ≡ Ok (truth true)
        → text_call fn_of.SubstringBefore (text s ∷ text t ∷ []) ≡ Ok (text b)
        → text_call fn_of.SubstringAfter (text s ∷ text t ∷ []) ≡ Ok (text a)
        → b ++ (t ++ a) ≡ s }
{}

/// The characters from the first one on are the text.
pub fn whole()
    ensures { (s : List ℕ) → IsUtf8 s
        → text_call fn_of.Substring (text s ∷ integer 1 ∷ []) ≡ Ok (text s) }
{}

/// A text that is translated by two equal texts stays as it is.
pub fn unchanged()
    ensures { (s m : List ℕ) → IsUtf8 s
        → text_call fn_of.Translate (text s ∷ text m ∷ text m ∷ []) ≡ Ok (text s) }
{}
