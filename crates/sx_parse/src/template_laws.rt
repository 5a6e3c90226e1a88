// What a caller relies on, said of the definitions of value templates.
ghost use Rattle.std.specs.Prelude.{◌≡◌, ℕ, List};
ghost use Rattle.sx_parse.specs.Templates.{Breaks, EndsText, IsCutInPieces, Piece};
ghost use Rattle.sx_parse.specs.declared.faults.SyntaxFault.{SyntaxFault as AnyFault};

/// A value template has one list of pieces, up to its end or to the brace that nothing matches, which is one fault and at which it
/// does not end.
pub fn one_template()
    ensures pieces { (text rest more : List ℕ) (ps qs : List Piece) → IsCutInPieces text ps rest
        → IsCutInPieces text qs more
        → (ps ≡ qs) × (rest ≡ more) }
    ensures either { (offset : ℕ) (rest : List ℕ) (fault : AnyFault) → EndsText rest
        → Breaks offset rest fault
        → ⊥ }
    ensures fault { (offset : ℕ) (rest : List ℕ) (a b : AnyFault) → Breaks offset rest a
        → Breaks offset rest b → a ≡ b }
{}
