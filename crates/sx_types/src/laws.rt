// What a caller relies on, said of the definitions.
ghost use Rattle.std.specs.Prelude.{◌≡◌, ℕ, Bool};
ghost use Rattle.sx_kinds.specs.Formed.{formed};
ghost use Rattle.sx_kinds.specs.Patterns.{IsSettledPattern, settled_pattern};
ghost use Rattle.sx_kinds.specs.Settled.{TypingPlace, bare, settled_expression};
ghost use Rattle.sx_kinds.specs.Types.{is_deep, typing};
ghost use Rattle.sx_kinds.specs.declared.expressions.Deep.{Deep};
ghost use Rattle.sx_kinds.specs.declared.expressions.Expr.{Expr};
ghost use Rattle.sx_kinds.specs.declared.expressions.Expr.TheOpen.{Expr-F};
ghost use Rattle.sx_kinds.specs.declared.expressions.Expr.TheViews.{roll-Expr};
ghost use Rattle.sx_kinds.specs.declared.expressions.Function.{Function};
ghost use Rattle.sx_kinds.specs.declared.expressions.Pattern.{Pattern};
ghost use Rattle.sx_kinds.specs.declared.types.Ty.{Ty};

/// What is settled in a place stays as it is when it is settled there again.
pub fn settled_again()
    ensures { (e : Expr) (here : TypingPlace)
        → settled_expression (settled_expression e here) here ≡ settled_expression e here }
{}

/// Settling changes nothing but the fields that it writes.
pub fn settled_keeps()
    ensures { (e : Expr) (here : TypingPlace) → bare (settled_expression e here) ≡ bare e }
{}

/// Settling takes no part away and puts none in.
pub fn settled_formed()
    ensures { (takes : Function → ℕ → Bool) (e : Expr) (here : TypingPlace)
        → formed takes (settled_expression e here) ≡ formed takes e }
{}

/// A pattern that is settled in a place stays as it is when it is settled there again.
pub fn pattern_again()
    ensures { (p : Pattern) (here : TypingPlace) → IsSettledPattern (settled_pattern p here) here }
{}

/// The type of an expression behind `//` does not depend on how that is read.
pub fn readings()
    ensures { (e : Expr-F Expr) (a b : Deep) (context : Ty) → is_deep a ≡ is_deep b
        → typing (roll-Expr (record e { deep = a })) context
        ≡ typing (roll-Expr (record e { deep = b })) context }
{}
