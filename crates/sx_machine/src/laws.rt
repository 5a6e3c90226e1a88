// What the definitions come to.
ghost use Rattle.std.specs.Prelude.{◌≡◌, ◌++◌, ℕ, List, None};
ghost use Rattle.sx_kinds.specs.declared.sheets.Sheet.{Sheet as Stylesheet};
ghost use Rattle.sx_machine.specs.Body.{culprit};
ghost use Rattle.sx_machine.specs.Growth.{MayAllCome, IsGrown};
ghost use Rattle.sx_machine.specs.Meaning.{result_for};
ghost use Rattle.sx_named.specs.Named.{NamedElement};
ghost use Rattle.sx_tree.specs.Tree.{TreeEvent};
ghost use Rattle.sx_names.specs.Numbering.{NameTable};

/// More of a document only adds to the result of a stylesheet that can be streamed, and an end other than a wait is final.
pub fn growth()
    ensures { (sheet : Stylesheet) → culprit sheet.templates ≡ None
        → (names : NameTable) (invocations : ℕ) (p more : List (TreeEvent NamedElement))
        → MayAllCome p more
        → IsGrown (result_for sheet names invocations p) (result_for sheet names invocations (p ++ more)) }
{}
