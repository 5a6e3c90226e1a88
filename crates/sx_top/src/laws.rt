// What the definitions come to.
ghost use Rattle.std.specs.Prelude.{◌≡◌, ◌≢◌, ◌≤◌, ℕ, Bool, List, Some, None};
ghost use Rattle.sx_atoms.specs.declared.error_codes.Code.{Code};
ghost use Rattle.sx_atoms.specs.declared.error_codes.Code.TheVariants.{Sxli0001};
ghost use Rattle.sx_reading.specs.declared.consumer.Outcome.TheVariants as outcome;
ghost use Rattle.sx_desk.specs.Desk.{Seen};
ghost use Rattle.sx_limits.specs.declared.limits.Limits.{Limits as Bounds};
ghost use Rattle.sx_kinds.specs.declared.sheets.Sheet.{Sheet as Stylesheet};
ghost use Rattle.sx_machine.specs.Body.{culprit};
ghost use Rattle.sx_reading.specs.Transforming.{Grows};
ghost use Rattle.sx_reading.specs.declared.status.Status.{Status};
ghost use Rattle.sx_reading.specs.declared.status.Status.TheVariants as status;
ghost use Rattle.sx_top.specs.Commands.{Does};
ghost use Rattle.sx_top.specs.Run.{run_written, run_outcome};
ghost use Rattle.sx_top.specs.Words.{copies};
ghost use Rattle.sx_names.specs.Numbering.{NameTable};

/// More bytes of a document only add to what a stylesheet that can be streamed writes for it.
pub fn growth()
    ensures { (sheet : Stylesheet) → culprit sheet.templates ≡ None
        → (names : NameTable) (limits : Bounds) → Grows (run_written sheet names limits) }
{}

/// A copy never answers an error in a stylesheet: it reads none.
pub fn copy_is_never_static()
    ensures { (document : List ℕ) (old new : Seen) (s : Status) → Does (copies document) old new s
        → (code : Code) (line : ℕ) → s ≢ status.Static code line }
{}

/// Where 202 invocations of templates may be open at once, no document opens more: at most 200 of its elements stand in one
/// another, each takes one, and so do the document node and the attributes of the innermost element.
pub fn enough_invocations()
    ensures { (sheet : Stylesheet) (names : NameTable) (limits : Bounds) (b : List ℕ) (ended : Bool)
        → 202 ≤ limits.invocations
        → run_outcome sheet names limits b ended ≢ Some (outcome.Dynamic Sxli0001) }
{}
