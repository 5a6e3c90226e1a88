// What the definitions come to.
ghost use Rattle.std.specs.Prelude.{◌≡◌, ◌++◌, ◌<◌, ◌^◌, ℕ, Bool, true, false, List};
ghost use Rattle.std.specs.Prelude.{length, Some};
ghost use Rattle.sx_atoms.specs.declared.error_codes.Code.{Code};
ghost use Rattle.sx_lines.specs.declared.events.Built.{Built};
ghost use Rattle.sx_build.specs.Asked.{Asked};
ghost use Rattle.sx_build.specs.Build.{Build, error_of};
ghost use Rattle.sx_build.specs.FixUp.{free_prefix, is_text_among};

/// What is asked for later only adds to what is built, and after an error nothing is added.
pub fn growth()
    ensures adds { (asked more : List Asked) (at_end : Bool)
        → (rest : List Built) × (Build (asked ++ more) at_end ≡ Build asked false ++ rest) }
    ensures stays { (asked more : List Asked) (c : Code) → error_of asked ≡ Some c
        → error_of (asked ++ more) ≡ Some c }
    ensures stops { (asked more : List Asked) (at_end : Bool) (c : Code) → error_of asked ≡ Some c
        → Build (asked ++ more) at_end ≡ Build asked false }
{}

/// A numbered prefix that is given to an attribute is none that is bound or used.
pub fn fresh()
    ensures { (taken : List (List ℕ)) → length taken < 10 ^ 64
        → is_text_among taken (free_prefix taken) ≡ false }
{}
