// What the definitions come to.
ghost use Rattle.std.specs.Prelude.{◌≡◌, ◌≢◌, ◌<◌, ℕ, Bool, true, false, List, [], length};
ghost use Rattle.std.specs.Prelude.{Some, None};
ghost use Rattle.sx_tree.specs.Tree.{has_open};
ghost use Rattle.sx_events.specs.Course.{break_of};
ghost use Rattle.sx_events.specs.Laws.{AllFollow, EventsGrow, StaysBroken, document_tree, tree_events_of};
ghost use Rattle.sx_limits.specs.declared.faults.DocFault.{DocFault};
ghost use Rattle.sx_limits.specs.declared.limits.Limits.{Limits};

/// More bytes only add events, and where bytes are broken off more bytes change nothing.
pub fn growth()
    ensures grows { (limits : Limits) (b d : List ℕ) (ended : Bool) → EventsGrow limits b d ended }
    ensures broken { (limits : Limits) (b d : List ℕ) (ended : Bool) (fault : DocFault)
        → break_of limits b false ≡ Some fault → StaysBroken limits b d ended fault }
{}

/// Each event may follow those before it.
pub fn follow()
    ensures { (limits : Limits) (b : List ℕ) (ended : Bool)
        → AllFollow [] (tree_events_of limits b ended) }
{}

/// The tree of the events is closed where the bytes have ended and are not broken off, and else it is open. More bytes
/// than the limit are broken off.
pub fn ending()
    ensures closed { (limits : Limits) (b : List ℕ) → break_of limits b true ≡ None
        → (document_tree limits b true).is_open ≡ false }
    ensures ended { (limits : Limits) (b : List ℕ) → break_of limits b true ≡ None
        → has_open (document_tree limits b true).content ≡ false }
    ensures going { (limits : Limits) (b : List ℕ) → (document_tree limits b false).is_open ≡ true }
    ensures broken { (limits : Limits) (b : List ℕ) (ended : Bool) → break_of limits b ended ≢ None
        → (document_tree limits b ended).is_open ≡ true }
    ensures bytes { (limits : Limits) (b : List ℕ) (ended : Bool) → limits.bytes < length b
        → break_of limits b ended ≢ None }
{}
