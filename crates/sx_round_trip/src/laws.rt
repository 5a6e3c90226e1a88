// What is printed is read back.
ghost use Rattle.std.specs.Prelude.{◌≡◌, ◌≤◌, ℕ, List, [], true, Some, None};
ghost use Rattle.sx_esis.specs.Lines as esis;
ghost use Rattle.sx_events.specs.Course.{events_of, break_of, whats};
ghost use Rattle.sx_limits.specs.Limits.{stated};
ghost use Rattle.sx_limits.specs.declared.limits.Limits.{Limits as Bounds};
ghost use Rattle.sx_lines.specs.Lines.{lines_of_events};
ghost use Rattle.sx_lines.specs.Normal.{IsNormal, whole};
ghost use Rattle.sx_lines.specs.declared.events.Built.{Built as BuiltEvent};
ghost use Rattle.sx_reading.specs.declared.consumer.Outcome.TheVariants as outcome;
ghost use Rattle.sx_round_trip.specs.Copies.{copied};
ghost use Rattle.sx_round_trip.specs.Document.{AreShort, LackZero, IsDocument, IsWithin, all_said};
ghost use Rattle.sx_round_trip.specs.Document.{document_events};
ghost use Rattle.sx_top.specs.Copy.{copy_written, copy_outcome};

/// The lines of a printed normal list say that list, and that the document conformed, where no line is longer than the
/// limit and no text has a zero in it.
pub fn printed_lines()
    ensures { (limit : ℕ) (es : List BuiltEvent) → IsNormal es → LackZero es → 1 ≤ limit
        → AreShort limit (lines_of_events es)
        → esis.lines_of limit (whole es) true
        ≡ record { lines = all_said (lines_of_events es); fault = None } }
{}

/// A printed document that keeps within the limits is read as its own events, and is not broken off.
pub fn printed_events()
    ensures sound { (limits : Bounds) (es : List BuiltEvent) → IsDocument limits es → IsWithin limits es
        → break_of limits (whole es) true ≡ None }
    ensures events { (limits : Bounds) (es : List BuiltEvent) → IsDocument limits es → IsWithin limits es
        → whats (events_of limits (whole es) true) ≡ document_events [] es }
{}

/// The copy of a whole document is one, and where it keeps within the limits, its own copy is the same and whole, too.
pub fn copy_of_a_copy()
    ensures document { (b : List ℕ) → copy_outcome b true ≡ Some outcome.Done
        → IsDocument stated (copied b) }
    ensures again { (b : List ℕ) → copy_outcome b true ≡ Some outcome.Done
        → IsWithin stated (copied b)
        → copy_written (copy_written b true) true ≡ copy_written b true }
    ensures whole { (b : List ℕ) → copy_outcome b true ≡ Some outcome.Done
        → IsWithin stated (copied b)
        → copy_outcome (copy_written b true) true ≡ Some outcome.Done }
{}
