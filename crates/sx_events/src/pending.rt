// The events that wait to be given.
ghost use Rattle.std.specs.Prelude.{◌≡◌, ◌+◌, ℕ, List, IsTrue, ◌↔◌, None, IfSome, IfNone};
ghost use Rattle.sx_events.specs.Course.{Lined};
ghost use Rattle.sx_events.specs.Pending.{IsIdle, Pends, GivesWaiting, count_held};
ghost use Rattle.sx_names.specs.Numbering.{NameTable};

use sx_tree::Event;

/// An event, and the number of the line that it stands on.
#[doc(hidden)]
#[derive(Drop)]
pub struct Waiting {
    pub event: Event,
    pub line: u64,
}

/// At most one text, and at most one event behind it.
#[doc(hidden)]
#[derive(Drop)]
pub struct Pending {
    pub text: Option<Waiting>,
    pub event: Option<Waiting>,
}

impl Pending {
    /// Nothing waits.
    pub fn new() -> Pending
        ensures { IsIdle result }
    {
        Pending {
            text: None,
            event: None,
        }
    }

    /// Whether nothing waits.
    pub fn is_empty(&self) -> bool
        ensures { IsTrue result ↔ IsIdle self.now }
    {
        self.text.is_none() && self.event.is_none()
    }

    /// Takes the event that waits longest.
    pub fn take_first(&mut self) -> Option<Waiting>
        ensures next { IfSome result (λ first. (names : NameTable) (events : List Lined) (given line : ℕ)
            → Pends self.old names events given line → GivesWaiting self.new names events given first) }
        ensures fewer { IfSome result (λ _. count_held self.new + 1 ≡ count_held self.old) }
        ensures nothing { IfNone result ((self.new ≡ self.old) × IsIdle self.old) }
    {
        if let Some(text) = self.text.take() {
            return Some(text);
        }
        self.event.take()
    }
}
