// From bytes to what takes their events.
ghost use Rattle.std.specs.Prelude.{◌≡◌, ◌^◌, ◌≤◌, ◌++◌, [], List, ℕ, Bool, false};
ghost use Rattle.std.specs.Prelude.{None, OnOk};
ghost use Rattle.sx_events.specs.Course.{Lined};
ghost use Rattle.sx_names.specs.Numbering.{NameTable, IsDistinct, KeepsPlaces};
ghost use Rattle.sx_top.specs.Feeding.{Meaning, Takes};

use std::alloc::{AllocError, Global};
use sx_events::{EventReader, Limits};
use sx_names::Names;
use sx_reading::{Consumer, Input, Outcome};
use sx_tree::Event;

/// Takes the events of an input one after the other, and gives what can be written for them. What its clauses say holds for
/// each meaning of events that it stands for.
pub(crate) trait EventTaker {
    /// With this meaning of events: by this table of names it was given these, each with its line, and so much of what is
    /// written for them was taken from it.
    ghost stands: { Self → Meaning → NameTable → List Lined → List ℕ → Type 0 };

    /// The input that the events are of.
    fn input(&self) -> Input
        ensures { (m : Meaning) (known : NameTable) (events : List Lined) (w : List ℕ)
            → stands self.now m known events w → result ≡ m.input };

    /// Takes the next event, which stands on this line. The names in it have the numbers of this table.
    fn take(&mut self, event: Event, line: u64, names: &mut Names) -> Result<(), AllocError>
        ensures took { OnOk result (Takes stands self.old self.new names.old event line) }
        ensures names { names.new ≡ names.old };

    /// Where the events end, if they do.
    fn ended(&self) -> Option<Outcome>
        ensures { (m : Meaning) (known : NameTable) (events : List Lined) (w : List ℕ)
            → stands self.now m known events w → result ≡ m.outcome events };

    /// What can be written and was not taken yet.
    fn due(&self) -> &[u8]
        ensures { (m : Meaning) (known : NameTable) (events : List Lined) (w : List ℕ)
            → stands self.now m known events w → w ++ result.now ≡ m.written events };

    /// Counts what is due as taken.
    fn clear_due(&mut self)
        ensures { (m : Meaning) (known : NameTable) (events : List Lined) (w : List ℕ)
            → stands self.old m known events w → stands self.new m known events (m.written events) };
}

/// Reads the events of bytes as they come, and gives them to what takes them.
#[derive(Drop)]
pub(crate) struct Feeder<T> {
    reader: EventReader,
    pub names: Names,
    pub taker: T,
    outcome: Option<Outcome>,
}

impl<T: EventTaker> Feeder<T> {
    ghost use Rattle.sx_top.specs.Feeding.{IsSteady, FeederStands, TakesAll, Continues, Ends};

    /// A feeder that was fed nothing.
    pub fn new(alloc: Global, limits: &Limits, names: Names, taker: T) -> Feeder<T>
        requires bytes { limits.now.bytes ≤ 2 ^ 40 }
        ensures stands { (m : Meaning) → IsSteady m → m.limits ≡ limits.now → IsDistinct names
            → T.stands taker m names [] [] → FeederStands T.stands m result [] false [] }
        ensures names { result.names ≡ names }
    {
        let outcome = taker.ended();
        Feeder {
            reader: EventReader::new(alloc, limits),
            names,
            taker,
            outcome,
        }
    }

    // Gives all events that have come, as long as they do not end.
    fn take_events(&mut self) -> Result<(), AllocError>
        ensures stands { OnOk result (TakesAll T.stands self.old self.new) }
        ensures kept { KeepsPlaces self.old.names self.new.names }
    {
        'events: loop {
            match self.reader.next(&mut self.names)? {
                None => return Ok(()),
                Some(Err(fault)) => {
                    self.outcome = Some(Outcome::Broken {
                        input: self.taker.input(),
                        fault,
                    });
                    return Ok(());
                }
                Some(Ok(event)) => {
                    self.taker.take(event, self.reader.line(), &mut self.names)?;
                    self.outcome = self.taker.ended();
                    if self.outcome.is_some() {
                        return Ok(());
                    }
                }
            }
        }
    }

    // Takes the next bytes; behind an outcome they are dropped.
    fn take_bytes(&mut self, piece: &[u8]) -> Result<(), AllocError>
        ensures stands { OnOk result (Continues T.stands self.old piece.now self.new) }
        ensures kept { KeepsPlaces self.old.names self.new.names }
    {
        if self.outcome.is_some() {
            return Ok(());
        }
        self.reader.feed(piece)?;
        self.take_events()
    }

    // The input has ended.
    fn end_input(&mut self) -> Result<(), AllocError>
        ensures stands { OnOk result (Ends T.stands self.old self.new) }
        ensures kept { KeepsPlaces self.old.names self.new.names }
    {
        if self.outcome.is_some() {
            return Ok(());
        }
        self.reader.finish()?;
        self.take_events()
    }
}

impl<T: EventTaker> Consumer for Feeder<T> {
    ghost use Rattle.sx_top.specs.Keeping as keeping;
    ghost use Rattle.sx_top.specs.Feeding.{Feeds};

    ghost stands = { Feeds T.stands };

    ghost keeps = { λ old new. KeepsPlaces old.names new.names };

    fn feed(&mut self, piece: &[u8]) -> Result<(), AllocError> {
        self.take_bytes(piece)
    }

    fn finish(&mut self) -> Result<(), AllocError> {
        self.end_input()
    }

    fn output(&self) -> &[u8] {
        self.taker.due()
    }

    fn clear_output(&mut self) {
        self.taker.clear_due();
    }

    fn outcome(&self) -> Option<Outcome> {
        self.outcome
    }

    ghost keeps_same = { λ c. keeping.keeps_same c.names };

    ghost keeps_then = { λ a b c. keeping.keeps_then a.names b.names c.names };
}
