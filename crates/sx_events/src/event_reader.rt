// The reader of events: bytes of a document in, its events out.
ghost use Rattle.std.specs.Prelude.{◌≡◌, ◌^◌, ◌<◌, ◌≤◌, ◌+◌, ◌-◌, [], ◌++◌};
ghost use Rattle.std.specs.Prelude.{List, ℕ, Bool, true, false, min, nat_lt, take, IsTrue, IfOk, OnOk};
ghost use Rattle.std.specs.Prelude.{OnErr, IsErr, None, length};
ghost use Rattle.sx_names.specs.Numbering.{NameTable, IsDistinct, KeepsPlaces};
ghost use Rattle.sx_events.specs.Course.{is_beyond, line_behind, looked_at, events_of};
ghost use Rattle.sx_events.specs.Reader.{TookAll, Broke, EndsWell, Counted, EventsStand, Rests, GivesEvent};
ghost use Rattle.sx_events.specs.Reader.{GivesNext, IfEvent, IsLastLine, StandsStill, TakesBytes, TakesEnd};
ghost use Rattle.sx_events.specs.Reader.{left, is_spent};
ghost use Rattle.sx_events.specs.Pending.{IsIdle};
ghost use Rattle.sx_events.specs.Standing.{events_in};

use crate::pending::Pending;
use crate::standing::Standing;
use crate::taking::{Taken, take_lines};
use std::alloc::{AllocError, Global};
use sx_esis::LineReader;
use sx_limits::{DocFault, Limits, Which};
use sx_names::Names;
use sx_tree::Event;

/// How the bytes end.
#[doc(hidden)]
#[derive(Clone, Copy)]
pub enum Ending {
    /// they are broken off
    Broken(DocFault),
    /// they have ended well
    Whole,
}

/// Reads the events of a document from bytes that come in pieces of any lengths. The names of elements and attributes have
/// the numbers of the caller's table of names.
///
/// It keeps the bytes of the line that has begun, the names of the open elements and the namespaces that they declare, the
/// attribute lines that wait for their start, or the memory of earlier ones, the run of text that may go on, and at most two
/// events. After an `AllocError` it is spent, and answers that error from then on.
#[derive(Drop)]
pub struct EventReader {
    limits: Limits,
    lines: LineReader,
    standing: Standing,
    pending: Pending,
    total: u64,
    ended: bool,
    ending: Option<Ending>,
    line: u64,
    spent: bool,
}

// How many of the next bytes are looked at, behind so many: those within the limit, and the one that passes it where it
// ends no line.
fn count_looked_at(limit: u64, total: u64, piece: &[u8]) -> usize
    ensures within { result ≤ length piece.now }
    ensures is { (limits : Limits) (b : List ℕ) → limits.bytes ≡ limit → limit ≤ 2 ^ 61
        → total ≡ min (length b) (2 ^ 64 - 1)
        → looked_at limits (b ++ piece.now) ≡ looked_at limits b ++ take result piece.now }
{
    if total > limit {
        return 0;
    }
    let room = (limit - total) as usize;
    match piece.get(room) {
        None => piece.len(),
        Some(b'\n') => room,
        Some(_) => room + 1,
    }
}

impl EventReader {
    /// A reader that was fed nothing. It never has more than 200 elements open: a greater depth counts as 200.
    pub fn new(alloc: Global, limits: &Limits) -> EventReader
        requires bytes { limits.now.bytes ≤ 2 ^ 61 }
        ensures stands { (names : NameTable) → EventsStand result limits.now names [] false 0 }
        ensures unspent { is_spent result ≡ false }
    {
        EventReader {
            limits: *limits,
            lines: LineReader::new(alloc, limits.line),
            standing: Standing::new(alloc),
            pending: Pending::new(),
            total: 0,
            ended: false,
            ending: None,
            line: 0,
            spent: false,
        }
    }

    /// Takes the next bytes. Behind the limit of a document, and where the bytes were broken off, they are dropped. After
    /// an `AllocError` the reader is spent, and still stands for what it was fed before.
    pub fn feed(&mut self, piece: &[u8]) -> Result<(), AllocError>
        ensures fed { OnOk result (TakesBytes self.old self.new piece.now) }
        ensures err { OnErr result (StandsStill self.old self.new) }
        ensures lost { OnErr result (is_spent self.new ≡ true) }
        ensures stays { OnOk result (is_spent self.new ≡ false) }
        ensures spent { IsTrue (is_spent self.old) → IsErr result }
    {
        if self.spent {
            return Err(AllocError);
        }
        if self.ending.is_some() {
            return Ok(());
        }
        let count = count_looked_at(self.limits.bytes, self.total, piece);
        let (front, _) = piece.split_at(count);
        match self.lines.feed(front) {
            Ok(()) => {}
            Err(error) => {
                self.spent = true;
                return Err(error);
            }
        }
        self.total = self.total.saturating_add(piece.len() as u64);
        Ok(())
    }

    /// Says that there are no more bytes. It takes no memory, and answers an error only where the reader is spent.
    pub fn finish(&mut self) -> Result<(), AllocError>
        ensures told { OnOk result (TakesEnd self.old self.new) }
        ensures err { OnErr result (self.new ≡ self.old) }
        ensures only { OnErr result (is_spent self.old ≡ true) }
        ensures same { is_spent self.new ≡ is_spent self.old }
        ensures spent { IsTrue (is_spent self.old) → IsErr result }
    {
        if self.spent {
            return Err(AllocError);
        }
        self.ended = true;
        if self.is_beyond() {
            return Ok(());
        }
        self.lines.finish();
        Ok(())
    }

    /// The number of the line of the last event that was given, counted from 1, and 0 before the first: of a run of text
    /// its last text line, of the close the number of lines.
    pub fn line(&self) -> u64
        ensures { IsLastLine self.now result }
    {
        self.line
    }

    /// The next event of the bytes that were fed. `None` says that there are no more so far, and behind the close that
    /// there are none; `DocFault` where the bytes are broken off, and it stays the answer.
    pub fn next(&mut self, names: &mut Names) -> Result<Option<Result<Event, DocFault>>, AllocError>
        ensures gives { IfOk result (λ answer. GivesNext self.old self.new names.old names.new answer) }
        ensures progress { IfOk result (λ answer. IfEvent answer (λ _. left self.new < left self.old)) }
        ensures kept { KeepsPlaces names.old names.new }
        ensures distinct { IsDistinct names.old → IsDistinct names.new }
        ensures stays { OnOk result (is_spent self.new ≡ false) }
        ensures err { OnErr result (is_spent self.new ≡ true) }
        ensures spent { IsTrue (is_spent self.old) → IsErr result }
    {
        if self.spent {
            return Err(AllocError);
        }
        match self.read_on(names) {
            Ok(()) => Ok(self.give()),
            Err(error) => {
                self.spent = true;
                Err(error)
            }
        }
    }

    // Whether the bytes have passed the limit of a document.
    fn is_beyond(&self) -> bool
        ensures { (limits : Limits) (b : List ℕ) (ended : Bool) → limits.bytes ≤ 2 ^ 61
            → Counted self.now limits b ended → result ≡ is_beyond limits b }
    {
        self.total > self.limits.bytes
    }

    // Takes lines until an event waits or none can.
    fn read_on(&mut self, names: &mut Names) -> Result<(), AllocError>
        ensures rests { OnOk result ((limits : Limits) (b : List ℕ) (ended : Bool) (given : ℕ)
            → EventsStand self.old limits names.old b ended given
            → Rests self.new limits names.new b ended given) }
        ensures no_more { OnOk result (¬ IsIdle self.new.pending → left self.new ≤ left self.old) }
        ensures kept { KeepsPlaces names.old names.new }
        ensures distinct { IsDistinct names.old → IsDistinct names.new }
        ensures same { is_spent self.new ≡ is_spent self.old }
    {
        if self.ending.is_some() {
            return Ok(());
        }
        match take_lines(
            &mut self.lines,
            &mut self.standing,
            &mut self.pending,
            &self.limits,
            names,
        )? {
            Taken::Line => {}
            Taken::All => self.settle(),
            Taken::Broken(fault) => self.break_off(fault),
        }
        Ok(())
    }

    // All lines that have come were taken: decides how the bytes end, where they do.
    fn settle(&mut self)
        ensures rests { (limits : Limits) (names : NameTable) (b : List ℕ) (ended : Bool) (given : ℕ)
            → self.old.ending ≡ None → IsIdle self.old.pending → Counted self.old limits b ended
            → TookAll self.old.lines self.old.standing self.old.pending limits names b ended given
            self.old.line
            → Rests self.new limits names b ended given }
        ensures no_more { self.old.ending ≡ None → IsIdle self.old.pending → ¬ IsIdle self.new.pending
            → left self.new ≤ events_in self.old.standing.run self.old.pending + 1 }
        ensures same { is_spent self.new ≡ is_spent self.old }
    {
        let line = self.lines.line();
        if self.is_beyond() {
            return self.break_off(DocFault {
                which: Which::Bytes,
                line: line.saturating_add(1),
            });
        }
        if !self.ended {
            return;
        }
        match self.standing.end_fault() {
            Some(which) => self.break_off(DocFault {
                which,
                line: line.saturating_add(1),
            }),
            None => self.close(line),
        }
    }

    // The bytes are broken off: behind the run of text nothing happens.
    fn break_off(&mut self, fault: DocFault)
        ensures rests { (limits : Limits) (names : NameTable) (b : List ℕ) (ended : Bool) (given : ℕ)
            → Broke self.old.standing self.old.pending limits names b ended given self.old.line fault
            → Rests self.new limits names b ended given }
        ensures no_more { left self.new ≤ events_in self.old.standing.run self.old.pending }
        ensures same { is_spent self.new ≡ is_spent self.old }
    {
        self.standing.flush(&mut self.pending);
        self.ending = Some(Ending::Broken(fault));
    }

    // The bytes have ended well, with this line.
    fn close(&mut self, line: u64)
        ensures rests { (limits : Limits) (names : NameTable) (b : List ℕ) (ended : Bool) (given : ℕ)
            → EndsWell self.old.standing self.old.pending limits names b ended given self.old.line line
            → Rests self.new limits names b ended given }
        ensures no_more { left self.new ≤ events_in self.old.standing.run self.old.pending + 1 }
        ensures same { is_spent self.new ≡ is_spent self.old }
    {
        self.standing.put(Event::Close, line, &mut self.pending);
        self.ending = Some(Ending::Whole);
    }

    // Gives the event that waits longest.
    fn give(&mut self) -> Option<Result<Event, DocFault>>
        ensures gives { (limits : Limits) (names : NameTable) (b : List ℕ) (ended : Bool) (given : ℕ)
            → Rests self.old limits names b ended given
            → GivesEvent limits names b ended given self.new result }
        ensures waits { IfEvent result (λ _. ¬ IsIdle self.old.pending) }
        ensures fewer { IfEvent result (λ _. left self.new < left self.old) }
        ensures same { is_spent self.new ≡ is_spent self.old }
    {
        match self.pending.take_first() {
            Some(waiting) => {
                self.line = waiting.line;
                Some(Ok(waiting.event))
            }
            None => match self.ending {
                Some(Ending::Broken(fault)) => Some(Err(fault)),
                _ => None,
            },
        }
    }
}
