// The events of a stylesheet.
ghost use Rattle.std.specs.Prelude.{◌≡◌, ◌<◌, IsTrue, length};
ghost use Rattle.sx_desk.specs.declared.desk.Out.TheVariants as out;
ghost use Rattle.sx_reading.specs.Frame.{Frame};
ghost use Rattle.sx_names.specs.Numbering.{KeepsPlaces};
ghost use Rattle.sx_top.specs.Stylesheet.{ReadsSheet, end_of, sheet_limits};

use crate::feeding::{EventTaker, Feeder};
use sqlite_items::Items;
use std::alloc::{AllocError, Global};
use std::mem;
use sx_desk::Desk;
use sx_events::Limits;
use sx_names::Names;
use sx_reading::{Input, Outcome, Status, transfer};
use sx_sheet::{LinedEvent, LinedEvents};
use sx_tree::Event;

/// The most bytes of a stylesheet.
const SHEET_LIMIT: u64 = 1_048_576;

// The limits of a stylesheet: those of a document, but for its bytes.
fn limits() -> Limits
    ensures { result ≡ sheet_limits }
{
    let stated = Limits::stated();
    Limits {
        line: stated.line,
        text_run: stated.text_run,
        attrs: stated.attrs,
        depth: stated.depth,
        bytes: SHEET_LIMIT,
        nodes: stated.nodes,
        invocations: stated.invocations,
        range: stated.range,
        string: stated.string,
        list: stated.list,
    }
}

/// Keeps the events of a stylesheet, each with its line, and writes nothing.
#[derive(Drop)]
pub(crate) struct Collector {
    pub events: LinedEvents,
}

// Where the events of a stylesheet end whose last event is this one.
fn end_of(event: &Event) -> Option<Outcome>
    ensures { result ≡ end_of event.now }
{
    match event {
        Event::Close => Some(Outcome::Done),
        _ => None,
    }
}

impl EventTaker for Collector {
    ghost use Rattle.sx_top.specs.Stylesheet.{Collects};

    ghost stands = { Collects };

    fn input(&self) -> Input {
        Input::Sheet
    }

    fn take(&mut self, event: Event, line: u64, _names: &mut Names) -> Result<(), AllocError> {
        self.events.push(LinedEvent { event, line })
    }

    fn ended(&self) -> Option<Outcome> {
        match self.events.as_slice().last() {
            Some(last) => end_of(&last.event),
            None => None,
        }
    }

    fn due(&self) -> &[u8] {
        &[]
    }

    fn clear_due(&mut self) {}
}

/// Reads a whole stylesheet from an opened file of which nothing was taken, and gives its events. The names in it get their
/// numbers, whatever the answer is.
pub(crate) fn read_stylesheet<D: Desk>(
    alloc: Global,
    file: u32,
    names: &mut Names,
    desk: &mut D,
) -> Result<LinedEvents, Status>
    requires given { file < length (D.seen desk.old).opened }
    requires untouched { IsTrue (D.seen desk.old).told → (D.seen desk.old).taken file ≡ 0 }
    ensures reads { ReadsSheet file (D.seen desk.old) (D.seen desk.new) names.new result }
    ensures frame { Frame file out.Result (D.seen desk.old) (D.seen desk.new) }
    ensures kept { KeepsPlaces names.old names.new }
{
    names.each_once();
    let own = mem::replace(names, sx_names::new(alloc));
    let collector = Collector {
        events: Items::new(alloc),
    };
    let mut feeder = Feeder::new(alloc, &limits(), own, collector);
    let status = transfer(alloc, file, desk, &mut feeder);
    mem::swap(names, &mut feeder.names);
    match status {
        Status::Ok => Ok(feeder.taker.events),
        status => Err(status),
    }
}
