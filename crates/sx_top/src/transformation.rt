// A document transformed by a stylesheet.
ghost use Rattle.std.specs.Prelude.{◌≡◌, ◌<◌, ◌≤◌, ◌^◌, IsTrue, length};
ghost use Rattle.sx_desk.specs.declared.desk.Out.TheVariants as out;
ghost use Rattle.sx_machine.specs.Meaning.{IsReady};
ghost use Rattle.sx_names.specs.Numbering.{KeepsPlaces};
ghost use Rattle.sx_reading.specs.Frame.{Frame};
ghost use Rattle.sx_reading.specs.Transforming.{Transforms};
ghost use Rattle.sx_top.specs.Run.{run_written, run_outcome};

use crate::feeding::Feeder;
use crate::runner::Runner;
use std::alloc::Global;
use std::mem;
use sx_desk::Desk;
use sx_events::Limits;
use sx_kinds::Sheet;
use sx_machine::Session;
use sx_names::Names;
use sx_reading::{Status, transfer};

/// Runs a stylesheet on an opened file of which nothing was taken: writes to the result, before each read, all that is
/// determined by then. `names` are those of the stylesheet; the document's names get their numbers behind them. A document
/// has at most `limits.depth` elements in one another, at most 200, and at most `limits.bytes` bytes, at most 2^40.
///
/// It answers `Ok`, `Dynamic`, `Malformed` or `Limit` of the document, `ReadFault`, `WriteFault` or `OutOfMemory`.
pub fn transform<D: Desk>(
    alloc: Global,
    sheet: &Sheet,
    names: &mut Names,
    limits: &Limits,
    file: u32,
    desk: &mut D,
) -> Status
    requires depth { limits.now.depth ≤ 200 }
    requires bytes { limits.now.bytes ≤ 2 ^ 40 }
    requires given { file < length (D.seen desk.old).opened }
    requires untouched { IsTrue (D.seen desk.old).told → (D.seen desk.old).taken file ≡ 0 }
    ensures runs { IsReady sheet.now names.old
        → Transforms (run_written sheet.now names.old limits.now)
        (run_outcome sheet.now names.old limits.now)
        file (D.seen desk.old) (D.seen desk.new) result }
    ensures kept { KeepsPlaces names.old names.new }
    ensures frame { Frame file out.Result (D.seen desk.old) (D.seen desk.new) }
{
    names.each_once();
    match Session::start(alloc, sheet, limits.invocations, names) {
        Ok(session) => {
            let own = mem::replace(names, sx_names::new(alloc));
            let mut feeder = Feeder::new(alloc, limits, own, Runner::new(alloc, session));
            let status = transfer(alloc, file, desk, &mut feeder);
            mem::swap(names, &mut feeder.names);
            status
        }
        Err(_) => Status::OutOfMemory,
    }
}
