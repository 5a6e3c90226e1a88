// From the name of a stylesheet to the stylesheet.
ghost use Rattle.std.specs.Prelude.{◌≡◌, ◌+◌, ◌<◌, ◌≤◌, ◌^◌, ℕ, List, OnOk, length};
ghost use Rattle.sx_names.specs.Numbering.{IsDistinct, KeepsPlaces};
ghost use Rattle.sx_reading.specs.Program.{IsSilent};
ghost use Rattle.sx_top.specs.Loading.{Judged, Loads};
ghost use Rattle.sx_top.specs.Stylesheet.{AreEvents};

use crate::stylesheet::read_stylesheet;
use std::alloc::Global;
use sx_atoms::Code;
use sx_desk::Desk;
use sx_kinds::Sheet;
use sx_machine::culprit;
use sx_names::Names;
use sx_reading::Status;
use sx_sheet::LinedEvents;

// The stylesheet that the events are, where it can be streamed (XSLT 3.0, 19.8.3).
fn accept(alloc: Global, events: &LinedEvents, names: &mut Names) -> Result<Sheet, Status>
    ensures judged { (bytes : List ℕ) → AreEvents names.old events.now bytes
        → Judged bytes names.new result }
    ensures kept { KeepsPlaces names.old names.new }
    ensures distinct { IsDistinct names.new }
{
    let sheet = match sx_sheet::read(alloc, events, names) {
        Ok(Ok(sheet)) => sheet,
        Ok(Err(fault)) => {
            return Err(Status::Static {
                code: fault.code,
                line: fault.line,
            });
        }
        Err(_) => return Err(Status::OutOfMemory),
    };
    match culprit(&sheet) {
        Some(line) => Err(Status::Static {
            code: Code::Xtse3430,
            line,
        }),
        None => Ok(sheet),
    }
}

/// Opens the file of a name, reads it to its end, and gives the stylesheet that it is. The names in it get their
/// numbers, whatever the answer is.
pub fn load<D: Desk>(
    alloc: Global,
    name: &str,
    names: &mut Names,
    desk: &mut D,
) -> Result<Sheet, Status>
    requires { length (D.seen desk.old).opened < 2 ^ 31 }
    ensures loads { Loads name.now names.new (D.seen desk.old) (D.seen desk.new) result }
    ensures quiet { IsSilent (D.seen desk.old) (D.seen desk.new) }
    ensures opened { length (D.seen desk.new).opened ≤ length (D.seen desk.old).opened + 1 }
{
    let file = match desk.open_file(name) {
        Ok(file) => file,
        Err(_) => return Err(Status::OpenFault),
    };
    let events = match read_stylesheet(alloc, file, names, desk) {
        Ok(events) => events,
        Err(status) => return Err(status),
    };
    accept(alloc, &events, names)
}
