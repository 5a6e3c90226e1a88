// Taking the lines that have come.
ghost use Rattle.std.specs.Prelude.{◌≡◌, ◌+◌, ◌≤◌, ◌<◌, List, ℕ, Bool, IfOk};
ghost use Rattle.sx_esis.specs.LineReader.{unread};
ghost use Rattle.sx_names.specs.Numbering.{IsDistinct, KeepsPlaces};
ghost use Rattle.sx_events.specs.Course.{which_of};
ghost use Rattle.sx_events.specs.Pending.{IsIdle};
ghost use Rattle.sx_events.specs.Standing.{events_in};
ghost use Rattle.sx_events.specs.Reader.{Along, AfterTaking, IsNoMore};
ghost use Rattle.sx_events.specs.declared.taking.Taken.TheVariants as taken;

use crate::pending::Pending;
use crate::standing::Standing;
use std::alloc::AllocError;
use sx_esis::{LineReader, LineView, LineWhich};
use sx_limits::{DocFault, Limits, Which};
use sx_names::Names;

/// What was taken.
#[derive(Clone, Copy)]
pub(crate) enum Taken {
    /// a line
    Line,
    /// all lines that have come
    All,
    /// all lines in front of one that is at fault
    Broken(DocFault),
}

// The fault of a line, as one of the document.
fn which_of(which: LineWhich) -> Which
    ensures { result ≡ which_of which }
{
    match which {
        LineWhich::NotUtf8 => Which::NotUtf8,
        LineWhich::BadEscape => Which::BadEscape,
        LineWhich::BadCommand => Which::BadCommand,
        LineWhich::BadAttr => Which::BadAttr,
        LineWhich::Sdata => Which::Sdata,
        LineWhich::Unsupported => Which::Unsupported,
        LineWhich::Line => Which::Line,
    }
}

// Takes the next line that has come.
fn take_next(
    lines: &mut LineReader,
    standing: &mut Standing,
    pending: &mut Pending,
    limits: &Limits,
    names: &mut Names,
) -> Result<Taken, AllocError>
    ensures after { IfOk result (λ done. (b : List ℕ) (ended : Bool) (given line : ℕ)
        → IsIdle pending.old
        → Along lines.old standing.old pending.old limits.now names.old b ended given line
        → AfterTaking lines.new standing.new pending.new limits.now names.new b ended given line done) }
    ensures fewer { IfOk result (λ done. done ≡ taken.Line → unread lines.new < unread lines.old) }
    ensures same { IfOk result (λ done. done ≡ taken.All → pending.new ≡ pending.old) }
    ensures no_more { IfOk result
        (λ done. IsNoMore done (unread lines.old + events_in standing.old.run pending.old) (unread lines.new)
        (events_in standing.new.run pending.new)) }
    ensures kept { KeepsPlaces names.old names.new }
    ensures distinct { IsDistinct names.old → IsDistinct names.new }
{
    let number = lines.line().saturating_add(1);
    match lines.next() {
        None => Ok(Taken::All),
        Some(Err(fault)) => Ok(Taken::Broken(DocFault {
            which: which_of(fault.which),
            line: fault.line,
        })),
        Some(Ok(line)) => match standing.take(limits, names, line, number, pending)? {
            None => Ok(Taken::Line),
            Some(which) => Ok(Taken::Broken(DocFault {
                which,
                line: number,
            })),
        },
    }
}

/// Takes lines until an event waits, or no more have come, or one is at fault.
pub(crate) fn take_lines(
    lines: &mut LineReader,
    standing: &mut Standing,
    pending: &mut Pending,
    limits: &Limits,
    names: &mut Names,
) -> Result<Taken, AllocError>
    ensures after { IfOk result (λ done. (b : List ℕ) (ended : Bool) (given line : ℕ)
        → Along lines.old standing.old pending.old limits.now names.old b ended given line
        → AfterTaking lines.new standing.new pending.new limits.now names.new b ended given line done) }
    ensures waits { IfOk result (λ done. done ≡ taken.Line → ¬ IsIdle pending.new) }
    ensures idle { IfOk result (λ done. done ≡ taken.All → IsIdle pending.new) }
    ensures no_more { IfOk result
        (λ done. IsNoMore done (unread lines.old + events_in standing.old.run pending.old) (unread lines.new)
        (events_in standing.new.run pending.new)) }
    ensures kept { KeepsPlaces names.old names.new }
    ensures distinct { IsDistinct names.old → IsDistinct names.new }
{
    while pending.is_empty() {
        match take_next(lines, standing, pending, limits, names)? {
            Taken::Line => {}
            Taken::All => return Ok(Taken::All),
            Taken::Broken(fault) => return Ok(Taken::Broken(fault)),
        }
    }
    Ok(Taken::Line)
}
