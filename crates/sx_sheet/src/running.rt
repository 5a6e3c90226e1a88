// Reads all events.
ghost use Rattle.std.specs.Prelude.{IfOk};
ghost use Rattle.sx_names.specs.Numbering.{KeepsPlaces};
ghost use Rattle.sx_sheet.specs.Looking.{Results};
ghost use Rattle.sx_sheet.specs.Tokens.{AreKnownEvents};

use crate::reader::Reader;
use crate::reading::LinedEvents;
use crate::tokens::token_of;
use std::alloc::{AllocError, Global};
use sx_names::Names;

/// The reader behind all events, or the line of the one at which it stops, or 0 where one is missing.
pub(crate) fn run(
    alloc: Global,
    events: &LinedEvents,
    names: &mut Names,
) -> Result<Result<Reader, u64>, AllocError>
    ensures kept { KeepsPlaces names.old names.new }
    ensures results { IfOk result (λ r. AreKnownEvents names.old events.now
        → Results names.old names.new events.now r) }
{
    let mut reader = Reader::new(alloc);
    let mut in_text = false;
    for lined in events.as_slice() {
        let Some(token) = token_of(&lined.event, names) else {
            continue;
        };
        if token.is_skipped(in_text) {
            continue;
        }
        in_text = token.is_in_text(in_text);
        match reader.step(alloc, names, token, lined.line)? {
            None => return Ok(Err(lined.line)),
            Some(next) => reader = next,
        }
    }
    if reader.stage.is_last() {
        return Ok(Ok(reader));
    }
    Ok(Err(0))
}
