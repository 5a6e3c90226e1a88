// Writing a whole piece.
ghost use Rattle.sx_reading.specs.Frame.{Sends};

use sx_desk::{Desk, Failed, Out};

/// Writes all of a piece to an output. Where a write fails, a front of the piece was written.
pub fn write_all<D: Desk>(desk: &mut D, out: Out, piece: &[u8]) -> Result<(), Failed>
    ensures { Sends out piece.now (D.seen desk.old) (D.seen desk.new) result }
{
    let mut rest = piece;
    while !rest.is_empty() {
        let count = desk.write(out, rest)?;
        let (_, after) = rest.split_at(count);
        rest = after;
    }
    Ok(())
}
