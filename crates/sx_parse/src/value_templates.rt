// Value templates.
ghost use Rattle.std.specs.Prelude.{◌≡◌, ◌<◌, ◌≤◌, ◌+◌, ◌*◌, ◌^◌, ℕ, List};
ghost use Rattle.std.specs.Prelude.{length, IfOk, IfErr, OnErr, OnOk};
ghost use Rattle.std.specs.Str.{IsCharBoundary};
ghost use Rattle.sx_names.specs.Numbering.{KeepsPlaces};
ghost use Rattle.sx_parse.specs.Numbers.{NameEntry};
ghost use Rattle.sx_parse.specs.Parsed.{AnswersTemplate, AreFormedParts};
ghost use Rattle.sx_parse.specs.Parsed as spec;
ghost use Rattle.sx_parse.specs.Turning.{IsReadTo, Turns};

use crate::expressions::{expression, is_too_long, too_long};
use crate::faults::{Numbering, SyntaxFault};
use crate::templates::{Next, next_at};
use sqlite_items::Items;
use std::alloc::{AllocError, Global};
use sx_kinds::{AvtPart, AvtParts};
use sx_names::{Names, Scope};

/// What the next piece of a value template shows.
#[derive(Clone, Copy)]
enum Turn {
    /// there is none: all is read
    Whole,
    /// the template is refused
    Refused(SyntaxFault),
    /// it is read, up to an offset
    Behind(usize),
}

/// A fault in the text of an expression that stands at an offset.
fn shifted(offset: usize, fault: SyntaxFault) -> SyntaxFault
    requires offset { offset ≤ 4096 }
    requires inside { fault.offset ≤ 4096 }
    ensures { result ≡ spec.shifted offset fault }
{
    SyntaxFault {
        code: fault.code,
        offset: offset as u32 + fault.offset,
    }
}

/// Reads the piece at an offset into a part.
fn read_piece(
    alloc: Global,
    text: &str,
    offset: usize,
    scope: &Scope,
    names: &mut Names,
    at: &mut Numbering,
    parts: &mut AvtParts,
) -> Result<Turn, AllocError>
    requires boundary { IsCharBoundary text.now offset }
    requires short { length text.now ≤ 4096 }
    requires room { at.old.next < 2 ^ 63 }
    ensures turns { IfOk result
        (λ r. (first : List NameEntry) (n : ℕ)
        → IsReadTo scope.now text.now at.old.line first n offset parts.old names.old at.old.next
        → Turns scope.now text.now at.old.line first n offset r parts.new names.new at.new.next) }
    ensures line { at.new.line ≡ at.old.line }
    ensures kept { KeepsPlaces names.old names.new }
{
    match next_at(alloc, text, offset)? {
        Next::End => Ok(Turn::Whole),
        Next::Fault(fault) => Ok(Turn::Refused(fault)),
        Next::Fixed(fixed, end) => {
            parts.push(AvtPart::Fixed(fixed))?;
            Ok(Turn::Behind(end))
        }
        Next::Inner(start, end) => match expression(alloc, scope, names, &text[start..end], at)? {
            Err(fault) => Ok(Turn::Refused(shifted(start, fault))),
            Ok(expr) => {
                parts.push(AvtPart::Inner(expr))?;
                Ok(Turn::Behind(end + 1))
            }
        },
    }
}

/// Reads the pieces of a value template one behind another.
fn read_pieces(
    alloc: Global,
    s: &str,
    scope: &Scope,
    names: &mut Names,
    at: &mut Numbering,
) -> Result<Result<AvtParts, SyntaxFault>, AllocError>
    requires short { length s.now ≤ 4096 }
    requires room { at.old.next < 2 ^ 62 }
    ensures exactly { IfOk result (AnswersTemplate scope.now s.now names.old names.new at.old at.new) }
    ensures formed { IfOk result (λ r. IfOk r AreFormedParts) }
    ensures grows { OnOk result (at.new.next ≤ at.old.next + 2 * length s.now) }
    ensures line { at.new.line ≡ at.old.line }
    ensures kept { KeepsPlaces names.old names.new }
{
    let mut parts = Items::new(alloc);
    let mut offset = 0;
    'pieces: loop {
        match read_piece(alloc, s, offset, scope, names, at, &mut parts)? {
            Turn::Whole => return Ok(Ok(parts)),
            Turn::Refused(fault) => return Ok(Err(fault)),
            Turn::Behind(end) => offset = end,
        }
    }
}

/// Reads a value template (XSLT 3.0, 5.6.1) of at most 4,096 bytes: its fixed text with braces no longer doubled, and its
/// expressions, each as `parse_expr` reads it, numbered one behind another. Of several faults the one at the least offset is
/// answered: `SXST0001` for a text that is too long stands before all others; `XTSE0350` at a `{` that no `}` matches; `XTSE0370`
/// at a `}` that no `{` matches; and the faults of its expressions. After a fault or an `AllocError` no number is used up, names of
/// its expressions may have been added, and each number that was given keeps its name.
pub fn parse_avt(
    alloc: Global,
    s: &str,
    scope: &Scope,
    names: &mut Names,
    at: &mut Numbering,
) -> Result<Result<AvtParts, SyntaxFault>, AllocError>
    requires { at.old.next < 2 ^ 62 }
    ensures exactly { IfOk result (AnswersTemplate scope.now s.now names.old names.new at.old at.new) }
    ensures formed { IfOk result (λ r. IfOk r AreFormedParts) }
    ensures grows { OnOk result (at.new.next ≤ at.old.next + 2 * length s.now) }
    ensures refused { IfOk result (λ r. IfErr r (λ fault. at.new ≡ at.old)) }
    ensures failed { OnErr result (at.new ≡ at.old) }
    ensures line { at.new.line ≡ at.old.line }
    ensures kept { KeepsPlaces names.old names.new }
{
    if is_too_long(s) {
        return Ok(Err(too_long()));
    }
    let mut behind = *at;
    match read_pieces(alloc, s, scope, names, &mut behind)? {
        Err(fault) => Ok(Err(fault)),
        Ok(parts) => {
            *at = behind;
            Ok(Ok(parts))
        }
    }
}
