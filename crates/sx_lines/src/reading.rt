// Printed results read back.
ghost use Rattle.std.specs.Prelude.{◌≡◌, [], ◌∷◌, ◌++◌, List, None, IfSome, IfNone, IfOk};
ghost use Rattle.std.specs.Prelude.{true, false};
ghost use Rattle.sx_lines.specs.declared.events.Built.{Built};
ghost use Rattle.sx_lines.specs.declared.lines.Line.{Line};
ghost use Rattle.sx_lines.specs.Normal.{IsNormal, whole};
ghost use Rattle.sx_lines.specs.Lines.{line_bytes, IsLine, events_of_lines};
ghost use Rattle.sx_lines.specs.Reader.{ReadsAs, ReadsMore, Refuses, ReadsBytes, RefusesBytes};

use crate::lines::{Line, read_line, split_at_byte};
use crate::{Built, Builts, Pairs};
use sqlite_items::Items;
use std::alloc::{AllocError, Global};
use std::mem;

// What was read of a result.
#[derive(Drop)]
struct Reader {
    alloc: Global,
    events: Builts,
    // the attributes of the element that starts next
    pairs: Pairs,
    // whether the last event is a text
    after_text: bool,
}

impl Reader {
    fn new(alloc: Global) -> Reader
        ensures { ReadsAs result [] }
    {
        Reader {
            alloc,
            events: Items::new(alloc),
            pairs: Items::new(alloc),
            after_text: false,
        }
    }

    // Takes a line, or answers that it may not stand here.
    fn take(&mut self, line: Line) -> Result<bool, AllocError>
        ensures taken { IfOk result (λ taken. taken ≡ true → ReadsMore self.old self.new line) }
        ensures refused { IfOk result (λ taken. taken ≡ false → Refuses self.old line) }
    {
        match line {
            Line::Pair(pair) => {
                self.pairs.push(pair)?;
                Ok(true)
            }
            Line::Start(name) => {
                let pairs = mem::replace(&mut self.pairs, Items::new(self.alloc));
                self.events.push(Built::Start { name, pairs })?;
                self.after_text = false;
                Ok(true)
            }
            Line::End(name) => self.take_alone(Built::End { name }, false),
            Line::Text(text) => {
                if self.after_text {
                    return Ok(false);
                }
                self.take_alone(Built::Text(text), true)
            }
            Line::Pi { target, content } => self.take_alone(Built::Pi { target, content }, false),
        }
    }

    // Takes an event that may not stand behind attributes.
    fn take_alone(&mut self, event: Built, is_text: bool) -> Result<bool, AllocError>
        ensures taken { IfOk result (λ taken. taken ≡ true
            → (self.old.pairs ≡ []) × (self.new.pairs ≡ [])
            × (self.new.events ≡ self.old.events ++ event ∷ []) × (self.new.after_text ≡ is_text)) }
        ensures refused { IfOk result (λ taken. taken ≡ false → ¬ (self.old.pairs ≡ [])) }
    {
        if !self.pairs.is_empty() {
            return Ok(false);
        }
        self.events.push(event)?;
        self.after_text = is_text;
        Ok(true)
    }

    // Reads a line, or answers that none can stand here that has these bytes.
    fn read(&mut self, bytes: &[u8]) -> Result<bool, AllocError>
        ensures taken { IfOk result (λ taken. taken ≡ true → ReadsBytes self.old self.new bytes.now) }
        ensures refused { IfOk result (λ taken. taken ≡ false → RefusesBytes self.old bytes.now) }
    {
        match read_line(self.alloc, bytes)? {
            Some(line) => self.take(line),
            None => Ok(false),
        }
    }

    // What was read, if this is all that follows the last line.
    fn finish(self, behind: &[u8]) -> Option<Builts>
        ensures found { IfSome result (λ events. (events ≡ self.events) × (self.pairs ≡ [])
            × (behind.now ≡ [])) }
        ensures none { IfNone result (self.pairs ≡ [] → ¬ (behind.now ≡ [])) }
    {
        if behind.is_empty() && self.pairs.is_empty() {
            return Some(self.events);
        }
        None
    }
}

/// The normal list of events whose whole result, printed with its ending, these bytes are, or `None` where there is none:
/// then they are no result, or not printed as `append` and `ending` do. Nesting is not asked for.
pub fn read_back(alloc: Global, bytes: &[u8]) -> Result<Option<Builts>, AllocError>
    ensures found { IfOk result (λ answer. IfSome answer (λ es. IsNormal es × (whole es ≡ bytes.now))) }
    ensures none { IfOk result (λ answer. IfNone answer ((es : List Built) → IsNormal es
        → ¬ (whole es ≡ bytes.now))) }
{
    let mut reader = Reader::new(alloc);
    let mut rest = bytes;
    while let Some((line, behind)) = split_at_byte(b'\n', rest) {
        if line == b"C".as_slice() {
            return Ok(reader.finish(behind));
        }
        if !reader.read(line)? {
            return Ok(None);
        }
        rest = behind;
    }
    Ok(None)
}
