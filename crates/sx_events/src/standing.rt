// What is known of a document behind the lines that were taken, and how the next line is taken.
ghost use Rattle.std.specs.Prelude.{◌≡◌, ◌+◌, ◌≤◌, ℕ, List, IfOk, IfSome, IfNone, Some};
ghost use Rattle.std.specs.Prelude.{false, true};
ghost use Rattle.sx_esis.specs.Gives.{view_line};
ghost use Rattle.sx_esis.specs.Lines.{starts, ends, has, lacks, says, instructs, skips, conforms};
ghost use Rattle.sx_names.specs.Numbering.{NameTable, IsDistinct, KeepsPlaces};
ghost use Rattle.sx_events.specs.declared.pending.Waiting.{Waiting};
ghost use Rattle.sx_events.specs.declared.pending.Pending.{Pending};
ghost use Rattle.sx_limits.specs.declared.limits.Limits.{Limits};
ghost use Rattle.sx_events.specs.Place.{Place, beginning, end_fault};
ghost use Rattle.sx_events.specs.Place as place;
ghost use Rattle.sx_events.specs.Standing.{Knows, TakesLine, TakesHere, Flushed, place_fault, events_in};

use crate::attributes::Attributes;
use crate::elements::Elements;
use crate::pending::{Pending, Waiting};
use crate::run::Run;
use crate::starting::begin;
use std::alloc::{AllocError, Global};
use sx_chars::split_instruction;
use sx_esis::LineView;
use sx_limits::{Limits, Which};
use sx_names::Names;
use sx_tree::{Chars, Event};

/// What is known behind the lines that were taken: the open elements, the attribute lines that wait for their start, the
/// run of text that may go on, whether there was a root, and whether the document conformed.
#[doc(hidden)]
#[derive(Drop)]
pub struct Standing {
    alloc: Global,
    elements: Elements,
    attributes: Attributes,
    run: Run,
    has_root: bool,
    conformed: bool,
}

fn is_of_element(line: LineView<'_>) -> bool
    ensures { result ≡ place.is_of_element (view_line line.entry) }
{
    !matches!(
        line,
        LineView::Pi(_) | LineView::Skipped | LineView::Conforming
    )
}

fn needs_root(line: LineView<'_>) -> bool
    ensures { result ≡ place.needs_root (view_line line.entry) }
{
    matches!(
        line,
        LineView::End(_) | LineView::Text(_) | LineView::Conforming
    )
}

fn may_follow_attributes(line: LineView<'_>) -> bool
    ensures { result ≡ place.may_follow_attributes (view_line line.entry) }
{
    !matches!(
        line,
        LineView::End(_) | LineView::Text(_) | LineView::Pi(_) | LineView::Conforming
    )
}

impl Standing {
    /// In front of all lines.
    pub fn new(alloc: Global) -> Standing
        ensures { Knows result beginning }
    {
        Standing {
            alloc,
            elements: Elements::new(alloc),
            attributes: Attributes::new(alloc),
            run: Run::new(alloc),
            has_root: false,
            conformed: false,
        }
    }

    /// What is at fault where the input ends.
    pub fn end_fault(&self) -> Option<Which>
        ensures { (p : Place) → Knows self.now p → result ≡ end_fault p }
    {
        if !self.has_root {
            return Some(Which::NoRoot);
        }
        if !self.elements.is_empty() {
            return Some(Which::Truncated);
        }
        None
    }

    /// Takes the line with this number: the events that it makes wait then. Or what is at fault with it, where nothing
    /// that waits has changed.
    pub(crate) fn take(
        &mut self,
        limits: &Limits,
        names: &mut Names,
        line: LineView<'_>,
        number: u64,
        pending: &mut Pending,
    ) -> Result<Option<Which>, AllocError>
        ensures takes { IfOk result
            (λ fault. TakesLine limits.now (view_line line.entry) number names.new self.old self.new
            pending.old
            pending.new fault) }
        ensures one { events_in self.new.run pending.new ≤ events_in self.old.run pending.old + 1 }
        ensures kept { KeepsPlaces names.old names.new }
        ensures distinct { IsDistinct names.old → IsDistinct names.new }
    {
        if let Some(which) = self.place_fault(line) {
            return Ok(Some(which));
        }
        match line {
            LineView::Start(name) => self.start(limits, names, name, number, pending),
            LineView::End(name) => Ok(self.end(name, number, pending)),
            LineView::Attr { name, value } => self.attribute(limits, name, value, pending),
            LineView::Implied(_) => Ok(self.lack(pending)),
            LineView::Text(text) => self.say(limits, text, number),
            LineView::Pi(text) => self.instruct(text, number, pending),
            LineView::Skipped => Ok(None),
            LineView::Conforming => Ok(self.conform(pending)),
        }
    }

    // What is at fault with a line that stands where none of its kind may.
    fn place_fault(&self, line: LineView<'_>) -> Option<Which>
        ensures { (p : Place) → Knows self.now p → result ≡ place_fault p (view_line line.entry) }
    {
        let is_root_closed = self.has_root && self.elements.is_empty();
        if self.conformed || (is_root_closed && is_of_element(line)) {
            return Some(Which::AfterRoot);
        }
        if !self.has_root && needs_root(line) {
            return Some(Which::NoRoot);
        }
        if self.attributes.is_loose && !may_follow_attributes(line) {
            return Some(Which::LooseAttr);
        }
        None
    }

    // An element starts.
    fn start(
        &mut self,
        limits: &Limits,
        names: &mut Names,
        name: &str,
        number: u64,
        pending: &mut Pending,
    ) -> Result<Option<Which>, AllocError>
        ensures takes { IfOk result
            (λ fault. TakesHere limits.now (starts name.now) number names.new self.old self.new pending.old
            pending.new fault) }
        ensures one { events_in self.new.run pending.new ≤ events_in self.old.run pending.old + 1 }
        ensures kept { KeepsPlaces names.old names.new }
        ensures distinct { IsDistinct names.old → IsDistinct names.new }
    {
        let waiting = &mut self.attributes;
        match begin(self.alloc, limits, &mut self.elements, waiting, names, name)? {
            Err(which) => Ok(Some(which)),
            Ok(event) => {
                self.has_root = true;
                self.put(event, number, pending);
                Ok(None)
            }
        }
    }

    // An element ends.
    fn end(&mut self, name: &str, number: u64, pending: &mut Pending) -> Option<Which>
        ensures takes { (limits : Limits) (names : NameTable)
            → TakesHere limits (ends name.now) number names self.old self.new pending.old pending.new
            result }
        ensures one { events_in self.new.run pending.new ≤ events_in self.old.run pending.old + 1 }
    {
        if !self.elements.end(name) {
            return Some(Which::EndMismatch);
        }
        self.put(Event::End, number, pending);
        None
    }

    // An attribute of the element that starts next.
    fn attribute(
        &mut self,
        limits: &Limits,
        name: &str,
        value: &str,
        pending: &mut Pending,
    ) -> Result<Option<Which>, AllocError>
        ensures takes { (number : ℕ) (names : NameTable)
            → IfOk result (λ fault. TakesHere limits.now (has name.now value.now) number names self.old
            self.new pending.old pending.new fault) }
        ensures one { events_in self.new.run pending.new ≤ events_in self.old.run pending.old + 1 }
    {
        if self.attributes.is_full(limits.attrs) {
            return Ok(Some(Which::Attrs));
        }
        self.attributes.push(self.alloc, name, value)?;
        self.flush(pending);
        Ok(None)
    }

    // An attribute that the element that starts next has not.
    fn lack(&mut self, pending: &mut Pending) -> Option<Which>
        ensures takes { (limits : Limits) (name : List ℕ) (number : ℕ) (names : NameTable)
            → TakesHere limits (lacks name) number names self.old self.new pending.old pending.new result }
        ensures one { events_in self.new.run pending.new ≤ events_in self.old.run pending.old + 1 }
    {
        self.attributes.is_loose = true;
        self.flush(pending);
        None
    }

    // A text, which goes on the run.
    fn say(&mut self, limits: &Limits, text: &str, number: u64) -> Result<Option<Which>, AllocError>
        ensures takes { (names : NameTable) (pending : Pending)
            → IfOk result (λ fault. TakesHere limits.now (says text.now) number names self.old self.new
            pending pending fault) }
        ensures one { (pending : Pending)
            → events_in self.new.run pending ≤ events_in self.old.run pending + 1 }
    {
        let length = self.run.len() as u64;
        if length > limits.text_run || text.len() as u64 > limits.text_run - length {
            return Ok(Some(Which::TextRun));
        }
        self.run.push(text, number)?;
        Ok(None)
    }

    // A processing instruction.
    fn instruct(
        &mut self,
        text: &str,
        number: u64,
        pending: &mut Pending,
    ) -> Result<Option<Which>, AllocError>
        ensures takes { (limits : Limits) (names : NameTable)
            → IfOk result (λ fault. TakesHere limits (instructs text.now) number names self.old self.new
            pending.old pending.new fault) }
        ensures one { events_in self.new.run pending.new ≤ events_in self.old.run pending.old + 1 }
    {
        let (target, content) = split_instruction(text);
        let target = Chars::copy(self.alloc, target)?;
        let content = Chars::copy(self.alloc, content)?;
        self.put(Event::Pi { target, content }, number, pending);
        Ok(None)
    }

    // The document conformed.
    fn conform(&mut self, pending: &mut Pending) -> Option<Which>
        ensures takes { (limits : Limits) (number : ℕ) (names : NameTable)
            → TakesHere limits conforms number names self.old self.new pending.old pending.new result }
        ensures one { events_in self.new.run pending.new ≤ events_in self.old.run pending.old + 1 }
    {
        if !self.elements.is_empty() {
            return Some(Which::EndMismatch);
        }
        self.conformed = true;
        self.flush(pending);
        None
    }

    /// The run of text has ended, and waits.
    pub(crate) fn flush(&mut self, pending: &mut Pending)
        ensures flushed { Flushed self.old self.new pending.new.text }
        ensures event { pending.new.event ≡ pending.old.event }
    {
        pending.text = self.run.take(self.alloc);
    }

    /// The run of text has ended, and waits, and behind it this event of the line with this number.
    pub(crate) fn put(&mut self, event: Event, line: u64, pending: &mut Pending)
        ensures flushed { Flushed self.old self.new pending.new.text }
        ensures event { pending.new.event ≡ Some (record { event = event; line = line }) }
    {
        pending.text = self.run.take(self.alloc);
        pending.event = Some(Waiting { event, line });
    }
}
