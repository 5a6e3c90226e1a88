// The readers of lines and of events, and what they give as answers show it.
ghost use Rattle.std.specs.Prelude.{◌≤◌, ◌^◌};

use crate::notation::{label_shown, show};
use std::alloc::{AllocError, Global};
use sx_esis::{LineReader, LineView};
use sx_events::{EventReader, Limits};
use sx_names::Names;
use sx_tree::{Attr, Event, Space};

/// What a reader gives next.
#[derive(Drop)]
pub enum Next {
    /// a line or an event
    Item(String),
    /// the fault
    Fault(String),
    /// no more has come
    Nothing,
}

/// A reader of bytes that come in pieces.
pub trait Source: Drop {
    /// A reader of lines of at most so many bytes.
    fn make(alloc: Global, limit: u64) -> Self;

    /// Takes the next bytes.
    fn feed(&mut self, piece: &[u8]) -> Result<(), AllocError>;

    /// Is told that there are no more.
    fn finish(&mut self) -> Result<(), AllocError>;

    /// What comes next.
    fn next(&mut self) -> Result<Next, AllocError>;

    /// The number of the line of what was given last.
    fn line(&self) -> u64;
}

/// A reader of lines.
#[derive(Drop)]
pub struct LineSource {
    alloc: Global,
    lines: LineReader,
}

/// A reader of events.
#[derive(Drop)]
pub struct EventSource {
    alloc: Global,
    names: Names,
    reader: EventReader,
}

// A text as answers show it, behind a mark.
fn marked(alloc: Global, mark: &str, text: &str) -> Result<String, AllocError> {
    let mut out = String::from_str(alloc, mark)?;
    show(&mut out, text)?;
    Ok(out)
}

// A name and a value.
fn pair_shown(alloc: Global, name: &str, value: &str) -> Result<String, AllocError> {
    let mut out = marked(alloc, "A", name)?;
    out.push('=')?;
    show(&mut out, value)?;
    Ok(out)
}

// A line as answers show it.
fn line_shown(alloc: Global, view: LineView<'_>) -> Result<String, AllocError> {
    match view {
        LineView::Start(name) => marked(alloc, "(", name),
        LineView::End(name) => marked(alloc, ")", name),
        LineView::Attr { name, value } => pair_shown(alloc, name, value),
        LineView::Implied(name) => marked(alloc, "I", name),
        LineView::Text(text) => marked(alloc, "-", text),
        LineView::Pi(text) => marked(alloc, "?", text),
        LineView::Skipped => String::from_str(alloc, "L"),
        LineView::Conforming => String::from_str(alloc, "C"),
    }
}

impl Source for LineSource {
    fn make(alloc: Global, limit: u64) -> LineSource {
        LineSource {
            alloc,
            lines: LineReader::new(alloc, limit),
        }
    }

    fn feed(&mut self, piece: &[u8]) -> Result<(), AllocError> {
        self.lines.feed(piece)
    }

    fn finish(&mut self) -> Result<(), AllocError> {
        self.lines.finish();
        Ok(())
    }

    fn next(&mut self) -> Result<Next, AllocError> {
        let alloc = self.alloc;
        match self.lines.next() {
            None => Ok(Next::Nothing),
            Some(Err(fault)) => {
                let text = format!(in alloc; "{:?} {}", fault.which, fault.line)?;
                Ok(Next::Fault(text))
            }
            Some(Ok(view)) => Ok(Next::Item(line_shown(alloc, view)?)),
        }
    }

    fn line(&self) -> u64 {
        self.lines.line()
    }
}

/// The fault that comes first among lines, as it is shown.
pub fn first_fault(alloc: Global, limit: u64, bytes: &[u8]) -> Result<String, AllocError> {
    let mut lines = LineReader::new(alloc, limit);
    lines.feed(bytes)?;
    for _ in 0..1000 {
        match lines.next() {
            Some(Err(fault)) => return format!(in alloc; "{fault}"),
            Some(Ok(_)) => {}
            None => break,
        }
    }
    String::from_str(alloc, "none")
}

fn append_attrs(out: &mut String, names: &Names, attrs: &[Attr]) -> Result<(), AllocError> {
    for attr in attrs {
        out.push(' ')?;
        label_shown(out, names, &attr.label)?;
        out.push('=')?;
        show(out, attr.value.as_str())?;
    }
    Ok(())
}

fn append_spaces(out: &mut String, spaces: &[Space]) -> Result<(), AllocError> {
    for space in spaces {
        out.push(' ')?;
        show(out, space.prefix.as_str())?;
        out.push('~')?;
        show(out, space.uri.as_str())?;
    }
    Ok(())
}

// An event as answers show it.
fn event_shown(alloc: Global, names: &Names, event: &Event) -> Result<String, AllocError> {
    match event {
        Event::Start {
            label,
            attrs,
            spaces,
        } => {
            let mut out = String::from_str(alloc, "(")?;
            label_shown(&mut out, names, label)?;
            append_attrs(&mut out, names, attrs.as_slice())?;
            append_spaces(&mut out, spaces.as_slice())?;
            Ok(out)
        }
        Event::End => String::from_str(alloc, ")"),
        Event::Text(text) => marked(alloc, "-", text.as_str()),
        Event::Pi { target, content } => {
            let mut out = marked(alloc, "?", target.as_str())?;
            out.push('|')?;
            show(&mut out, content.as_str())?;
            Ok(out)
        }
        Event::Close => String::from_str(alloc, "C"),
    }
}

fn small_limits(line: u64) -> Limits
    ensures { result.bytes ≤ 2 ^ 61 }
{
    Limits {
        line,
        text_run: 8,
        attrs: 4,
        depth: 3,
        bytes: 80,
        ..Limits::stated()
    }
}

impl Source for EventSource {
    fn make(alloc: Global, limit: u64) -> EventSource {
        EventSource {
            alloc,
            names: sx_names::new(alloc),
            reader: EventReader::new(alloc, &small_limits(limit)),
        }
    }

    fn feed(&mut self, piece: &[u8]) -> Result<(), AllocError> {
        self.reader.feed(piece)
    }

    fn finish(&mut self) -> Result<(), AllocError> {
        self.reader.finish()
    }

    fn next(&mut self) -> Result<Next, AllocError> {
        let alloc = self.alloc;
        match self.reader.next(&mut self.names)? {
            None => Ok(Next::Nothing),
            Some(Err(fault)) => {
                let text = format!(in alloc; "{} {}", fault.which.name(), fault.line)?;
                Ok(Next::Fault(text))
            }
            Some(Ok(event)) => Ok(Next::Item(event_shown(alloc, &self.names, &event)?)),
        }
    }

    fn line(&self) -> u64 {
        self.reader.line()
    }
}
