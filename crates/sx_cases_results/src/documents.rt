// What is read of a document, however its bytes are cut.
use crate::notation::bytes_of;
use crate::sources::{EventSource, LineSource, Next, Source, first_fault};
use std::alloc::{AllocError, Global};

// What has been read: what came, the number of the line of the last of it, the fault behind it, and whether nothing else was
// answered behind the fault.
#[derive(Drop)]
struct Reading {
    out: String,
    line: u64,
    fault: Option<String>,
    steady: bool,
}

impl Reading {
    fn add(&mut self, line: u64, text: &str) -> Result<(), AllocError> {
        self.steady &= self.fault.is_none();
        self.line = line;
        let number = format!(in *self.out.allocator(); "{line}")?;
        self.out.push_str(number.as_str())?;
        self.out.push_str(text)?;
        self.out.push(';')
    }

    fn rest(&mut self) {
        self.steady &= self.fault.is_none();
    }

    fn break_off(&mut self, line: u64, text: String) {
        self.steady &= line == self.line;
        if let Some(fault) = &self.fault {
            self.steady &= fault.as_str() == text.as_str();
        }
        self.fault = Some(text);
    }

    fn finish(self) -> Result<String, AllocError> {
        let Reading {
            mut out,
            line: _,
            fault,
            steady,
        } = self;
        if let Some(fault) = fault {
            out.push('!')?;
            out.push_str(fault.as_str())?;
        }
        if !steady {
            out.push_str("!!")?;
        }
        Ok(out)
    }
}

// Takes what has come.
fn take_all<S: Source>(source: &mut S, reading: &mut Reading) -> Result<(), AllocError> {
    for _ in 0..1000 {
        match source.next()? {
            Next::Item(text) => reading.add(source.line(), text.as_str())?,
            Next::Fault(text) => {
                reading.break_off(source.line(), text);
                return Ok(());
            }
            Next::Nothing => {
                reading.rest();
                return Ok(());
            }
        }
    }
    Ok(())
}

// Takes what has come with these bytes.
fn feed<S: Source>(source: &mut S, reading: &mut Reading, piece: &[u8]) -> Result<(), AllocError> {
    source.feed(piece)?;
    take_all(source, reading)
}

// What is read where so many bytes come first and the rest in pieces of this length.
fn read<S: Source>(
    mut source: S,
    alloc: Global,
    bytes: &[u8],
    first: usize,
    piece: usize,
) -> Result<String, AllocError> {
    let mut reading = Reading {
        out: String::new(alloc),
        line: 0,
        fault: None,
        steady: true,
    };
    let (front, rest) = bytes.split_at(first.min(bytes.len()));
    feed(&mut source, &mut reading, front)?;
    for part in rest.chunks(piece.max(1)) {
        feed(&mut source, &mut reading, part)?;
    }
    source.finish()?;
    take_all(&mut source, &mut reading)?;
    reading.finish()
}

// Whether it is read so where it is cut in two behind so many bytes, and where it comes in pieces of that length.
fn is_read_so<S: Source>(
    alloc: Global,
    limit: u64,
    bytes: &[u8],
    length: usize,
    whole: &str,
) -> Result<bool, AllocError> {
    let in_two = read(S::make(alloc, limit), alloc, bytes, length, bytes.len())?;
    let in_pieces = read(S::make(alloc, limit), alloc, bytes, 0, length)?;
    Ok(in_two.as_str() == whole && in_pieces.as_str() == whole)
}

// What is read however the bytes are cut.
fn read_in_all_ways<S: Source>(
    alloc: Global,
    limit: u64,
    bytes: &[u8],
) -> Result<String, AllocError> {
    let whole = read(S::make(alloc, limit), alloc, bytes, 0, bytes.len())?;
    for length in 1..bytes.len() + 1 {
        if !is_read_so::<S>(alloc, limit, bytes, length, whole.as_str())? {
            return format!(in alloc; "differs at {length}");
        }
    }
    Ok(whole)
}

// The limit in front of a document, and the document.
fn with_limit(text: &str) -> (u64, &str) {
    let (limit, document) = text.split_once(' ').unwrap_or((text, ""));
    (limit.parse::<u64>().unwrap_or(0), document)
}

fn answer<S: Source>(alloc: Global, text: &str) -> Result<String, AllocError> {
    let (limit, document) = with_limit(text);
    let bytes = bytes_of(alloc, document)?;
    read_in_all_ways::<S>(alloc, limit, &bytes)
}

/// The lines of a document.
pub fn lines(alloc: Global, text: &str) -> Result<String, AllocError> {
    answer::<LineSource>(alloc, text)
}

/// The events of a document.
pub fn events(alloc: Global, text: &str) -> Result<String, AllocError> {
    answer::<EventSource>(alloc, text)
}

/// The first fault among the lines of a document, as it is shown.
pub fn fault(alloc: Global, text: &str) -> Result<String, AllocError> {
    let (limit, document) = with_limit(text);
    let bytes = bytes_of(alloc, document)?;
    first_fault(alloc, limit, &bytes)
}
