// Events as they are printed, and printed results as they are read back.
use crate::notation::{bytes_of, chars_of, show, show_bytes};
use sqlite_items::Items;
use std::alloc::{AllocError, Global};
use sx_lines::{Built, Builts, Pair, Pairs, append, ending, ending_len, print, read_back};

// An attribute that a case writes as `NAME=VALUE`.
fn pair_of(alloc: Global, word: &str) -> Result<Pair, AllocError> {
    let (name, value) = word.split_once('=').unwrap_or((word, ""));
    Ok(Pair {
        name: chars_of(alloc, name)?,
        value: chars_of(alloc, value)?,
    })
}

// The attributes that a case writes with spaces between them.
fn pairs_of(alloc: Global, words: &str) -> Result<Pairs, AllocError> {
    let mut pairs = Items::new(alloc);
    for word in words.split_whitespace() {
        pairs.push(pair_of(alloc, word)?)?;
    }
    Ok(pairs)
}

// An event that a case writes as `(NAME NAME=VALUE ..`, `)NAME`, `?TARGET CONTENT` or `-TEXT`.
fn event_of(alloc: Global, text: &str) -> Result<Built, AllocError> {
    if let Some(rest) = text.strip_prefix('(') {
        let (name, words) = rest.split_once(' ').unwrap_or((rest, ""));
        let name = chars_of(alloc, name)?;
        let pairs = pairs_of(alloc, words)?;
        return Ok(Built::Start { name, pairs });
    }
    if let Some(name) = text.strip_prefix(')') {
        let name = chars_of(alloc, name)?;
        return Ok(Built::End { name });
    }
    if let Some(rest) = text.strip_prefix('?') {
        let (target, content) = rest.split_once(' ').unwrap_or((rest, ""));
        let target = chars_of(alloc, target)?;
        let content = chars_of(alloc, content)?;
        return Ok(Built::Pi { target, content });
    }
    let text = text.strip_prefix('-').unwrap_or(text);
    Ok(Built::Text(chars_of(alloc, text)?))
}

// What has been printed: as answers show it, event by event, and all in one.
#[derive(Drop)]
struct Printing {
    alloc: Global,
    out: String,
    parts: Vec<u8>,
    all: Vec<u8>,
    after_text: bool,
}

impl Printing {
    fn add(&mut self, event: &Built) -> Result<(), AllocError> {
        let part = print(self.alloc, self.after_text, event)?;
        append(&mut self.all, self.after_text, event)?;
        self.parts.extend_from_slice(&part)?;
        self.after_text = matches!(event, Built::Text(_));
        show_bytes(&mut self.out, &part)?;
        self.out.push(' ')
    }

    fn finish(self) -> Result<String, AllocError> {
        let Printing {
            alloc: _,
            mut out,
            parts,
            all,
            after_text,
        } = self;
        show_bytes(&mut out, &ending(after_text)[..ending_len(after_text)])?;
        if parts.as_slice() != all.as_slice() {
            out.push_str(" differs")?;
        }
        Ok(out)
    }
}

/// The bytes that each event adds to a result, and those that end it.
pub fn printed(alloc: Global, text: &str) -> Result<String, AllocError> {
    let mut printing = Printing {
        alloc,
        out: String::new(alloc),
        parts: Vec::new(alloc),
        all: Vec::new(alloc),
        after_text: false,
    };
    for step in text.split(" | ") {
        printing.add(&event_of(alloc, step)?)?;
    }
    printing.finish()
}

// Appends attributes, each behind a space.
fn show_pairs(out: &mut String, pairs: &[Pair]) -> Result<(), AllocError> {
    for pair in pairs {
        out.push(' ')?;
        show(out, pair.name.as_str())?;
        out.push('=')?;
        show(out, pair.value.as_str())?;
    }
    Ok(())
}

// Appends an event much as XML writes it.
fn show_event(out: &mut String, event: &Built) -> Result<(), AllocError> {
    match event {
        Built::Start { name, pairs } => {
            out.push('<')?;
            show(out, name.as_str())?;
            show_pairs(out, pairs.as_slice())?;
            out.push('>')
        }
        Built::End { name } => {
            out.push_str("</")?;
            show(out, name.as_str())?;
            out.push('>')
        }
        Built::Text(text) => show(out, text.as_str()),
        Built::Pi { target, content } => {
            out.push_str("<?")?;
            show(out, target.as_str())?;
            out.push('|')?;
            show(out, content.as_str())?;
            out.push('>')
        }
    }
}

fn shown(alloc: Global, events: &Builts) -> Result<String, AllocError> {
    let mut out = String::from_str(alloc, "[")?;
    for event in events.as_slice() {
        show_event(&mut out, event)?;
    }
    out.push(']')?;
    Ok(out)
}

/// The events that bytes are read back to.
pub fn read(alloc: Global, text: &str) -> Result<String, AllocError> {
    let bytes = bytes_of(alloc, text)?;
    match read_back(alloc, &bytes)? {
        Some(events) => shown(alloc, &events),
        None => String::from_str(alloc, "none"),
    }
}
