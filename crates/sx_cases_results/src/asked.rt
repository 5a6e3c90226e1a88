// Results from requests, and what is given of them.
use crate::notation::{append_word, chars_of, label_of, show_bytes, text_of};
use std::alloc::{AllocError, Global};
use std::str;
use sx_atoms::Text;
use sx_build::{Builder, Raw};
use sx_lines::append;
use sx_names::Names;
use sx_tree::Attr;

// An attribute that a case writes as `NAME=VALUE`.
fn attr_of(alloc: Global, names: &mut Names, text: &str) -> Result<Attr, AllocError> {
    let (name, value) = text.split_once('=').unwrap_or((text, ""));
    Ok(Attr {
        label: label_of(alloc, names, name)?,
        value: chars_of(alloc, value)?,
    })
}

// An instruction that a case writes as `TARGET CONTENT`.
fn instruction_of(alloc: Global, text: &str) -> Result<Raw, AllocError> {
    let (target, content) = text.split_once(' ').unwrap_or((text, ""));
    Ok(Raw::Pi {
        target: chars_of(alloc, target)?,
        content: chars_of(alloc, content)?,
    })
}

// A request that a case writes as `(NAME`, `@NAME=VALUE`, `#ATOM`, `?TARGET CONTENT`, `-TEXT` or `)`.
fn raw_of(alloc: Global, names: &mut Names, text: &str) -> Result<Raw, AllocError> {
    if let Some(name) = text.strip_prefix('(') {
        return Ok(Raw::Start(label_of(alloc, names, name)?));
    }
    if let Some(attr) = text.strip_prefix('@') {
        return Ok(Raw::Attr(attr_of(alloc, names, attr)?));
    }
    if let Some(atom) = text.strip_prefix('#') {
        let print = text_of(alloc, atom)?;
        return Ok(Raw::Atom(Text::from_string(print)));
    }
    if let Some(instruction) = text.strip_prefix('?') {
        return instruction_of(alloc, instruction);
    }
    match text.strip_prefix('-') {
        Some(text) => Ok(Raw::Text(chars_of(alloc, text)?)),
        None => Ok(Raw::End),
    }
}

// A table of names, and a result that is asked for.
#[derive(Drop)]
struct Asked {
    alloc: Global,
    names: Names,
    builder: Builder,
}

impl Asked {
    fn new(alloc: Global) -> Asked {
        Asked {
            alloc,
            names: sx_names::new(alloc),
            builder: Builder::new(alloc),
        }
    }

    // Makes a request. An error is an answer.
    fn ask(&mut self, out: &mut String, request: &str) -> Result<(), AllocError> {
        let raw = raw_of(self.alloc, &mut self.names, request)?;
        let copy = Raw::copy(self.alloc, &raw)?;
        match self.builder.push(copy, &self.names)? {
            Ok(()) => Ok(()),
            Err(code) => append_word(out, str::from_utf8(&code.text()).unwrap_or("?")),
        }
    }

    // Takes what is given, each event printed by itself.
    fn take(&mut self, out: &mut String) -> Result<(), AllocError> {
        let mut bytes = Vec::new(self.alloc);
        for event in self.builder.output() {
            append(&mut bytes, false, event)?;
        }
        self.builder.clear_output();
        append_word(out, "")?;
        show_bytes(out, &bytes)
    }

    // Takes what is given at the end.
    fn take_last(&mut self, out: &mut String) -> Result<(), AllocError> {
        self.builder.finish();
        self.take(out)
    }

    fn ask_all(&mut self, requests: &str) -> Result<String, AllocError> {
        let mut out = String::new(self.alloc);
        for request in requests.split(" | ") {
            self.ask(&mut out, request)?;
        }
        self.take_last(&mut out)?;
        Ok(out)
    }

    fn ask_each(&mut self, requests: &str) -> Result<String, AllocError> {
        let mut out = String::new(self.alloc);
        for request in requests.split(" | ") {
            self.ask(&mut out, request)?;
            self.take(&mut out)?;
        }
        self.take_last(&mut out)?;
        Ok(out)
    }
}

/// The errors that requests are answered with, and then all that is given.
pub fn at_the_end(alloc: Global, text: &str) -> Result<String, AllocError> {
    let mut asked = Asked::new(alloc);
    asked.ask_all(text)
}

/// What is given behind each request, with its error in front, and at the end.
pub fn step_by_step(alloc: Global, text: &str) -> Result<String, AllocError> {
    let mut asked = Asked::new(alloc);
    asked.ask_each(text)
}
