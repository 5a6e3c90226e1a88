// Events as rows write them: `(xsl:mode streamable=yes` with attributes behind the name, `)`, `-text`, `?target` and `C`.
use crate::texts::text_of;
use sqlite_items::Items;
use std::alloc::{AllocError, Global};
use sx_names::Names;
use sx_tree::{Attr, Attrs, Chars, Event, Label};

const XSLT: &str = "http://www.w3.org/1999/XSL/Transform";

// The namespace of a prefix, or this one where there is no prefix.
fn uri_of<'a>(prefix: &str, otherwise: &'a str) -> &'a str {
    match prefix {
        "" => otherwise,
        "xsl" => XSLT,
        "t" => XSLT,
        _ => "urn:n",
    }
}

// A name, which is in this namespace where it has no prefix.
fn label(
    alloc: Global,
    names: &mut Names,
    name: &str,
    otherwise: &str,
) -> Result<Label, AllocError> {
    let (prefix, local) = name.split_once(':').unwrap_or(("", name));
    Ok(Label {
        number: names.intern(uri_of(prefix, otherwise), local)?,
        prefix: Chars::copy(alloc, prefix)?,
    })
}

// An attribute; its value is its name where none is written.
fn attribute(alloc: Global, names: &mut Names, text: &str) -> Result<Attr, AllocError> {
    let (name, value) = text.split_once('=').unwrap_or((text, text));
    Ok(Attr {
        label: label(alloc, names, name, "")?,
        value: Chars::copy(alloc, value)?,
    })
}

fn attributes(alloc: Global, names: &mut Names, texts: &str) -> Result<Attrs, AllocError> {
    let mut attrs = Items::new(alloc);
    for text in texts.split_terminator(' ') {
        if !text.starts_with("xmlns=") {
            attrs.push(attribute(alloc, names, text)?)?;
        }
    }
    Ok(attrs)
}

// The start of an element: its name, its attributes, and as `xmlns` the namespace of a name without prefix.
fn start(alloc: Global, names: &mut Names, text: &str) -> Result<Event, AllocError> {
    let (name, texts) = text.split_once(' ').unwrap_or((text, ""));
    let namespace = texts.strip_prefix("xmlns=").unwrap_or("");
    Ok(Event::Start {
        label: label(alloc, names, name, namespace)?,
        attrs: attributes(alloc, names, texts)?,
        spaces: Items::new(alloc),
    })
}

// A text, in which `\n`, `\t` and `\r` are white space.
fn characters(alloc: Global, text: &str) -> Result<Chars, AllocError> {
    let mut plain = String::new(alloc);
    let mut escaped = false;
    for character in text.chars() {
        match character {
            '\\' => escaped = true,
            'n' if escaped => plain.push('\n')?,
            't' if escaped => plain.push('\t')?,
            'r' if escaped => plain.push('\r')?,
            character => plain.push(character)?,
        }
        escaped = character == '\\';
    }
    Chars::copy(alloc, plain.as_str())
}

/// The event that a text stands for.
pub fn event(alloc: Global, names: &mut Names, text: &str) -> Result<Event, AllocError> {
    if let Some(begun) = text.strip_prefix('(') {
        return start(alloc, names, begun);
    }
    if let Some(said) = text.strip_prefix('-') {
        return Ok(Event::Text(characters(alloc, said)?));
    }
    if let Some(target) = text.strip_prefix('?') {
        return Ok(Event::Pi {
            target: Chars::copy(alloc, target)?,
            content: Chars::new(alloc),
        });
    }
    if text == "C" {
        return Ok(Event::Close);
    }
    Ok(Event::End)
}
