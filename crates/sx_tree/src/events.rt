// Events of a document, which are plain data, and their copies.
ghost use Rattle.std.specs.Prelude.{◌≡◌, IfOk};

use crate::Chars;
use sqlite_items::Items;
use std::alloc::{AllocError, Global};

/// A name: the number of its expanded name, and its prefix, which is empty where it has none.
#[derive(Drop)]
pub struct Label {
    pub number: u64,
    pub prefix: Chars,
}

/// An attribute and its value.
#[derive(Drop)]
pub struct Attr {
    pub label: Label,
    pub value: Chars,
}

/// A namespace declaration. The prefix is empty for the default namespace.
#[derive(Drop)]
pub struct Space {
    pub prefix: Chars,
    pub uri: Chars,
}

/// The attributes of an element, in document order.
pub type Attrs = Items<Attr>;

/// The namespace declarations of an element.
pub type Spaces = Items<Space>;

/// What happens next in a document.
#[derive(Drop)]
pub enum Event {
    /// an element begins
    Start {
        label: Label,
        attrs: Attrs,
        spaces: Spaces,
    },
    /// the innermost open element ends
    End,
    /// a text, which is not empty
    Text(Chars),
    /// a processing instruction
    Pi {
        target: Chars,
        content: Chars,
    },
    /// the input has ended well
    Close,
}

impl Label {
    /// A copy of a name.
    pub fn copy(alloc: Global, label: &Label) -> Result<Label, AllocError>
        ensures { IfOk result (λ l. l ≡ label.now) }
    {
        Ok(Label {
            number: label.number,
            prefix: Chars::copy(alloc, label.prefix.as_str())?,
        })
    }
}

impl Attr {
    /// A copy of an attribute.
    pub fn copy(alloc: Global, attr: &Attr) -> Result<Attr, AllocError>
        ensures { IfOk result (λ a. a ≡ attr.now) }
    {
        Ok(Attr {
            label: Label::copy(alloc, &attr.label)?,
            value: Chars::copy(alloc, attr.value.as_str())?,
        })
    }
}

impl Space {
    /// A copy of a namespace declaration.
    pub fn copy(alloc: Global, space: &Space) -> Result<Space, AllocError>
        ensures { IfOk result (λ s. s ≡ space.now) }
    {
        Ok(Space {
            prefix: Chars::copy(alloc, space.prefix.as_str())?,
            uri: Chars::copy(alloc, space.uri.as_str())?,
        })
    }
}

/// A copy of the attributes of an element.
pub fn copy_attrs(alloc: Global, attrs: &Attrs) -> Result<Attrs, AllocError>
    ensures { IfOk result (λ copy. copy ≡ attrs.now) }
{
    let mut copy = Items::new(alloc);
    for attr in attrs.as_slice() {
        copy.push(Attr::copy(alloc, attr)?)?;
    }
    Ok(copy)
}

/// A copy of the namespace declarations of an element.
pub fn copy_spaces(alloc: Global, spaces: &Spaces) -> Result<Spaces, AllocError>
    ensures { IfOk result (λ copy. copy ≡ spaces.now) }
{
    let mut copy = Items::new(alloc);
    for space in spaces.as_slice() {
        copy.push(Space::copy(alloc, space)?)?;
    }
    Ok(copy)
}

impl Event {
    /// A copy of an event.
    pub fn copy(alloc: Global, event: &Event) -> Result<Event, AllocError>
        ensures { IfOk result (λ e. e ≡ event.now) }
    {
        match event {
            Event::Start {
                label,
                attrs,
                spaces,
            } => Ok(Event::Start {
                label: Label::copy(alloc, label)?,
                attrs: copy_attrs(alloc, attrs)?,
                spaces: copy_spaces(alloc, spaces)?,
            }),
            Event::End => Ok(Event::End),
            Event::Text(text) => Ok(Event::Text(Chars::copy(alloc, text.as_str())?)),
            Event::Pi { target, content } => Ok(Event::Pi {
                target: Chars::copy(alloc, target.as_str())?,
                content: Chars::copy(alloc, content.as_str())?,
            }),
            Event::Close => Ok(Event::Close),
        }
    }
}
