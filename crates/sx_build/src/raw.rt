// What is asked for in turn.
ghost use Rattle.std.specs.Prelude.{◌≡◌, IfOk};

use sqlite_items::Items;
use std::alloc::{AllocError, Global};
use sx_atoms::Text;
use sx_tree::{Attr, Chars, Label};

/// What comes next in a result.
#[derive(Drop)]
pub enum Raw {
    /// an element begins
    Start(Label),
    /// the innermost open element ends
    End,
    /// an attribute of the element that has just begun
    Attr(Attr),
    /// a text, which may be empty
    Text(Chars),
    /// an atom, by its print
    Atom(Text),
    /// a processing instruction
    Pi { target: Chars, content: Chars },
}

/// What comes in a result, in order.
pub type Raws = Items<Raw>;

impl Raw {
    /// A copy of what comes next.
    pub fn copy(alloc: Global, raw: &Raw) -> Result<Raw, AllocError>
        ensures { IfOk result (λ r. r ≡ raw.now) }
    {
        match raw {
            Raw::Start(label) => Ok(Raw::Start(Label::copy(alloc, label)?)),
            Raw::End => Ok(Raw::End),
            Raw::Attr(attr) => Ok(Raw::Attr(Attr::copy(alloc, attr)?)),
            Raw::Text(text) => Ok(Raw::Text(Chars::copy(alloc, text.as_str())?)),
            Raw::Atom(text) => Ok(Raw::Atom(Text::copy(alloc, text.as_str())?)),
            Raw::Pi { target, content } => Ok(Raw::Pi {
                target: Chars::copy(alloc, target.as_str())?,
                content: Chars::copy(alloc, content.as_str())?,
            }),
        }
    }
}
