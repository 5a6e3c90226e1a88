// Atoms: numbers, texts and truth values.
ghost use Rattle.std.specs.Prelude.{◌≡◌, [], IfOk, string_bytes};

use sqlite_items::Items;
use std::alloc::{AllocError, Global};
use std::marker::Model;

/// A text of its own. Contracts see the list of its bytes.
#[derive(Drop)]
pub struct Text {
    inner: String,
}

impl Model for Text {
    ghost use Rattle.std.specs.Prelude.{List, ℕ, string_bytes};

    ghost Value = { List ℕ };

    ghost view = { λ t. string_bytes t.inner };
}

impl Text {
    /// The empty text. It takes no memory.
    pub fn new(alloc: Global) -> Text
        ensures { result ≡ [] }
    {
        Text {
            inner: String::new(alloc),
        }
    }

    /// A copy of a text.
    pub fn copy(alloc: Global, s: &str) -> Result<Text, AllocError>
        ensures { IfOk result (λ t. t ≡ s.now) }
    {
        Ok(Text {
            inner: String::from_str(alloc, s)?,
        })
    }

    /// A text that is there already. It takes no memory.
    pub fn from_string(text: String) -> Text
        ensures { result ≡ string_bytes text }
    {
        Text { inner: text }
    }

    /// The text.
    pub fn as_str(&self) -> &str
        ensures { result.now ≡ self.now }
    {
        self.inner.as_str()
    }
}

/// A decimal number, as a count of units of 10^-9: `Dec(1)` is 0.000000001.
#[derive(Clone, Copy, Debug, PartialEq, Eq)]
pub struct Dec(pub i128);

/// An atomic value (XDM 3.1, 2.8.4): an integer, a decimal, a string, a truth value, or the text of a node, which has no
/// type of its own.
#[derive(Drop)]
pub enum Atom {
    Int(i128),
    Dec(Dec),
    Str(Text),
    Bool(bool),
    Untyped(Text),
}

/// The type of an atom: `xs:integer`, `xs:decimal`, `xs:string`, `xs:boolean` and `xs:untypedAtomic`.
#[derive(Clone, Copy, Debug, PartialEq, Eq)]
pub enum AtomType {
    Integer,
    Decimal,
    Str,
    Boolean,
    Untyped,
}

/// Atoms one behind another: the value of one argument.
pub type Atoms = Items<Atom>;

/// The values of a call's arguments, in their order.
pub type Args = Items<Atoms>;

impl Atom {
    /// A copy of an atom.
    pub fn copy(alloc: Global, atom: &Atom) -> Result<Atom, AllocError>
        ensures { IfOk result (λ a. a ≡ atom.now) }
    {
        match atom {
            Atom::Int(n) => Ok(Atom::Int(*n)),
            Atom::Dec(d) => Ok(Atom::Dec(*d)),
            Atom::Str(text) => Ok(Atom::Str(Text::copy(alloc, text.as_str())?)),
            Atom::Bool(b) => Ok(Atom::Bool(*b)),
            Atom::Untyped(text) => Ok(Atom::Untyped(Text::copy(alloc, text.as_str())?)),
        }
    }
}
