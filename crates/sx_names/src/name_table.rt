// Names and their numbers. A name is kept as the numbers of its two texts, so that a look-up copies nothing.
ghost use Rattle.std.specs.Prelude.{◌≡◌, ℕ, Ok, ◌<◌, ◌↔◌, nat_lt, [], length, slice_get};
ghost use Rattle.std.specs.Prelude.{Some, IfSome, IfNone, IfOk, OnErr, MatchResult};
ghost use Rattle.sx_names.specs.Numbering.{IsDistinct, IsAbsent, KeepsPlaces, GetsNumber, uri_at, local_at};

use crate::text_table::Texts;
use indexmap::IndexSet;
use std::alloc::{AllocError, Global};
use std::marker::Model;

/// A name by the numbers of its namespace URI and its local name.
#[doc(hidden)]
#[derive(Clone, Copy, PartialEq, Eq, Hash)]
pub struct Parts {
    pub uri: usize,
    pub local: usize,
}

/// Names, each once, numbered from 0 without gaps in the order in which they were first seen.
///
/// A contract sees the list of the names, each the bytes of its namespace URI and of its local name, at the place that is its
/// number.
#[derive(Drop)]
pub struct Names {
    uris: Texts,
    locals: Texts,
    parts: IndexSet<Parts>,
}

impl Model for Names {
    ghost use Rattle.sx_names.specs.Inside.{entries_of, AreNames};
    ghost use Rattle.sx_names.specs.Numbering.{NameTable};

    ghost Value = { NameTable };

    ghost view = { λ n. entries_of n.uris n.locals n.parts.keys };

    ghost invariant = { λ n. AreNames n.uris n.locals n.parts.keys };
}

/// No names yet. Nothing is allocated before the first name.
pub fn new(alloc: Global) -> Names
    ensures { result ≡ [] }
{
    Names {
        uris: Texts::new(alloc),
        locals: Texts::new(alloc),
        parts: IndexSet::new(alloc),
    }
}

impl Names {
    /// The number of the name, which is the next free one if the name is new. A name that is there needs no memory.
    pub fn intern(&mut self, uri: &str, local: &str) -> Result<u64, AllocError>
        ensures numbered { IfOk result (λ n. GetsNumber self.old (uri.now, local.now) n self.new) }
        ensures known { (n : ℕ) → slice_get self.old n ≡ Some (uri.now, local.now) → result ≡ Ok n }
        ensures placed { IfOk result (λ n. slice_get self.new n ≡ Some (uri.now, local.now)) }
        ensures within { IfOk result (λ n. n < length self.new) }
        ensures kept { KeepsPlaces self.old self.new }
        ensures distinct { IsDistinct self.new }
        ensures err { OnErr result (self.new ≡ self.old) }
    {
        match self.find(uri, local) {
            Some(number) => Ok(number),
            None => self.add(uri, local),
        }
    }

    // Gives a new name the next free number.
    fn add(&mut self, uri: &str, local: &str) -> Result<u64, AllocError>
        requires { IsAbsent self.old (uri.now, local.now) }
        ensures { MatchResult result (λ n. GetsNumber self.old (uri.now, local.now) n self.new)
            (λ _. self.new
            ≡ self.old) }
    {
        let uri = self.uris.hold(uri)?;
        let local = self.locals.hold(local)?;
        let number = self.parts.len();
        self.parts.insert(Parts { uri, local })?;
        Ok(number as u64)
    }

    /// The number of the name, or `None` where the name has none.
    pub fn find(&self, uri: &str, local: &str) -> Option<u64>
        ensures found { (n : ℕ)
            → (result ≡ Some n) ↔ (slice_get self.now n ≡ Some (uri.now, local.now)) }
        ensures within { IfSome result (λ n. n < length self.now) }
        ensures absent { IfNone result (IsAbsent self.now (uri.now, local.now)) }
        ensures distinct { IsDistinct self.now }
    {
        let uri = self.uris.number(uri)?;
        let local = self.locals.number(local)?;
        let number = self.parts.get_index_of(&Parts { uri, local })?;
        Some(number as u64)
    }

    /// A law of every table, which costs nothing: each name is there once.
    pub fn each_once(&self)
        ensures { IsDistinct self.now }
    {
        let _parts = &self.parts;
    }

    /// Whether a name has this number: whether it is below the number of names.
    pub fn has(&self, number: u64) -> bool
        ensures { result ≡ nat_lt number (length self.now) }
    {
        number < self.parts.len() as u64
    }

    /// The namespace URI of the name with this number, which is the empty text for a name in no namespace.
    pub fn uri(&self, number: u64) -> &str
        requires { number < length self.now }
        ensures { result.now ≡ uri_at self.now number }
    {
        let uri = self.parts.as_slice()[number as usize].uri;
        self.uris.text(uri)
    }

    /// The local name of the name with this number.
    pub fn local(&self, number: u64) -> &str
        requires { number < length self.now }
        ensures { result.now ≡ local_at self.now number }
    {
        let local = self.parts.as_slice()[number as usize].local;
        self.locals.text(local)
    }
}
