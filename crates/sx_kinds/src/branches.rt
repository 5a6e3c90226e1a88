// Lists of what may hold such lists.
ghost use Rattle.std.specs.Prelude.{◌≡◌, ◌<◌, [], ◌∷◌, ◌++◌, length, slice_index_or};
ghost use Rattle.std.specs.Prelude.{slice_set, IsTrue, ◌↔◌, MatchOption, OnOk, OnErr};
ghost use Rattle.std.specs.Borrow.{sem};
ghost use Rattle.sx_kinds.specs.Lending.{LendsPart};

use std::alloc::{AllocError, Global};
use std::marker::Model;

/// What hangs below a value of a tree: a list, which contracts see as that. Its drop is a call of its own, so that a tree's own
/// drop may take the list apart and be a loop.
pub struct Branches<T> {
    items: Vec<T>,
}

impl<T: Drop> Drop for Branches<T> {
    fn drop(self) {
        let Branches { items: _ } = self;
    }
}

impl<T> Model for Branches<T> {
    ghost use Rattle.std.specs.Prelude.{List};
    ghost use Rattle.std.specs.Coded.{coded_list};

    ghost Value = { List T };

    ghost coded = { coded_list T.code };

    ghost view = { λ branches. branches.items.items };
}

impl<T> Branches<T> {
    /// Nothing.
    pub fn new(alloc: Global) -> Branches<T>
        ensures { result ≡ [] }
    {
        Branches {
            items: Vec::new(alloc),
        }
    }

    /// The items, in their order.
    pub fn as_slice(&self) -> &[T]
        ensures { result.now ≡ self.now }
    {
        self.items.as_slice()
    }

    /// How many there are.
    pub fn len(&self) -> usize
        ensures { result ≡ length self.now }
    {
        self.items.len()
    }

    /// Whether there are none.
    pub fn is_empty(&self) -> bool
        ensures { IsTrue result ↔ (self.now ≡ []) }
    {
        self.items.is_empty()
    }

    /// Takes the last one off.
    pub fn pop(&mut self) -> Option<T>
        ensures { MatchOption result ((self.old ≡ []) × (self.new ≡ []))
            (λ last. self.old ≡ self.new ++ last ∷ []) }
    {
        self.items.pop()
    }

    /// Lends one, by its place from 0, to be changed where it stands.
    pub fn part_mut(&mut self, place: usize) -> &mut T
        requires { place < length self.old }
        ensures* writes_back { sem 𝓛 (LendsPart T.row self.entry place result) }
        ensures value { result.now ≡ slice_index_or self.old place result.now }
    {
        &mut self.items[place]
    }
}

impl<T: Drop> Branches<T> {
    /// Puts one behind the others. After an `AllocError` nothing has changed.
    pub fn push(&mut self, item: T) -> Result<(), AllocError>
        ensures ok { OnOk result (self.new ≡ self.old ++ item ∷ []) }
        ensures err { OnErr result (self.new ≡ self.old) }
    {
        self.items.push(item)?;
        Ok(())
    }
}
