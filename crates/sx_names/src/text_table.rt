// Texts and their numbers.
ghost use Rattle.std.specs.Prelude.{◌≡◌, ◌<◌, [], ◌∷◌, length, slice_get, Some, IfSome};
ghost use Rattle.std.specs.Prelude.{IfNone, IfOk, OnErr, MatchResult};
ghost use Rattle.sx_names.specs.Numbering.{IsDistinct, IsAbsent, KeepsPlaces, GetsNumber};

use indexmap::IndexSet;
use std::alloc::{AllocError, Global};
use std::marker::Model;

/// Texts, each once, numbered in the order in which they were first seen. The empty text is always there, as number 0.
///
/// A contract sees the list of the texts' bytes.
#[derive(Drop)]
pub struct Texts {
    others: IndexSet<String>,
}

impl Model for Texts {
    ghost use Rattle.std.specs.Prelude.{ℕ, List};
    ghost use Rattle.sx_names.specs.Numbering.{IsDistinct};
    ghost use Rattle.sx_names.specs.Inside.{texts_of};

    ghost Value = { List (List ℕ) };

    ghost view = { λ t. texts_of t.others.keys };

    ghost invariant = { λ t. IsDistinct (texts_of t.others.keys) };
}

impl Texts {
    /// The empty text alone.
    pub fn new(alloc: Global) -> Texts
        ensures { result ≡ [] ∷ [] }
    {
        Texts {
            others: IndexSet::new(alloc),
        }
    }

    /// The number of the text, or `None` where it is not there.
    pub fn number(&self, text: &str) -> Option<usize>
        ensures found { IfSome result (λ n. slice_get self.now n ≡ Some text.now) }
        ensures absent { IfNone result (IsAbsent self.now text.now) }
        ensures distinct { IsDistinct self.now }
    {
        // There are fewer than 2^63, so the number after a place fits.
        let count = self.others.len();
        if text.is_empty() {
            return Some(0);
        }
        let place = self.others.get_index_of(text)?;
        prove!(place < count);
        Some(place + 1)
    }

    /// The number of the text, which is added if it is not there.
    pub fn hold(&mut self, text: &str) -> Result<usize, AllocError>
        ensures numbered { IfOk result (λ n. GetsNumber self.old text.now n self.new) }
        ensures placed { IfOk result (λ n. slice_get self.new n ≡ Some text.now) }
        ensures kept { KeepsPlaces self.old self.new }
        ensures distinct { IsDistinct self.new }
        ensures err { OnErr result (self.new ≡ self.old) }
    {
        match self.number(text) {
            Some(number) => Ok(number),
            None => self.add(text),
        }
    }

    // Adds a text that is not there.
    fn add(&mut self, text: &str) -> Result<usize, AllocError>
        requires { IsAbsent self.old text.now }
        ensures { MatchResult result (λ n. GetsNumber self.old text.now n self.new) (λ _. self.new
            ≡ self.old) }
    {
        let owned = String::from_str(*self.others.allocator(), text)?;
        let number = self.others.len() + 1;
        self.others.insert(owned)?;
        Ok(number)
    }

    /// The text with this number.
    pub fn text(&self, number: usize) -> &str
        requires { number < length self.now }
        ensures { slice_get self.now number ≡ Some result.now }
    {
        let others = self.others.as_slice();
        if number == 0 {
            return "";
        }
        others[number - 1].as_str()
    }
}
