// Pairs of a prefix and a URI, of which the last of each prefix is found without a search.
ghost use Rattle.std.specs.Prelude.{◌≡◌, ℕ, ◌<◌, [], ◌∷◌, length, drop, slice_index_or};
ghost use Rattle.std.specs.Prelude.{None, OnOk, OnErr};
ghost use Rattle.std.specs.Option.{option_copied};
ghost use Rattle.sx_names.specs.Scope.{bound_in};

use crate::text_table::Texts;
use std::alloc::{AllocError, Global};
use std::marker::Model;

/// A prefix by its number, the URI that it is bound to, and the place of the binding that this one hides.
#[doc(hidden)]
#[derive(Drop)]
pub struct Binding {
    pub prefix: usize,
    pub uri: String,
    pub hidden: Option<usize>,
}

/// Bindings of prefixes, one behind the other.
///
/// A contract sees the list of the pairs of a prefix and a URI, the last first.
#[derive(Drop)]
pub struct Bindings {
    prefixes: Texts,
    // for the number of a prefix, the place of its last binding
    in_force: Vec<Option<usize>>,
    bindings: Vec<Binding>,
}

impl Model for Bindings {
    ghost use Rattle.sx_names.specs.Bindings.{pairs_of, AreBindings};
    ghost use Rattle.sx_names.specs.Scope.{Declarations};

    ghost Value = { Declarations };

    ghost view = { λ b. pairs_of b.prefixes b.bindings.items };

    ghost invariant = { λ b. AreBindings b.prefixes b.in_force.items b.bindings.items };
}

// The place that stands for a number, if one does.
fn place_of(in_force: &[Option<usize>], number: usize) -> Option<usize>
    ensures { result ≡ slice_index_or in_force.now number None }
{
    match in_force.get(number) {
        Some(place) => *place,
        None => None,
    }
}

// Makes room for a number, for which no place stands yet.
fn cover(in_force: &mut Vec<Option<usize>>, number: usize) -> Result<(), AllocError>
    ensures same { (n : ℕ)
        → slice_index_or in_force.new.items n None ≡ slice_index_or in_force.old.items n None }
    ensures room { OnOk result (number < length in_force.new.items) }
{
    while in_force.len() <= number {
        in_force.push(None)?;
    }
    Ok(())
}

impl Bindings {
    /// No bindings. Nothing is allocated before the first.
    pub fn new(alloc: Global) -> Bindings
        ensures { result ≡ [] }
    {
        Bindings {
            prefixes: Texts::new(alloc),
            in_force: Vec::new(alloc),
            bindings: Vec::new(alloc),
        }
    }

    /// The number of bindings.
    pub fn len(&self) -> usize
        ensures { result ≡ length self.now }
    {
        self.bindings.len()
    }

    /// Puts a binding behind the others.
    pub fn push(&mut self, prefix: &str, uri: &str) -> Result<(), AllocError>
        ensures ok { OnOk result (self.new ≡ (prefix.now, uri.now) ∷ self.old) }
        ensures err { OnErr result (self.new ≡ self.old) }
    {
        let uri = String::from_str(*self.bindings.allocator(), uri)?;
        let prefix = self.prefixes.hold(prefix)?;
        cover(&mut self.in_force, prefix)?;
        let hidden = self.in_force[prefix];
        let place = self.bindings.len();
        self.bindings.push(Binding {
            prefix,
            uri,
            hidden,
        })?;
        self.in_force[prefix] = Some(place);
        Ok(())
    }

    /// Takes the last binding away, if there is one.
    pub fn pop(&mut self)
        ensures { self.new ≡ drop 1 self.old }
    {
        match self.bindings.pop() {
            Some(binding) => self.in_force[binding.prefix] = binding.hidden,
            None => {}
        }
    }

    /// The URI of the last binding of a prefix, or `None` where there is none.
    pub fn find(&self, prefix: &str) -> Option<&str>
        ensures { option_copied result ≡ bound_in self.now prefix.now }
    {
        let number = self.prefixes.number(prefix)?;
        let place = place_of(&self.in_force, number)?;
        Some(self.bindings[place].uri.as_str())
    }
}
