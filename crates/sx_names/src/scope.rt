// The namespace bindings in force.
ghost use Rattle.std.specs.Prelude.{◌≡◌, ◌<◌, [], ◌∷◌, length, drop, OnOk, OnErr};
ghost use Rattle.std.specs.Option.{option_copied};
ghost use Rattle.sx_names.specs.Scope.{bound, bound_at_first, declared_in};

use crate::bindings::Bindings;
use std::alloc::{AllocError, Global};
use std::marker::Model;

/// The namespace bindings in force (Namespaces in XML 1.0, 6): those that the open elements declare, and around them that
/// of `xml` and that of the empty prefix to no namespace.
///
/// A contract sees the declarations of each element that was entered and not left, each the bytes of its prefix and of its
/// URI: the innermost element first, and of each element the last declaration first.
#[derive(Drop)]
pub struct Scope {
    bindings: Bindings,
    // for each element, the outermost first, how many bindings there were when it was entered
    begins: Vec<usize>,
}

impl Model for Scope {
    ghost use Rattle.std.specs.Prelude.{reverse};
    ghost use Rattle.sx_names.specs.Bindings.{elements_of, AreElements};
    ghost use Rattle.sx_names.specs.Scope.{ScopeBindings};

    ghost Value = { ScopeBindings };

    ghost view = { λ s. elements_of (reverse s.begins.items) s.bindings };

    ghost invariant = { λ s. AreElements (reverse s.begins.items) s.bindings };
}

// What a prefix is bound to where nothing is declared.
fn bound_without_declaration(prefix: &str) -> Option<&'static str>
    ensures { option_copied result ≡ bound_at_first prefix.now }
{
    if prefix == "xml" {
        return Some("http://www.w3.org/XML/1998/namespace");
    }
    if prefix.is_empty() {
        return Some("");
    }
    None
}

impl Scope {
    /// No element is entered. Nothing is allocated before the first.
    pub fn new(alloc: Global) -> Scope
        ensures { result ≡ [] }
    {
        Scope {
            bindings: Bindings::new(alloc),
            begins: Vec::new(alloc),
        }
    }

    /// Enters an element, which declares nothing yet.
    pub fn enter(&mut self) -> Result<(), AllocError>
        ensures ok { OnOk result (self.new ≡ [] ∷ self.old) }
        ensures err { OnErr result (self.new ≡ self.old) }
    {
        self.begins.push(self.bindings.len())?;
        Ok(())
    }

    /// Binds a prefix to a URI in the innermost element. The empty prefix is that of the default namespace, and the empty
    /// URI takes a binding back.
    pub fn declare(&mut self, prefix: &str, uri: &str) -> Result<(), AllocError>
        requires { 0 < length self.old }
        ensures ok { OnOk result (self.new ≡ declared_in prefix.now uri.now self.old) }
        ensures err { OnErr result (self.new ≡ self.old) }
    {
        self.bindings.push(prefix, uri)
    }

    /// Leaves the innermost element: its bindings are no more, and those that they hid are in force again.
    pub fn leave(&mut self)
        requires { 0 < length self.old }
        ensures { self.new ≡ drop 1 self.old }
    {
        let begin = self.begins.pop().unwrap_or(0);
        while self.bindings.len() > begin {
            self.bindings.pop();
        }
    }

    /// The URI to which a prefix is bound, which is the empty text for no namespace, or `None` where it is not bound.
    pub fn lookup(&self, prefix: &str) -> Option<&str>
        ensures { option_copied result ≡ bound self.now prefix.now }
    {
        match self.bindings.find(prefix) {
            Some(uri) => Some(uri),
            None => bound_without_declaration(prefix),
        }
    }
}
