// The open elements of a document.
ghost use Rattle.sx_events.specs.Place.{declared_behind};
ghost use Rattle.std.specs.Prelude.{◌≡◌, ◌<◌, ◌≤◌, [], ◌∷◌, ℕ, List, Bool, length};
ghost use Rattle.std.specs.Prelude.{min, not, nat_lt, false, IsTrue, IsFalse, OnOk};
ghost use Rattle.sx_names.specs.Scope.{ScopeBindings};

use arrayvec::ArrayVec;
use std::alloc::{AllocError, Global};
use sx_names::Scope;
use sx_tree::Space;

/// How many elements there is room for.
const MOST_OPEN: u64 = 200;

/// The open elements: their names as they are written, one behind the other and the innermost last, with the place where
/// each begins, and the namespaces that they declare.
#[doc(hidden)]
#[derive(Drop)]
pub struct Elements {
    text: Vec<u8>,
    starts: ArrayVec<usize, 200>,
    scope: Scope,
    ghost entered: { length starts.items ≤ length scope },
}

impl Elements {
    ghost use Rattle.sx_tree.specs.declared.events.Space.{Space};
    ghost use Rattle.sx_events.specs.Course.{rest_of};
    ghost use Rattle.sx_events.specs.Place.{is_empty, first_is};
    ghost use Rattle.sx_events.specs.Standing.{HoldsOpen};

    /// No element is open.
    pub fn new(alloc: Global) -> Elements
        ensures names { HoldsOpen result [] }
        ensures scope { result.scope ≡ [] }
    {
        Elements {
            text: Vec::new(alloc),
            starts: ArrayVec::new(),
            scope: Scope::new(alloc),
        }
    }

    /// Whether no element is open.
    pub fn is_empty(&self) -> bool
        ensures { (names : List (List ℕ)) → HoldsOpen self.now names → result ≡ is_empty names }
    {
        self.starts.is_empty()
    }

    /// Whether so many elements are open, or as many as there is room for.
    pub fn is_full(&self, depth: u64) -> bool
        ensures is { (names : List (List ℕ)) → HoldsOpen self.now names
            → result ≡ not (nat_lt (length names) (min depth 200)) }
        ensures room { IsFalse result → length self.now.starts.items < 200 }
    {
        self.starts.len() as u64 >= depth.min(MOST_OPEN)
    }

    /// The namespace bindings in force.
    pub fn scope(&self) -> &Scope
        ensures { result.now ≡ self.now.scope }
    {
        &self.scope
    }

    /// What an element that starts declares comes into force.
    pub fn enter(&mut self, spaces: &[Space]) -> Result<(), AllocError>
        ensures scope { OnOk result (self.new.scope ≡ declared_behind [] spaces.now ∷ self.old.scope) }
        ensures text { self.new.text ≡ self.old.text }
        ensures starts { self.new.starts ≡ self.old.starts }
        ensures room { OnOk result (length self.new.starts.items < length self.new.scope) }
    {
        self.scope.enter()?;
        declare(&mut self.scope, spaces)
    }

    /// Opens an element, of which what it declares is in force.
    pub fn push(&mut self, name: &str) -> Result<(), AllocError>
        requires room { length self.old.starts.items < 200 }
        requires entered { length self.old.starts.items < length self.old.scope }
        ensures names { OnOk result ((names : List (List ℕ)) → HoldsOpen self.old names
            → HoldsOpen self.new (name.now ∷ names)) }
        ensures scope { self.new.scope ≡ self.old.scope }
    {
        let start = self.text.len();
        self.text.extend_from_slice(name.as_bytes())?;
        self.starts.push(start);
        Ok(())
    }

    /// Ends the innermost open element, if it has this name, and says whether it has.
    pub fn end(&mut self, name: &str) -> bool
        ensures is { (names : List (List ℕ)) → HoldsOpen self.old names
            → result ≡ first_is names name.now }
        ensures names { IsTrue result → (names : List (List ℕ)) → HoldsOpen self.old names
            → HoldsOpen self.new (rest_of names) }
        ensures scope { IsTrue result → self.new.scope ≡ rest_of self.old.scope }
    {
        let Some(start) = self.starts.pop() else {
            return false;
        };
        if self.text.get(start..) != Some(name.as_bytes()) {
            return false;
        }
        self.text.truncate(start);
        self.scope.leave();
        true
    }
}

// Binds what an element declares.
fn declare(scope: &mut Scope, spaces: &[Space]) -> Result<(), AllocError>
    requires { 0 < length scope.old }
    ensures declared { OnOk result ((around : ScopeBindings) → scope.old ≡ [] ∷ around
        → scope.new ≡ declared_behind [] spaces.now ∷ around) }
    ensures length { length scope.new ≡ length scope.old }
{
    for space in spaces {
        scope.declare(space.prefix.as_str(), space.uri.as_str())?;
    }
    Ok(())
}
