// The attribute lines that wait for the start of their element.
ghost use Rattle.std.specs.Prelude.{◌≡◌, [], ◌∷◌, ◌++◌, ◌≤◌, ℕ, List, length, not};
ghost use Rattle.std.specs.Prelude.{nat_lt, false, true, OnOk, IfOk};
ghost use Rattle.std.specs.Option.{option_copied};
ghost use Rattle.sx_events.specs.Place as place;
ghost use Rattle.sx_events.specs.Place.{Written as Line};

use sqlite_items::Items;
use std::alloc::{AllocError, Global};
use std::marker::Model;
use std::mem;
use sx_chars::split_name;
use sx_tree::{Chars, Space, Spaces};

/// An attribute line: the name as it is written, and the value.
#[doc(hidden)]
#[derive(Drop)]
pub struct Written {
    name: String,
    value: Chars,
}

impl Model for Written {
    ghost use Rattle.std.specs.Prelude.{string_bytes};
    ghost use Rattle.sx_events.specs.Place as place;

    ghost Value = { place.Written };

    ghost view = { λ w. place.written (string_bytes w.name) w.value };
}

impl Written {
    // A line of its own memory.
    fn new(alloc: Global, name: &str, value: Chars) -> Result<Written, AllocError>
        ensures { IfOk result (λ w. w ≡ place.written name.now value) }
    {
        Ok(Written {
            name: String::from_str(alloc, name)?,
            value,
        })
    }

    // Is this line instead.
    fn set(&mut self, name: &str, value: Chars) -> Result<(), AllocError>
        ensures { OnOk result (self.new ≡ place.written name.now value) }
    {
        self.name.clear();
        self.name.push_str(name)?;
        self.value = value;
        Ok(())
    }

    /// Its name as it is written.
    pub fn name(&self) -> &str
        ensures { result.now ≡ self.now.name }
    {
        self.name.as_str()
    }

    /// Takes its value out of it.
    pub fn take_value(&mut self, alloc: Global) -> Chars
        ensures { result ≡ self.old.value }
    {
        mem::replace(&mut self.value, Chars::new(alloc))
    }
}

/// The attribute lines that wait for a start: the namespace declarations, and the others.
#[doc(hidden)]
#[derive(Drop)]
pub struct Attributes {
    /// the others, and behind them some that wait no longer, whose memory is used again
    pub lines: Vec<Written>,
    /// how many others wait
    pub count: usize,
    pub spaces: Spaces,
    /// whether an attribute line waits, be it IMPLIED
    pub is_loose: bool,
    ghost within: { count ≤ length lines.items },
}

// The prefix that an attribute of this name declares, if it declares one.
fn declared_prefix(name: &str) -> Option<&str>
    ensures { option_copied result ≡ place.declared_prefix name.now }
{
    if name == "xmlns" {
        return Some("");
    }
    let (prefix, local) = split_name(name);
    if prefix == "xmlns" {
        return Some(local);
    }
    None
}

impl Attributes {
    ghost use Rattle.sx_events.specs.Standing.{AreWaiting, attribute_lines_of};

    /// No attribute line.
    pub fn new(alloc: Global) -> Attributes
        ensures waits { AreWaiting result [] }
        ensures is_loose { result.is_loose ≡ false }
    {
        Attributes {
            lines: Vec::new(alloc),
            count: 0,
            spaces: Items::new(alloc),
            is_loose: false,
        }
    }

    /// Whether so many lines wait that are not IMPLIED.
    pub fn is_full(&self, most: u64) -> bool
        ensures { (attributes : List Line) → AreWaiting self.now attributes
            → result ≡ not (nat_lt (length attributes) most) }
    {
        let room = most.saturating_sub(self.count as u64);
        self.spaces.len() as u64 >= room
    }

    /// Puts a line behind those that wait.
    pub fn push(&mut self, alloc: Global, name: &str, value: &str) -> Result<(), AllocError>
        ensures waits { OnOk result ((attributes : List Line) → AreWaiting self.old attributes
            → AreWaiting self.new (attributes ++ place.written name.now value.now ∷ [])) }
        ensures is_loose { OnOk result (self.new.is_loose ≡ true) }
    {
        let value = Chars::copy(alloc, value)?;
        self.is_loose = true;
        match declared_prefix(name) {
            Some(prefix) => {
                let prefix = Chars::copy(alloc, prefix)?;
                self.spaces.push(Space { prefix, uri: value })?;
                Ok(())
            }
            None => self.put(alloc, name, value),
        }
    }

    // Puts a line that declares nothing behind those that wait, in the memory of one that waits no longer, if there is one.
    fn put(&mut self, alloc: Global, name: &str, value: Chars) -> Result<(), AllocError>
        ensures lines { OnOk result (attribute_lines_of self.new
            ≡ attribute_lines_of self.old ++ place.written name.now value ∷ []) }
        ensures spaces { self.new.spaces ≡ self.old.spaces }
        ensures is_loose { self.new.is_loose ≡ self.old.is_loose }
    {
        if self.count < self.lines.len() {
            self.lines[self.count].set(name, value)?;
            self.count += 1;
            return Ok(());
        }
        self.lines.push(Written::new(alloc, name, value)?)?;
        self.count += 1;
        Ok(())
    }

    /// Nothing waits from now on. It gives how many lines waited that declare nothing, and what was declared.
    pub fn take(&mut self, alloc: Global) -> (usize, Spaces)
        ensures count { result.0 ≡ self.old.count }
        ensures spaces { result.1 ≡ self.old.spaces }
        ensures lines { self.new.lines ≡ self.old.lines }
        ensures waits { AreWaiting self.new [] }
        ensures is_loose { self.new.is_loose ≡ false }
    {
        let count = self.count;
        self.count = 0;
        self.is_loose = false;
        (count, mem::replace(&mut self.spaces, Items::new(alloc)))
    }
}
