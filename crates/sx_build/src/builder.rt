// The builder: what is asked for in, the built events out.
ghost use Rattle.std.specs.Prelude.{◌≡◌, [], ◌∷◌, ◌++◌, ℕ, List, Bool, true, false, length};
ghost use Rattle.std.specs.Prelude.{drop, reverse, Option, None, IsErr, OnOk, OnErr, IfOk};
ghost use Rattle.sx_lines.specs.declared.events.Built.{Built as Event};
ghost use Rattle.sx_lines.specs.declared.events.Built.TheVariants as event;
ghost use Rattle.sx_named.specs.Named.{name_at, attribute_at};
ghost use Rattle.sx_build.specs.Asked.{Asked, starts, ends, has, says, prints, instructs, asked_at};
ghost use Rattle.sx_build.specs.Content.{spaced};

use crate::Raw;
use crate::bindings::Binding;
use crate::withheld::Withheld;
use sqlite_items::Items;
use std::alloc::{AllocError, Global};
use sx_atoms::Code;
use sx_lines::Built;
use sx_names::Names;
use sx_tree::{Attr, Chars, Label};

/// An open element of a result.
#[doc(hidden)]
#[derive(Drop)]
pub struct Element {
    // its name as it is printed
    name: Chars,
    // how many bindings the elements around it have declared
    begins: usize,
}

/// Builds a result as it is asked for. What is fixed can be given; a start at the end is withheld, since attributes may
/// follow it.
///
/// Contracts say by `BuilderStands` after which requests it stands, and how many built events it has given.
#[derive(Drop)]
pub struct Builder {
    alloc: Global,
    // the open elements, the outermost first
    elements: Items<Element>,
    // what they have declared but the one whose start is withheld, the innermost last
    bindings: Vec<Binding>,
    // what is fixed and was not cleared, with room for the withheld start behind it
    pending: Vec<Built>,
    withheld: Option<Withheld>,
    // whether an atom came last
    behind_atom: bool,
    error: Option<Code>,
    spent: bool,
}

// Bindings that an element has declared, in order, go behind those of the elements around it, the first at the end.
fn bind_all(bindings: &mut Vec<Binding>, mut declared: Vec<Binding>) -> Result<(), AllocError>
    ensures { OnOk result (bindings.new.items ≡ bindings.old.items ++ reverse declared.items) }
{
    while let Some(binding) = declared.pop() {
        bindings.push(binding)?;
    }
    Ok(())
}

// The print of an atom, with a space before it where an atom came before.
fn print_atom(alloc: Global, behind_atom: bool, print: &str) -> Result<Chars, AllocError>
    ensures { IfOk result (λ text. text ≡ spaced behind_atom print.now) }
{
    if !behind_atom {
        return Chars::copy(alloc, print);
    }
    let mut text = Chars::copy(alloc, " ")?;
    text.push_str(print)?;
    Ok(text)
}

impl Builder {
    ghost use Rattle.sx_build.specs.Content.{misplaced};
    ghost use Rattle.sx_build.specs.Build.{Build, Open, error_of};
    ghost use Rattle.sx_build.specs.Content.{Held as HeldStart};
    ghost use Rattle.sx_build.specs.Course.{Construction, at_work, built_by, gives_in, after, after_in};
    ghost use Rattle.sx_build.specs.Course.{held_start, with_held, text_gives, after_text};
    ghost use Rattle.sx_build.specs.Builder.{BuilderStands, KeepsTo, KeepsOn, KeepsAsked, Settles, answer_of};
    ghost use Rattle.sx_build.specs.Builder.{is_spent};

    /// A builder that nothing was asked of. It takes no memory.
    pub fn new(alloc: Global) -> Builder
        ensures stands { BuilderStands result [] false 0 }
        ensures spent { is_spent result ≡ false }
    {
        Builder {
            alloc,
            elements: Items::new(alloc),
            bindings: Vec::new(alloc),
            pending: Vec::new(alloc),
            withheld: None,
            behind_atom: false,
            error: None,
            spent: false,
        }
    }

    /// Takes what comes next, where `finish` was not called. Names are those of this table. An empty text gives nothing, and
    /// neither does an end where no element is open.
    ///
    /// An attribute that stands behind anything else than its start is an error, XTDE0410, or XTDE0420 where no element is
    /// open (XSLT 3.0, 5.7.1). Each later push answers the same, and what is given stays.
    ///
    /// After an `AllocError` the builder is spent: each later push answers one, and what it gives is not said.
    pub fn push(&mut self, raw: Raw, names: &Names) -> Result<Result<(), Code>, AllocError>
        ensures stands { OnOk result ((asked : List Asked) (given : ℕ)
            → BuilderStands self.old asked false given
            → BuilderStands self.new (asked ++ asked_at names.now raw ∷ []) false given) }
        ensures answer { IfOk result (λ answer. (asked : List Asked) (given : ℕ)
            → BuilderStands self.old asked false given
            → answer ≡ answer_of (error_of (asked ++ asked_at names.now raw ∷ []))) }
        ensures err { OnErr result (is_spent self.new ≡ true) }
        ensures spent { is_spent self.old ≡ true → IsErr result }
        ensures kept { OnOk result (is_spent self.new ≡ is_spent self.old) }
    {
        if self.spent {
            return Err(AllocError);
        }
        match self.take(raw, names) {
            Ok(()) => Ok(self.answer()),
            Err(error) => {
                self.spent = true;
                Err(error)
            }
        }
    }

    // What a push answers: the error, if there is one.
    fn answer(&self) -> Result<(), Code>
        ensures { result ≡ answer_of self.now.error }
    {
        match self.error {
            Some(code) => Err(code),
            None => Ok(()),
        }
    }

    // Takes what comes next, unless there was an error.
    fn take(&mut self, raw: Raw, names: &Names) -> Result<(), AllocError>
        ensures keeps { OnOk result ((c : Construction) (fixed : List Event) → KeepsTo c self.old fixed
            → KeepsTo (after c (asked_at names.now raw)) self.new (fixed
            ++ built_by c (asked_at names.now raw))) }
        ensures kept { OnOk result (is_spent self.new ≡ is_spent self.old) }
    {
        if self.error.is_some() {
            return Ok(());
        }
        self.take_next(raw, names)
    }

    // Takes what comes next.
    fn take_next(&mut self, raw: Raw, names: &Names) -> Result<(), AllocError>
        ensures keeps { OnOk result (KeepsAsked (asked_at names.now raw) self.old self.new) }
        ensures kept { OnOk result (is_spent self.new ≡ is_spent self.old) }
    {
        match raw {
            Raw::Start(label) => self.take_start(label, names),
            Raw::End => self.take_end(),
            Raw::Attr(attr) => self.take_attribute(attr, names),
            Raw::Text(text) => self.take_text(text, false),
            Raw::Atom(text) => {
                let text = print_atom(self.alloc, self.behind_atom, text.as_str())?;
                self.take_text(text, true)
            }
            Raw::Pi { target, content } => self.take_event(Built::Pi { target, content }, false),
        }
    }

    // The withheld start is fixed, if there is one.
    fn settle(&mut self) -> Result<(), AllocError>
        ensures settles { OnOk result (Settles self.old self.new) }
        ensures behind_atom { self.new.behind_atom ≡ self.old.behind_atom }
        ensures error { self.new.error ≡ self.old.error }
        ensures spent { self.new.spent ≡ self.old.spent }
    {
        match self.withheld.take() {
            None => Ok(()),
            Some(start) => {
                let (event, declared) = start.into_parts();
                self.pending.push(event)?;
                bind_all(&mut self.bindings, declared)
            }
        }
    }

    // An element begins. Its start is withheld.
    fn take_start(&mut self, label: Label, names: &Names) -> Result<(), AllocError>
        ensures keeps { OnOk result (KeepsAsked (starts (name_at names.now label)) self.old self.new) }
        ensures kept { OnOk result (is_spent self.new ≡ is_spent self.old) }
    {
        self.settle()?;
        self.pending.reserve(1)?;
        let start = Withheld::new(self.alloc, label, names, &self.bindings)?;
        let name = Chars::copy(self.alloc, start.name())?;
        let begins = self.bindings.len();
        self.elements.push(Element { name, begins })?;
        self.withheld = Some(start);
        self.behind_atom = false;
        Ok(())
    }

    // The innermost open element ends, if one is open.
    fn take_end(&mut self) -> Result<(), AllocError>
        ensures keeps { OnOk result (KeepsAsked ends self.old self.new) }
        ensures kept { OnOk result (is_spent self.new ≡ is_spent self.old) }
    {
        self.settle()?;
        self.behind_atom = false;
        match self.elements.pop() {
            Some(Element { name, begins }) => {
                self.bindings.truncate(begins);
                self.pending.push(Built::End { name })?;
                Ok(())
            }
            None => Ok(()),
        }
    }

    // An attribute comes. Where no start is withheld, that is an error.
    fn take_attribute(&mut self, attr: Attr, names: &Names) -> Result<(), AllocError>
        ensures keeps { OnOk result (KeepsAsked (has (attribute_at names.now attr)) self.old self.new) }
        ensures kept { OnOk result (is_spent self.new ≡ is_spent self.old) }
    {
        self.behind_atom = false;
        match &mut self.withheld {
            Some(start) => start.add(self.alloc, attr, names, &self.bindings),
            None => {
                self.error = Some(self.misplaced());
                Ok(())
            }
        }
    }

    // The error of an attribute that stands behind anything else than its start.
    fn misplaced(&self) -> Code
        ensures { result ≡ misplaced (length self.now.elements) }
    {
        if self.elements.is_empty() {
            Code::Xtde0420
        } else {
            Code::Xtde0410
        }
    }

    // A text comes, which may be empty, and may be an atom.
    fn take_text(&mut self, text: Chars, is_atom: bool) -> Result<(), AllocError>
        ensures keeps { OnOk result (KeepsOn (λ os held behind_atom. after_text os held is_atom text)
            (λ os held behind_atom. text_gives os held text) self.old self.new) }
        ensures kept { OnOk result (is_spent self.new ≡ is_spent self.old) }
    {
        if text.as_str().is_empty() {
            self.behind_atom = is_atom;
            return Ok(());
        }
        self.take_event(Built::Text(text), is_atom)
    }

    // An event comes that is no start and no end, and with it the withheld start is fixed.
    fn take_event(&mut self, e: Built, is_atom: bool) -> Result<(), AllocError>
        ensures keeps { OnOk result
            (KeepsOn (λ os held behind_atom. at_work (with_held os held) None is_atom)
            (λ os held behind_atom. held_start os held ++ e ∷ []) self.old self.new) }
        ensures kept { OnOk result (is_spent self.new ≡ is_spent self.old) }
    {
        self.settle()?;
        self.pending.push(e)?;
        self.behind_atom = is_atom;
        Ok(())
    }

    /// Is told that the content is at its end: a withheld start is fixed. It takes no memory.
    pub fn finish(&mut self)
        ensures stands { (asked : List Asked) (given : ℕ) → BuilderStands self.old asked false given
            → BuilderStands self.new asked true given }
        ensures spent { is_spent self.new ≡ is_spent self.old }
    {
        match self.withheld.take() {
            Some(start) => {
                let (event, _) = start.into_parts();
                // There is room for it.
                let _ = self.pending.push(event);
            }
            None => {}
        }
    }

    /// What is fixed and was not cleared yet, in order.
    pub fn output(&self) -> &[Built]
        ensures { (asked : List Asked) (at_end : Bool) (given : ℕ)
            → BuilderStands self.now asked at_end given → result.now ≡ drop given (Build asked at_end) }
    {
        self.pending.as_slice()
    }

    /// Drops what is fixed: it was given. It takes no memory, and keeps that of the list.
    pub fn clear_output(&mut self)
        ensures stands { (asked : List Asked) (at_end : Bool) (given : ℕ)
            → BuilderStands self.old asked at_end given
            → BuilderStands self.new asked at_end (length (Build asked at_end)) }
        ensures spent { is_spent self.new ≡ is_spent self.old }
    {
        self.pending.clear();
    }
}
