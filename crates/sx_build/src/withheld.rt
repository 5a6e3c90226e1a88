// A start that is withheld, since attributes may follow it.
ghost use Rattle.std.specs.Prelude.{◌≡◌, ◌≤◌, slice_set, ◌++◌, [], ◌∷◌, ◌<◌};
ghost use Rattle.std.specs.Prelude.{◌||◌, ◌&&◌, not, bytes_eq, ℕ, List, length, take, drop};
ghost use Rattle.std.specs.Prelude.{slice_get, Some, IfOk, OnOk, if◌then◌else◌};
ghost use Rattle.std.specs.List.{position, position_from};
ghost use Rattle.sx_lines.specs.declared.events.Built.TheVariants as event;
ghost use Rattle.sx_lines.specs.declared.events.Pair.{Pair as Printed};
ghost use Rattle.sx_named.specs.Named as named;
ghost use Rattle.sx_build.specs.Content as content;
ghost use Rattle.sx_build.specs.FixUp as fix;
ghost use Rattle.sx_build.specs.Build as spec;
ghost use Rattle.sx_build.specs.InForce.{in_force};
ghost use Rattle.sx_build.specs.Kept.{with_one, fixed_at, fixed_anew, fixed_pairs, attributes_with};
ghost use Rattle.sx_build.specs.Kept.{names_of_attributes, name_prefixes, plain_name, plain_names};

use crate::bindings::{Binding, binds, declares, has_binding};
use crate::names::{Name, declaration_name, local_at, numbered_prefix, prefixed, uri_at};
use sqlite_items::Items;
use std::alloc::{AllocError, Global};
use std::mem;
use sx_lines::{Built, Pair};
use sx_names::Names;
use sx_tree::{Attr, Chars, Label};

/// A start, kept as it is built.
#[derive(Drop)]
pub struct Withheld {
    // its name as it is printed
    name: Chars,
    // the prefix of the element
    prefix: Chars,
    // how many of the declarations are the element's own: one or none
    own: usize,
    // what it declares, in order
    declared: Vec<Binding>,
    // what it declares and its attributes, as they are printed
    pairs: Vec<Pair>,
    // the names of its attributes as they were asked for; none are kept before the first with a prefix or a namespace
    names: Vec<Name>,
}

// Whether a name needs no declaration where an element declares some bindings and the elements around it others.
fn is_bound(own: &[Binding], outer: &[Binding], name: &Name) -> bool
    ensures { result ≡ fix.is_bound (own.now ++ in_force outer.now) name.now }
{
    if name.uri().is_empty() {
        return true;
    }
    !name.prefix().is_empty() && binds(own, outer, name.prefix(), name.uri())
}

// Whether one of these names has a prefix.
fn have_prefix(names: &[Name], prefix: &str) -> bool
    ensures { result ≡ fix.is_text_among (name_prefixes names.now) prefix.now }
{
    for name in names {
        if name.prefix() == prefix {
            return true;
        }
    }
    false
}

// The place of the name with the same namespace and local name.
fn place_of(names: &[Name], name: &Name) -> Option<usize>
    ensures { result ≡ position (λ n. named.is_same_name n name.now) names.now }
{
    names.iter().position(|n| n.is_same(name))
}

// The place of the first pair with a name, from a place on.
fn pair_place(pairs: &[Pair], from: usize, name: &str) -> Option<usize>
    ensures { result ≡ position_from (λ p. bytes_eq p.name name.now) from (drop from pairs.now) }
{
    for at in from..pairs.len() {
        if pairs[at].name.as_str() == name {
            return Some(at);
        }
    }
    None
}

// A copy of the value of the pair at a place.
fn value_at(alloc: Global, pairs: &[Pair], at: usize) -> Result<Chars, AllocError>
    ensures { IfOk result (λ value. (p : Printed) → slice_get pairs.now at ≡ Some p
        → value ≡ p.value) }
{
    match pairs.get(at) {
        Some(pair) => Chars::copy(alloc, pair.value.as_str()),
        None => Ok(Chars::new(alloc)),
    }
}

// The names of attributes that are printed as they are: those of the pairs from a place on.
fn names_from(alloc: Global, pairs: &[Pair], from: usize) -> Result<Vec<Name>, AllocError>
    ensures { IfOk result (λ names. names.items ≡ plain_names (drop from pairs.now)) }
{
    let mut names = Vec::new(alloc);
    for at in from..pairs.len() {
        let local = Chars::copy(alloc, pairs[at].name.as_str())?;
        names.push(Name::new(Chars::new(alloc), Chars::new(alloc), local))?;
    }
    Ok(names)
}

// A copy of the first pairs.
fn first_pairs(alloc: Global, pairs: &[Pair], count: usize) -> Result<Vec<Pair>, AllocError>
    ensures { IfOk result (λ first. first.items ≡ take count pairs.now) }
{
    let mut first = Vec::new(alloc);
    for at in 0..count.min(pairs.len()) {
        let name = Chars::copy(alloc, pairs[at].name.as_str())?;
        let value = Chars::copy(alloc, pairs[at].value.as_str())?;
        first.push(Pair { name, value })?;
    }
    Ok(first)
}

impl Withheld {
    ghost use Rattle.sx_build.specs.Withheld.{HoldsStart};

    /// The start of an element that has no attributes yet, where the elements around it have declared these bindings.
    pub fn new(
        alloc: Global,
        label: Label,
        names: &Names,
        outer: &[Binding],
    ) -> Result<Withheld, AllocError>
        ensures { IfOk result (λ start. HoldsStart (in_force outer.now)
            (record { name = named.name_at names.now label; attributes = [] }) start) }
    {
        let uri = uri_at(names, label.number);
        let name = prefixed(alloc, label.prefix.as_str(), local_at(names, label.number))?;
        let mut start = Withheld {
            name,
            prefix: label.prefix,
            own: 0,
            declared: Vec::new(alloc),
            pairs: Vec::new(alloc),
            names: Vec::new(alloc),
        };
        if binds(&[], outer, start.prefix.as_str(), uri) {
            return Ok(start);
        }
        let prefix = Chars::copy(alloc, start.prefix.as_str())?;
        start.declare(alloc, Binding::new(prefix, Chars::copy(alloc, uri)?))?;
        start.own = 1;
        Ok(start)
    }

    /// Its name as it is printed.
    pub fn name(&self) -> &str
        ensures { result.now ≡ self.now.name }
    {
        self.name.as_str()
    }

    /// The start as it is built, and what it declares, in order.
    pub fn into_parts(self) -> (Built, Vec<Binding>)
        ensures event { result.0 ≡ event.Start self.name self.pairs.items }
        ensures declared { result.1 ≡ self.declared }
    {
        let Withheld {
            name,
            declared,
            pairs,
            ..
        } = self;
        let pairs = Items::from_vec(pairs);
        (Built::Start { name, pairs }, declared)
    }

    // A binding is declared behind the others.
    fn declare(&mut self, alloc: Global, binding: Binding) -> Result<(), AllocError>
        ensures declared { OnOk result (self.new.declared.items
            ≡ self.old.declared.items ++ binding ∷ []) }
        ensures pairs { OnOk result ((tail : List Printed)
            → self.old.pairs.items ≡ spec.declaration_pairs self.old.declared.items ++ tail
            → self.new.pairs.items
            ≡ spec.declaration_pairs (self.old.declared.items ++ binding ∷ []) ++ tail) }
        ensures kept { self.new ≡ record self.old { declared = self.new.declared; pairs = self.new.pairs } }
    {
        let at = self.declared.len().min(self.pairs.len());
        let name = declaration_name(alloc, binding.prefix())?;
        let value = Chars::copy(alloc, binding.uri())?;
        self.pairs.insert(at, Pair { name, value })?;
        self.declared.push(binding)?;
        Ok(())
    }

    // A pair goes behind the others.
    fn put(&mut self, name: Chars, value: Chars) -> Result<(), AllocError>
        ensures pairs { OnOk result (self.new.pairs.items
            ≡ self.old.pairs.items ++ record { name = name; value = value } ∷ []) }
        ensures kept { self.new ≡ record self.old { pairs = self.new.pairs } }
    {
        self.pairs.push(Pair { name, value })?;
        Ok(())
    }

    // The value of the pair at a place is this one.
    fn set_value(&mut self, at: usize, value: Chars)
        ensures pairs { (p : Printed) → slice_get self.old.pairs.items at ≡ Some p
            → self.new.pairs.items
            ≡ slice_set self.old.pairs.items at (record { name = p.name; value = value }) }
        ensures kept { self.new ≡ record self.old { pairs = self.new.pairs } }
    {
        if at < self.pairs.len() {
            self.pairs[at].value = value;
        }
    }

    // Whether the element has a prefix, or one of so many attributes has it.
    fn uses(&self, count: usize, prefix: &str) -> bool
        requires { count ≤ length self.now.names.items }
        ensures { result
            ≡ fix.is_text_among (self.now.prefix ∷ name_prefixes (take count self.now.names.items))
            prefix.now }
    {
        self.prefix.as_str() == prefix || have_prefix(&self.names[..count], prefix)
    }

    // Whether an attribute behind so many others cannot have a prefix declared: it is empty or used.
    fn is_in_use(&self, count: usize, prefix: &str) -> bool
        requires { count ≤ length self.now.names.items }
        ensures { result
            ≡ fix.is_in_use (self.now.prefix ∷ name_prefixes (take count self.now.names.items))
            prefix.now }
    {
        prefix.is_empty() || self.uses(count, prefix)
    }

    // Whether a prefix is bound, or the element or one of its attributes has it.
    fn is_taken(&self, outer: &[Binding], prefix: &str) -> bool
        ensures { result
            ≡ fix.is_text_among (fix.prefixes (self.now.declared.items ++ in_force outer.now)
            ++ self.now.prefix ∷ name_prefixes self.now.names.items) prefix.now }
    {
        has_binding(&self.declared, outer, prefix) || self.uses(self.names.len(), prefix)
    }

    // The first of `ns0`, `ns1` and so on that is not taken.
    fn free_prefix(&self, alloc: Global, outer: &[Binding]) -> Result<Chars, AllocError>
        ensures { IfOk result (λ prefix. prefix
            ≡ fix.free_prefix (fix.prefixes (self.now.declared.items ++ in_force outer.now)
            ++ self.now.prefix ∷ name_prefixes self.now.names.items)) }
    {
        // As many are tried as can be taken: those that are bound, two at first, and those of the element and its attributes.
        let own = self.declared.as_slice();
        let names = self.names.as_slice();
        let count = own.len() + outer.len() + names.len() + 3;
        for number in 0..count {
            let prefix = numbered_prefix(alloc, number)?;
            if !self.is_taken(outer, prefix.as_str()) {
                return Ok(prefix);
            }
        }
        numbered_prefix(alloc, count)
    }

    // What has to be declared for the attribute whose name stands at this place.
    fn binding_for(
        &self,
        alloc: Global,
        at: usize,
        outer: &[Binding],
    ) -> Result<Binding, AllocError>
        requires { at < length self.now.names.items }
        ensures { IfOk result (λ binding. (name : named.Name)
            → slice_get self.now.names.items at ≡ Some name
            → binding ≡ fix.bind
            (if fix.is_in_use (self.now.prefix ∷ name_prefixes (take at self.now.names.items)) name.prefix
            then fix.free_prefix (fix.prefixes (self.now.declared.items ++ in_force outer.now)
            ++ self.now.prefix ∷ name_prefixes self.now.names.items)
            else name.prefix) name.uri) }
    {
        let name = &self.names[at];
        let uri = Chars::copy(alloc, name.uri())?;
        if self.is_in_use(at, name.prefix()) {
            return Ok(Binding::new(self.free_prefix(alloc, outer)?, uri));
        }
        Ok(Binding::new(Chars::copy(alloc, name.prefix())?, uri))
    }

    // The attribute whose name stands at this place is fixed, and goes with its value behind the others.
    fn place(
        &mut self,
        alloc: Global,
        at: usize,
        value: Chars,
        outer: &[Binding],
    ) -> Result<(), AllocError>
        requires { at < length self.old.names.items }
        ensures declared { OnOk result ((name : named.Name)
            → slice_get self.old.names.items at ≡ Some name
            → self.new.declared.items
            ≡ (fixed_at (in_force outer.now) self.old.prefix self.old.names.items self.old.declared.items at
            (record { name = name; value = value })).declared) }
        ensures pairs { OnOk result ((name : named.Name) (tail : List Printed)
            → slice_get self.old.names.items at ≡ Some name
            → self.old.pairs.items ≡ spec.declaration_pairs self.old.declared.items ++ tail
            → let f = fixed_at (in_force outer.now) self.old.prefix self.old.names.items
            self.old.declared.items at (record { name = name; value = value }) in
            self.new.pairs.items
            ≡ spec.declaration_pairs f.declared ++ (tail ++ spec.attribute_pairs f.attributes)) }
        ensures kept { self.new ≡ record self.old { declared = self.new.declared; pairs = self.new.pairs } }
    {
        if is_bound(&self.declared, outer, &self.names[at]) {
            let name = self.names[at].print(alloc)?;
            return self.put(name, value);
        }
        let binding = self.binding_for(alloc, at, outer)?;
        let name = prefixed(alloc, binding.prefix(), self.names[at].local())?;
        self.declare(alloc, binding)?;
        self.put(name, value)
    }

    // All attributes are fixed anew, with the values that they have.
    fn fix_anew(&mut self, alloc: Global, outer: &[Binding]) -> Result<(), AllocError>
        ensures fixed { OnOk result
            (let attributes = attributes_with self.old.names.items
            (drop (length self.old.declared.items) self.old.pairs.items) in
            let own = take self.old.own self.old.declared.items in
            let f = fixed_anew (in_force outer.now) self.old.prefix self.old.names.items own attributes in
            take self.old.own self.old.pairs.items ≡ spec.declaration_pairs own
            → length self.old.names.items ≤ length
            (drop (length self.old.declared.items) self.old.pairs.items)
            → (self.new.declared.items ≡ f.declared) × (self.new.pairs.items ≡ fixed_pairs f)) }
        ensures kept { self.new ≡ record self.old { declared = self.new.declared; pairs = self.new.pairs } }
    {
        let skip = self.declared.len();
        let own = first_pairs(alloc, &self.pairs, self.own)?;
        let old = mem::replace(&mut self.pairs, own);
        self.declared.truncate(self.own);
        for at in 0..self.names.len() {
            let value = value_at(alloc, &old, skip + at)?;
            self.place(alloc, at, value, outer)?;
        }
        Ok(())
    }

    // Whether a prefix was given to an attribute in the place of its own: it is declared here, and neither the element nor
    // an attribute has it.
    fn was_given(&self, prefix: &str) -> bool
        ensures { result ≡ (fix.is_text_among (fix.prefixes self.now.declared.items) prefix.now
            && not (fix.is_text_among (self.now.prefix ∷ name_prefixes self.now.names.items) prefix.now)) }
    {
        declares(&self.declared, prefix) && !self.uses(self.names.len(), prefix)
    }

    // An attribute takes the place of another one.
    fn replace(
        &mut self,
        alloc: Global,
        at: usize,
        name: Name,
        value: Chars,
        outer: &[Binding],
    ) -> Result<(), AllocError>
        requires { at < length self.old.names.items }
        ensures { OnOk result ((h : content.Held) → HoldsStart (in_force outer.now) h self.old
            → self.old.names.items ≡ names_of_attributes h.attributes
            → content.with_attribute h.attributes (record { name = name; value = value })
            ≡ slice_set h.attributes at (record { name = name; value = value })
            → HoldsStart (in_force outer.now) (with_one h (record { name = name; value = value }))
            self.new) }
    {
        let place = self.declared.len() + at;
        self.names[at] = name;
        self.set_value(place, value);
        self.fix_anew(alloc, outer)
    }

    // An attribute goes behind the others. It is fixed by itself, where that changes nothing for the others.
    fn append(
        &mut self,
        alloc: Global,
        name: Name,
        value: Chars,
        outer: &[Binding],
    ) -> Result<(), AllocError>
        ensures { OnOk result ((h : content.Held) → HoldsStart (in_force outer.now) h self.old
            → self.old.names.items ≡ names_of_attributes h.attributes
            → content.with_attribute h.attributes (record { name = name; value = value })
            ≡ h.attributes ++ record { name = name; value = value } ∷ []
            → HoldsStart (in_force outer.now) (with_one h (record { name = name; value = value }))
            self.new) }
    {
        let given = self.was_given(name.prefix());
        let at = self.names.len();
        self.names.push(name)?;
        if given {
            self.put(Chars::new(alloc), value)?;
            return self.fix_anew(alloc, outer);
        }
        self.place(alloc, at, value, outer)?;
        Ok(())
    }

    // An attribute more, where the names of the attributes are kept.
    fn add_named(
        &mut self,
        alloc: Global,
        name: Name,
        value: Chars,
        outer: &[Binding],
    ) -> Result<(), AllocError>
        ensures { OnOk result ((h : content.Held) → HoldsStart (in_force outer.now) h self.old
            → self.old.names.items ≡ names_of_attributes h.attributes
            → HoldsStart (in_force outer.now) (with_one h (record { name = name; value = value }))
            self.new) }
    {
        match place_of(&self.names, &name) {
            Some(at) => self.replace(alloc, at, name, value, outer),
            None => self.append(alloc, name, value, outer),
        }
    }

    // The names of the attributes are kept from now on.
    fn keep_names(&mut self, alloc: Global) -> Result<(), AllocError>
        ensures holds { OnOk result ((bound : List fix.Binding) (h : content.Held)
            → HoldsStart bound h self.old
            → HoldsStart bound h self.new) }
        ensures names { OnOk result ((bound : List fix.Binding) (h : content.Held)
            → HoldsStart bound h self.old
            → self.new.names.items ≡ names_of_attributes h.attributes) }
    {
        if self.names.is_empty() {
            self.names = names_from(alloc, &self.pairs, self.declared.len())?;
        }
        Ok(())
    }

    // An attribute more without a prefix in no namespace, where no other kinds have come.
    fn add_plain(&mut self, alloc: Global, local: &str, value: Chars) -> Result<(), AllocError>
        ensures { OnOk result ((bound : List fix.Binding) (h : content.Held) → HoldsStart bound h self.old
            → self.old.names.items ≡ []
            → HoldsStart bound (with_one h (record { name = plain_name local.now; value = value }))
            self.new) }
    {
        match pair_place(&self.pairs, self.declared.len(), local) {
            Some(at) => {
                self.set_value(at, value);
                Ok(())
            }
            None => self.put(Chars::copy(alloc, local)?, value),
        }
    }

    /// An attribute more: it takes the place of an earlier one of the same namespace and local name, or goes behind all.
    pub fn add(
        &mut self,
        alloc: Global,
        attr: Attr,
        names: &Names,
        outer: &[Binding],
    ) -> Result<(), AllocError>
        ensures { OnOk result ((h : content.Held) → HoldsStart (in_force outer.now) h self.old
            → HoldsStart (in_force outer.now) (with_one h (named.attribute_at names.now attr)) self.new) }
    {
        let Attr { label, value } = attr;
        let Label { number, prefix } = label;
        let uri = uri_at(names, number);
        let local = local_at(names, number);
        if self.names.is_empty() && uri.is_empty() && prefix.as_str().is_empty() {
            return self.add_plain(alloc, local, value);
        }
        self.keep_names(alloc)?;
        let name = Name::new(prefix, Chars::copy(alloc, uri)?, Chars::copy(alloc, local)?);
        self.add_named(alloc, name, value, outer)
    }
}
