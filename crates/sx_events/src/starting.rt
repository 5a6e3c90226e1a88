// The start of an element: what it declares, its name and its attributes.
ghost use Rattle.std.specs.Prelude.{◌≡◌, ◌≤◌, ◌||◌, ℕ, List, [], Bool, false, true};
ghost use Rattle.std.specs.Prelude.{is_some, length, take, IfOk, IfSome, OnOk};
ghost use Rattle.sx_names.specs.Numbering.{IsDistinct, KeepsPlaces};
ghost use Rattle.sx_named.specs.Named.{Name, IsNumbered, AreNumbered, name_at, attribute_at, attributes_at};
ghost use Rattle.sx_chars.specs.Names.{prefix_of};
ghost use Rattle.sx_events.specs.Place as place;
ghost use Rattle.sx_events.specs.Place.{Place};
ghost use Rattle.sx_events.specs.Standing.{HoldsOpen, AreWaiting};
ghost use Rattle.sx_events.specs.Starting.{BeginsElement, IsLabelOf, AreAttributesOf, spaces_fault};
ghost use Rattle.sx_events.specs.Starting.{has_number, has_double_number};

use crate::attributes::{Attributes, Written};
use crate::elements::Elements;
use sqlite_items::Items;
use std::alloc::{AllocError, Global};
use sx_chars::split_name;
use sx_limits::{Limits, Which};
use sx_names::{Names, Scope};
use sx_tree::{Attr, Attrs, Chars, Event, Label, Space};

/// The namespace that the prefix `xml` is bound to, and no other (Namespaces in XML 1.0, 3).
const XML_NAMESPACE: &str = "http://www.w3.org/XML/1998/namespace";

// Whether one of these declares this prefix.
fn declares(spaces: &[Space], prefix: &str) -> bool
    ensures { result ≡ place.declares spaces.now prefix.now }
{
    let mut rest = spaces;
    while let [space, more @ ..] = rest {
        if space.prefix.as_str() == prefix {
            return true;
        }
        rest = more;
    }
    false
}

// Whether two of these declare one prefix.
fn declares_twice(spaces: &[Space]) -> bool
    ensures { result ≡ place.declares_twice spaces.now }
{
    let mut rest = spaces;
    while let [space, more @ ..] = rest {
        if declares(more, space.prefix.as_str()) {
            return true;
        }
        rest = more;
    }
    false
}

// Whether this may not be declared.
fn is_bad(space: &Space) -> bool
    ensures { result ≡ place.is_bad space.now }
{
    let prefix = space.prefix.as_str();
    let uri = space.uri.as_str();
    prefix == "xmlns"
        || (!prefix.is_empty() && uri.is_empty())
        || (prefix == "xml") != (uri == XML_NAMESPACE)
}

fn has_bad(spaces: &[Space]) -> bool
    ensures { result ≡ place.has_bad spaces.now }
{
    let mut rest = spaces;
    while let [space, more @ ..] = rest {
        if is_bad(space) {
            return true;
        }
        rest = more;
    }
    false
}

// What is at fault with the declarations of an element.
fn spaces_fault(spaces: &[Space]) -> Option<Which>
    ensures { result ≡ spaces_fault spaces.now }
{
    if declares_twice(spaces) {
        return Some(Which::DoubleAttr);
    }
    if has_bad(spaces) {
        return Some(Which::BadAttr);
    }
    None
}

// A name in this namespace, by its number.
fn label(
    alloc: Global,
    names: &mut Names,
    prefix: &str,
    uri: &str,
    local: &str,
) -> Result<Label, AllocError>
    ensures name { IfOk result
        (λ l. IsLabelOf names.new (record { prefix = prefix.now; uri = uri.now; local = local.now }) l) }
    ensures unique { OnOk result (IsDistinct names.new) }
    ensures kept { KeepsPlaces names.old names.new }
    ensures distinct { IsDistinct names.old → IsDistinct names.new }
{
    let prefix = Chars::copy(alloc, prefix)?;
    let number = names.intern(uri, local)?;
    Ok(Label { number, prefix })
}

// The name of an element, or `None` where its prefix is not bound.
fn element_label(
    alloc: Global,
    scope: &Scope,
    names: &mut Names,
    name: &str,
) -> Result<Option<Label>, AllocError>
    ensures bound { IfOk result (λ given. is_some given ≡ place.is_bound_prefix scope.now name.now) }
    ensures name { IfOk result
        (λ given. IfSome given (λ l. IsLabelOf names.new (place.element_name scope.now name.now) l)) }
    ensures unique { IfOk result (λ given. IfSome given (λ _. IsDistinct names.new)) }
    ensures kept { KeepsPlaces names.old names.new }
    ensures distinct { IsDistinct names.old → IsDistinct names.new }
{
    let (prefix, local) = split_name(name);
    match scope.lookup(prefix) {
        None => Ok(None),
        Some(uri) => Ok(Some(label(alloc, names, prefix, uri, local)?)),
    }
}

// The name of an attribute, or `None` where its prefix is not bound. Without a prefix it is in no namespace.
fn attribute_label(
    alloc: Global,
    scope: &Scope,
    names: &mut Names,
    name: &str,
) -> Result<Option<Label>, AllocError>
    ensures bound { IfOk result (λ given. is_some given
        ≡ (place.is_empty (prefix_of name.now) || place.is_bound_prefix scope.now name.now)) }
    ensures name { IfOk result
        (λ given. IfSome given (λ l. IsLabelOf names.new (place.attribute_name scope.now name.now) l)) }
    ensures kept { KeepsPlaces names.old names.new }
    ensures distinct { IsDistinct names.old → IsDistinct names.new }
{
    let (prefix, local) = split_name(name);
    if prefix.is_empty() {
        return Ok(Some(label(alloc, names, prefix, "", local)?));
    }
    match scope.lookup(prefix) {
        None => Ok(None),
        Some(uri) => Ok(Some(label(alloc, names, prefix, uri, local)?)),
    }
}

// The attributes of an element, whose lines are so many of these, or `None` where a prefix is not bound. The values are
// taken out of the lines.
fn attributes(
    alloc: Global,
    scope: &Scope,
    names: &mut Names,
    lines: &mut Vec<Written>,
    count: usize,
) -> Result<Option<Attrs>, AllocError>
    requires { count ≤ length lines.old.items }
    ensures bound { IfOk result (λ given. is_some given
        ≡ place.all_bound scope.now (take count lines.old.items)) }
    ensures names { IfOk result
        (λ given. IfSome given
        (λ attrs. AreAttributesOf names.new (place.attributes_in scope.now (take count lines.old.items))
        attrs)) }
    ensures as_many { length lines.new.items ≡ length lines.old.items }
    ensures kept { KeepsPlaces names.old names.new }
    ensures distinct { IsDistinct names.old → IsDistinct names.new }
{
    let mut attrs = Items::new(alloc);
    for at in 0..count {
        match attribute_label(alloc, scope, names, lines[at].name())? {
            None => return Ok(None),
            Some(label) => {
                let value = lines[at].take_value(alloc);
                attrs.push(Attr { label, value })?;
            }
        }
    }
    Ok(Some(attrs))
}

// Whether one of these attributes has the name with this number.
fn has_number(attrs: &[Attr], number: u64) -> bool
    ensures { result ≡ has_number attrs.now number }
{
    let mut rest = attrs;
    while let [attr, more @ ..] = rest {
        if attr.label.number == number {
            return true;
        }
        rest = more;
    }
    false
}

// Whether two of these attributes have one name.
fn has_double(attrs: &[Attr]) -> bool
    ensures { result ≡ has_double_number attrs.now }
{
    let mut rest = attrs;
    while let [attr, more @ ..] = rest {
        if has_number(more, attr.label.number) {
            return true;
        }
        rest = more;
    }
    false
}

/// The start of an element of this name, which is open then, or what is at fault with it.
pub(crate) fn begin(
    alloc: Global,
    limits: &Limits,
    elements: &mut Elements,
    waiting: &mut Attributes,
    names: &mut Names,
    name: &str,
) -> Result<Result<Event, Which>, AllocError>
    ensures begins { IfOk result (λ done. (p : Place) → HoldsOpen elements.old p.opened
        → elements.old.scope ≡ p.scope → AreWaiting waiting.old p.attributes
        → BeginsElement limits.now p name.now names.new elements.new done) }
    ensures waits { AreWaiting waiting.new [] }
    ensures is_loose { waiting.new.is_loose ≡ false }
    ensures kept { KeepsPlaces names.old names.new }
    ensures distinct { IsDistinct names.old → IsDistinct names.new }
{
    let (count, spaces) = waiting.take(alloc);
    if let Some(which) = spaces_fault(spaces.as_slice()) {
        return Ok(Err(which));
    }
    if elements.is_full(limits.depth) {
        return Ok(Err(Which::Depth));
    }
    elements.enter(spaces.as_slice())?;
    let Some(label) = element_label(alloc, elements.scope(), names, name)? else {
        return Ok(Err(Which::UnboundPrefix));
    };
    let Some(attrs) = attributes(alloc, elements.scope(), names, &mut waiting.lines, count)? else {
        return Ok(Err(Which::UnboundPrefix));
    };
    if has_double(attrs.as_slice()) {
        return Ok(Err(Which::DoubleAttr));
    }
    elements.push(name)?;
    Ok(Ok(Event::Start {
        label,
        attrs,
        spaces,
    }))
}
