// Which nodes pass a node test (XPath 3.1, 3.3.2.2).
ghost use Rattle.std.specs.Prelude.{◌≡◌, [], ◌∷◌, ◌++◌, OnOk, bytes_eq, IsTrue, ◌↔◌};
ghost use Rattle.std.specs.Option.{option_copied, option_map};
ghost use Rattle.sx_axes.specs.Axes as spec;
ghost use Rattle.sx_axes.specs.Sought.{found, has_number_of, has_target_of, is_named_of, is_found, kind_named};
ghost use Rattle.sx_names.specs.Numbering.{uri_at, local_at};
ghost use Rattle.sx_tree.specs.Labels.{label_of_view};
ghost use Rattle.sx_tree.specs.Seen.{seen_at};
ghost use Rattle.sx_tree.specs.TreeView.{IsNode};

use crate::Nodes;
use std::alloc::AllocError;
use sx_names::Names;
use sx_tree::{Axis, Chars, Kind, LabelView, Node, NodeTest, Tree};

// What a step looks for: the nodes of an axis that pass a test, in which names are meant by their numbers.
#[derive(Clone, Copy)]
pub(crate) struct Sought<'a> {
    pub axis: Axis,
    pub test: &'a NodeTest,
    pub names: &'a Names,
}

// Whether the name with this number is in this namespace. Past the last name it is in none.
fn is_in_space(names: &Names, number: u64, uri: &str) -> bool
    ensures { result ≡ bytes_eq (uri_at names.now number) uri.now }
{
    if names.has(number) {
        names.uri(number) == uri
    } else {
        uri.is_empty()
    }
}

// Whether the name with this number has this local name. Past the last name that is empty.
fn is_local(names: &Names, number: u64, local: &str) -> bool
    ensures { result ≡ bytes_eq (local_at names.now number) local.now }
{
    if names.has(number) {
        names.local(number) == local
    } else {
        local.is_empty()
    }
}

// Whether there is a name, and the test asks for it.
fn is_named(names: &Names, test: &NodeTest, label: Option<LabelView<'_>>) -> bool
    ensures { result ≡ is_named_of names.now test.now (option_map label_of_view label.entry) }
{
    let Some(label) = label else {
        return false;
    };
    match test {
        NodeTest::Name(number) => label.number == *number,
        NodeTest::AnyName => true,
        NodeTest::InSpace(uri) => is_in_space(names, label.number, uri.as_str()),
        NodeTest::Local(local) => is_local(names, label.number, local.as_str()),
        _ => false,
    }
}

// Whether there is a name, and it has the number that is asked for, if one is.
fn has_number(label: Option<LabelView<'_>>, asked: Option<u64>) -> bool
    ensures { result ≡ has_number_of (option_map label_of_view label.entry) asked }
{
    match (label, asked) {
        (None, _) => false,
        (Some(_), None) => true,
        (Some(label), Some(number)) => label.number == number,
    }
}

// Whether there is a target, and it is the one that is asked for, if one is.
fn has_target(target: Option<&str>, asked: &Option<Chars>) -> bool
    ensures { result ≡ has_target_of (option_copied target.entry) asked.now }
{
    match (target, asked) {
        (None, _) => false,
        (Some(_), None) => true,
        (Some(target), Some(asked)) => target == asked.as_str(),
    }
}

// Whether a node passes as one of its kind.
fn is_of_kind<T: Tree>(t: &T, n: Node, test: &NodeTest) -> bool
    ensures { result ≡ spec.is_of_kind test.now (seen_at (T.places t.now) n) }
{
    match test {
        NodeTest::Node => true,
        NodeTest::Text => t.kind(n) == Kind::Text,
        NodeTest::Document => t.kind(n) == Kind::Document,
        NodeTest::Pi(target) => has_target(t.target(n), target),
        NodeTest::Element(name) => t.kind(n) == Kind::Element && has_number(t.label(n), *name),
        NodeTest::Attribute(name) => t.kind(n) == Kind::Attribute && has_number(t.label(n), *name),
        _ => false,
    }
}

// The kind of the nodes whose names a name test on an axis asks for: its principal node kind.
fn principal_kind(axis: Axis) -> Kind
    ensures { result ≡ kind_named axis }
{
    match axis {
        Axis::Attribute => Kind::Attribute,
        _ => Kind::Element,
    }
}

// Whether it is a node of the tree.
fn is_node<T: Tree>(t: &T, n: Node) -> bool
    ensures { IsTrue result ↔ IsNode (T.places t.now) n }
{
    match n {
        Node::At(place) => place < t.place_count(),
        Node::Attr(place, number) => number < t.attr_count(Node::At(place)),
    }
}

// Whether it is a node of the tree and passes.
fn passes<T: Tree>(t: &T, n: Node, sought: &Sought<'_>) -> bool
    ensures { result ≡ is_found sought.now (T.places t.now) n }
{
    is_node(t, n)
        && (is_of_kind(t, n, sought.test)
            || t.kind(n) == principal_kind(sought.axis)
                && is_named(sought.names, sought.test, t.label(n)))
}

// Puts a node behind the others, if it is one of the tree and passes.
pub(crate) fn keep<T: Tree>(
    t: &T,
    n: Node,
    sought: &Sought<'_>,
    out: &mut Nodes,
) -> Result<(), AllocError>
    ensures { OnOk result (out.new ≡ out.old ++ found sought.now (T.places t.now) (n ∷ [])) }
{
    if !passes(t, n, sought) {
        return Ok(());
    }
    out.push(n)
}
