// Axes of trees, and nodes in document order.
use crate::branches::{Growing, all_added, all_branched};
use crate::nodes::show_node;
use crate::notation::name_parts;
use sqlite_items::Items;
use std::alloc::{AllocError, Global};
use sx_axes::{Nodes, axis as nodes_along, in_order};
use sx_names::Names;
use sx_tree::{Axis, Node, NodeTest, Spine, Tree};

// The axis of a name.
fn axis_of(name: &str) -> Axis {
    match name {
        "child" => Axis::Child,
        "descendant" => Axis::Descendant,
        "descendant-or-self" => Axis::DescendantOrSelf,
        "attribute" => Axis::Attribute,
        "parent" => Axis::Parent,
        "ancestor" => Axis::Ancestor,
        "ancestor-or-self" => Axis::AncestorOrSelf,
        "following" => Axis::Following,
        "following-sibling" => Axis::FollowingSibling,
        "preceding" => Axis::Preceding,
        "preceding-sibling" => Axis::PrecedingSibling,
        _ => Axis::SelfNode,
    }
}

// The node test that is written so.
fn test_of(names: &mut Names, text: &str) -> Result<NodeTest, AllocError> {
    match text {
        "*" => Ok(NodeTest::AnyName),
        "node()" => Ok(NodeTest::Node),
        "text()" => Ok(NodeTest::Text),
        _ => {
            let (_, uri, local) = name_parts(text);
            Ok(NodeTest::Name(names.intern(uri, local)?))
        }
    }
}

// A node that a case writes as a place, or as a place and the number of an attribute behind a point.
fn node_of(text: &str) -> Node {
    match text.split_once('.') {
        Some((k, i)) => Node::Attr(k.parse::<u32>().unwrap_or(0), i.parse::<u32>().unwrap_or(0)),
        None => Node::At(text.parse::<u32>().unwrap_or(0)),
    }
}

// Nodes, with a space between two.
fn shown(alloc: Global, nodes: &[Node]) -> Result<String, AllocError> {
    let mut out = String::new(alloc);
    for node in nodes {
        if !out.is_empty() {
            out.push(' ')?;
        }
        show_node(&mut out, *node)?;
    }
    Ok(out)
}

// The nodes of an axis and their end, for words AXIS TEST NODE.
fn found<T: Tree>(
    alloc: Global,
    names: &mut Names,
    t: &T,
    words: &str,
) -> Result<String, AllocError> {
    let (axis, rest) = words.split_once(' ').unwrap_or((words, ""));
    let (test, node) = rest.split_once(' ').unwrap_or((rest, ""));
    let test = test_of(names, test)?;
    let (nodes, end) = nodes_along(alloc, t, axis_of(axis), node_of(node), &test, names)?;
    let nodes = shown(alloc, nodes.as_slice())?;
    format!(in alloc; "[{}] {end:?}", nodes.as_str())
}

/// What an axis of an open tree lists.
pub fn axis(alloc: Global, text: &str) -> Result<String, AllocError> {
    let (words, events) = text.split_once(" of ").unwrap_or((text, ""));
    let mut names = sx_names::new(alloc);
    let mut growing = Growing::new(alloc, u32::MAX)?;
    all_added(alloc, &mut names, &mut growing, events)?;
    found(alloc, &mut names, &growing.tree, words)
}

/// What an axis of a spine lists.
pub fn of_spine(alloc: Global, text: &str) -> Result<String, AllocError> {
    let (words, entries) = text.split_once(" of ").unwrap_or((text, ""));
    let mut names = sx_names::new(alloc);
    let mut spine = Spine::new();
    all_branched(alloc, &mut spine, entries)?;
    found(alloc, &mut names, &spine, words)
}

/// Nodes in document order.
pub fn order(alloc: Global, text: &str) -> Result<String, AllocError> {
    let mut nodes: Nodes = Items::new(alloc);
    for word in text.split(' ') {
        nodes.push(node_of(word))?;
    }
    let ordered = in_order(alloc, &Spine::new(), nodes)?;
    shown(alloc, ordered.as_slice())
}
