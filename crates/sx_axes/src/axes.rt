// The nodes of an axis, and where they end (XPath 3.1, 3.3.2.1 and 3.3.2.2).
ghost use Rattle.std.specs.Prelude.{◌≡◌, IfOk, OnOk};
ghost use Rattle.sx_axes.specs.Axes.{ancestor_places, any_open, axis_from, end_along, listed_from};
ghost use Rattle.sx_axes.specs.Sought.{KeepsAlong};

use crate::SelEnd;
use crate::node_tests::{Sought, keep};
use crate::walks::{
    keep_ancestors, keep_attributes, keep_children, keep_descendants, keep_following,
    keep_following_siblings, keep_parent, keep_preceding, keep_preceding_siblings,
};
use sqlite_items::Items;
use std::alloc::{AllocError, Global};
use sx_names::Names;
use sx_tree::{Axis, Node, NodeTest, Tree};

/// Nodes of a tree.
pub type Nodes = Items<Node>;

// Puts the nodes of an axis that pass behind others.
fn keep_along<T: Tree>(
    alloc: Global,
    t: &T,
    from: Node,
    sought: &Sought<'_>,
    out: &mut Nodes,
) -> Result<(), AllocError>
    ensures { OnOk result (KeepsAlong sought.now (T.places t.now) sought.now.axis from
        out.old out.new) }
{
    match sought.axis {
        Axis::SelfNode => keep(t, from, sought, out),
        Axis::Child => keep_children(t, from, sought, out),
        Axis::Descendant => keep_descendants(t, from, sought, out),
        Axis::DescendantOrSelf => {
            keep(t, from, sought, out)?;
            keep_descendants(t, from, sought, out)
        }
        Axis::Attribute => keep_attributes(t, from, sought, out),
        Axis::Parent => keep_parent(t, from, sought, out),
        Axis::Ancestor => keep_ancestors(t, from, sought, out),
        Axis::AncestorOrSelf => {
            keep(t, from, sought, out)?;
            keep_ancestors(t, from, sought, out)
        }
        Axis::Following => keep_following(t, from, sought, out),
        Axis::FollowingSibling => keep_following_siblings(t, from, sought, out),
        Axis::Preceding => keep_preceding(t, from, sought, out),
        Axis::PrecedingSibling => keep_preceding_siblings(alloc, t, from, sought, out),
    }
}

// Whether an ancestor of a node is open.
fn is_in_open<T: Tree>(t: &T, from: Node) -> bool
    ensures { result ≡ any_open (T.places t.now) (ancestor_places (T.places t.now) from) }
{
    let mut next = t.parent(from);
    while let Some(n) = next {
        if t.is_open(n) {
            return true;
        }
        next = t.parent(n);
    }
    false
}

// Whether the parent of a node is open, which for an attribute is not asked.
fn has_open_parent<T: Tree>(t: &T, from: Node) -> bool
    ensures { result ≡ any_open (T.places t.now) (listed_from (T.places t.now) Axis.FollowingSibling from) }
{
    match from {
        Node::At(_) => match t.parent(from) {
            Some(parent) => t.is_open(parent),
            None => false,
        },
        Node::Attr(_, _) => false,
    }
}

// Whether more may come on an axis: whether a node is open whose children it lists. What is in a node is open only where the
// node is.
fn may_continue<T: Tree>(t: &T, a: Axis, from: Node) -> bool
    ensures { result ≡ any_open (T.places t.now) (listed_from (T.places t.now) a from) }
{
    match a {
        Axis::Child | Axis::Descendant | Axis::DescendantOrSelf => t.is_open(from),
        Axis::Following | Axis::Preceding => is_in_open(t, from),
        Axis::FollowingSibling | Axis::PrecedingSibling => has_open_parent(t, from),
        Axis::SelfNode | Axis::Attribute | Axis::Parent | Axis::Ancestor | Axis::AncestorOrSelf =>
            false,
    }
}

// Where an axis ends.
fn end_of<T: Tree>(t: &T, a: Axis, from: Node) -> SelEnd
    ensures { result ≡ end_along (T.places t.now) a from }
{
    if may_continue(t, a, from) {
        SelEnd::Open
    } else {
        SelEnd::Done
    }
}

/// The nodes of an axis from a node that pass a test, and where they end: in document order, but on the axes that go back or
/// outward in reverse document order (XPath 3.1, 3.3.2). A name in the test is meant by its number among `names`. What is no
/// node of the tree is never found; as `from` it has the axes that its place has.
///
/// Where each answer of the tree takes constant time, the work is in proportion to the nodes of the axis and the ancestors of
/// `from`. Memory is taken for the nodes that are found, and for the siblings before `from` on their axis.
pub fn axis<T: Tree>(
    alloc: Global,
    t: &T,
    a: Axis,
    from: Node,
    test: &NodeTest,
    names: &Names,
) -> Result<(Nodes, SelEnd), AllocError>
    ensures { IfOk result (λ found. record { nodes = found.0; end = found.1 }
        ≡ axis_from names.now (T.places t.now) a test.now from) }
{
    let sought = Sought {
        axis: a,
        test,
        names,
    };
    let mut nodes = Items::new(alloc);
    keep_along(alloc, t, from, &sought, &mut nodes)?;
    Ok((nodes, end_of(t, a, from)))
}
