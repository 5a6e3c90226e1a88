// Walks through a tree, each of which puts the nodes that it meets and that pass behind others.
ghost use Rattle.std.specs.Prelude.{◌≡◌, IfOk, OnOk};
ghost use Rattle.sx_axes.specs.Axes as spec;
ghost use Rattle.sx_axes.specs.Sought.{Keeps, KeepsAlong};
ghost use Rattle.sx_axes.specs.Ways as ways;
ghost use Rattle.sx_axes.specs.Ways.{is_from, places_from, with_ancestors, with_later};
ghost use Rattle.sx_tree.specs.TreeView.{IsTree, child_places, first_place, outer_places, sibling_places};

use crate::Nodes;
use crate::node_tests::{Sought, keep};
use sqlite_items::Items;
use std::alloc::{AllocError, Global};
use sx_tree::{Axis, Node, Tree};

// A law of every tree, which costs nothing.
fn is_tree<T: Tree>(t: &T)
    ensures { IsTree (T.places t.now).entries }
{
    let _count = t.place_count();
}

// The place of a node, if there is one and it is no attribute.
fn place_in(n: Option<Node>) -> Option<u32>
    ensures { result ≡ ways.place_in n }
{
    match n {
        Some(Node::At(place)) => Some(place),
        _ => None,
    }
}

// The place of the parent of the node at a place, if it has one.
fn parent_place<T: Tree>(t: &T, place: u32) -> Option<u32>
    ensures { result ≡ first_place (outer_places (T.places t.now) place) }
{
    place_in(t.parent(Node::At(place)))
}

// The place of its first child, if it has one.
fn child_place<T: Tree>(t: &T, place: u32) -> Option<u32>
    ensures { result ≡ first_place (child_places (T.places t.now) place) }
{
    place_in(t.first_child(Node::At(place)))
}

// The place of the sibling next behind it, if it has one.
fn sibling_place<T: Tree>(t: &T, place: u32) -> Option<u32>
    ensures { result ≡ first_place (sibling_places (T.places t.now) place) }
{
    place_in(t.next_sibling(Node::At(place)))
}

// ---- beside each other

// A node, if there is one, and the siblings behind it.
fn keep_with_later<T: Tree>(
    t: &T,
    first: Option<Node>,
    sought: &Sought<'_>,
    out: &mut Nodes,
) -> Result<(), AllocError>
    ensures { OnOk result (Keeps sought.now (T.places t.now) (with_later (T.places t.now) first)
        out.old out.new) }
{
    let mut next = first;
    while let Some(n) = next {
        keep(t, n, sought, out)?;
        next = t.next_sibling(n);
    }
    Ok(())
}

// The children of a node.
pub(crate) fn keep_children<T: Tree>(
    t: &T,
    from: Node,
    sought: &Sought<'_>,
    out: &mut Nodes,
) -> Result<(), AllocError>
    ensures { OnOk result (KeepsAlong sought.now (T.places t.now) Axis.Child from out.old out.new) }
{
    keep_with_later(t, t.first_child(from), sought, out)
}

// The siblings behind a node.
pub(crate) fn keep_following_siblings<T: Tree>(
    t: &T,
    from: Node,
    sought: &Sought<'_>,
    out: &mut Nodes,
) -> Result<(), AllocError>
    ensures { OnOk result (KeepsAlong sought.now (T.places t.now) Axis.FollowingSibling from
        out.old out.new) }
{
    is_tree(t);
    keep_with_later(t, t.next_sibling(from), sought, out)
}

// The places of the siblings before a node.
fn earlier_siblings<T: Tree>(alloc: Global, t: &T, place: u32) -> Result<Items<u32>, AllocError>
    ensures { IfOk result (λ ks. ks ≡ spec.places_before place
        (spec.children_of (T.places t.now) (first_place (outer_places (T.places t.now) place)))) }
{
    let mut earlier = Items::new(alloc);
    let Some(parent) = parent_place(t, place) else {
        return Ok(earlier);
    };
    let mut next = child_place(t, parent);
    while let Some(k) = next {
        if k >= place {
            return Ok(earlier);
        }
        earlier.push(k)?;
        next = sibling_place(t, k);
    }
    Ok(earlier)
}

// The nodes at places, the last one first.
fn keep_backward<T: Tree>(
    t: &T,
    mut places: Items<u32>,
    sought: &Sought<'_>,
    out: &mut Nodes,
) -> Result<(), AllocError>
    ensures { OnOk result (Keeps sought.now (T.places t.now) (spec.at_places (spec.reversed places))
        out.old out.new) }
{
    while let Some(place) = places.pop() {
        keep(t, Node::At(place), sought, out)?;
    }
    Ok(())
}

// The siblings before a node, the last one first.
pub(crate) fn keep_preceding_siblings<T: Tree>(
    alloc: Global,
    t: &T,
    from: Node,
    sought: &Sought<'_>,
    out: &mut Nodes,
) -> Result<(), AllocError>
    ensures { OnOk result (KeepsAlong sought.now (T.places t.now) Axis.PrecedingSibling from
        out.old out.new) }
{
    match from {
        Node::At(place) => {
            let earlier = earlier_siblings(alloc, t, place)?;
            keep_backward(t, earlier, sought, out)
        }
        Node::Attr(_, _) => Ok(()),
    }
}

// ---- outward

// The parent of a node, if it has one.
pub(crate) fn keep_parent<T: Tree>(
    t: &T,
    from: Node,
    sought: &Sought<'_>,
    out: &mut Nodes,
) -> Result<(), AllocError>
    ensures { OnOk result (KeepsAlong sought.now (T.places t.now) Axis.Parent from out.old out.new) }
{
    match t.parent(from) {
        Some(parent) => keep(t, parent, sought, out),
        None => Ok(()),
    }
}

// A node, if there is one, and its ancestors, the innermost first.
fn keep_with_ancestors<T: Tree>(
    t: &T,
    first: Option<Node>,
    sought: &Sought<'_>,
    out: &mut Nodes,
) -> Result<(), AllocError>
    ensures { OnOk result (Keeps sought.now (T.places t.now)
        (with_ancestors (T.places t.now) first) out.old out.new) }
{
    let mut next = first;
    while let Some(n) = next {
        keep(t, n, sought, out)?;
        next = t.parent(n);
    }
    Ok(())
}

// The ancestors of a node, the innermost first.
pub(crate) fn keep_ancestors<T: Tree>(
    t: &T,
    from: Node,
    sought: &Sought<'_>,
    out: &mut Nodes,
) -> Result<(), AllocError>
    ensures { OnOk result (KeepsAlong sought.now (T.places t.now) Axis.Ancestor from
        out.old out.new) }
{
    keep_with_ancestors(t, t.parent(from), sought, out)
}

// ---- inward

// Whether the parent of the node at a place stands at another or behind it.
fn has_parent_from<T: Tree>(t: &T, place: u32, start: u32) -> bool
    ensures { result ≡ is_from start (first_place (outer_places (T.places t.now) place)) }
{
    match parent_place(t, place) {
        Some(parent) => parent >= start,
        None => false,
    }
}

// All that is in the node at a place.
fn keep_inside<T: Tree>(
    t: &T,
    place: u32,
    sought: &Sought<'_>,
    out: &mut Nodes,
) -> Result<(), AllocError>
    ensures { OnOk result (KeepsAlong sought.now (T.places t.now) Axis.Descendant (Node.At place)
        out.old out.new) }
{
    for next in place.saturating_add(1)..t.place_count() {
        if !has_parent_from(t, next, place) {
            return Ok(());
        }
        keep(t, Node::At(next), sought, out)?;
    }
    Ok(())
}

// The descendants of a node.
pub(crate) fn keep_descendants<T: Tree>(
    t: &T,
    from: Node,
    sought: &Sought<'_>,
    out: &mut Nodes,
) -> Result<(), AllocError>
    ensures { OnOk result (KeepsAlong sought.now (T.places t.now) Axis.Descendant from
        out.old out.new) }
{
    match from {
        Node::At(place) => keep_inside(t, place, sought, out),
        Node::Attr(_, _) => Ok(()),
    }
}

// The attributes of a node.
pub(crate) fn keep_attributes<T: Tree>(
    t: &T,
    from: Node,
    sought: &Sought<'_>,
    out: &mut Nodes,
) -> Result<(), AllocError>
    ensures { OnOk result (KeepsAlong sought.now (T.places t.now) Axis.Attribute from
        out.old out.new) }
{
    let Node::At(place) = from else {
        return Ok(());
    };
    for number in 0..t.attr_count(from) {
        keep(t, Node::Attr(place, number), sought, out)?;
    }
    Ok(())
}

// ---- behind and before

// The first place behind a node and all that is in it, or the number of places where there is none.
fn place_behind<T: Tree>(t: &T, place: u32) -> u32
    ensures { spec.following_places (T.places t.now) (Node.At place)
        ≡ places_from (T.places t.now) result }
{
    let count = t.place_count();
    let mut outer = place;
    'outward: loop {
        if let Some(next) = sibling_place(t, outer) {
            return next;
        }
        let Some(parent) = parent_place(t, outer) else {
            return count;
        };
        outer = parent;
    }
}

// The first place behind all that is in a node, or behind an attribute.
fn place_following<T: Tree>(t: &T, from: Node) -> u32
    ensures { spec.following_places (T.places t.now) from ≡ places_from (T.places t.now) result }
{
    match from {
        Node::At(place) => place_behind(t, place),
        Node::Attr(place, _) => {
            is_tree(t);
            place.saturating_add(1)
        }
    }
}

// All behind a node and what is in it.
pub(crate) fn keep_following<T: Tree>(
    t: &T,
    from: Node,
    sought: &Sought<'_>,
    out: &mut Nodes,
) -> Result<(), AllocError>
    ensures { OnOk result (KeepsAlong sought.now (T.places t.now) Axis.Following from
        out.old out.new) }
{
    for place in place_following(t, from)..t.place_count() {
        keep(t, Node::At(place), sought, out)?;
    }
    Ok(())
}

// All before the node at a place, but its ancestors, the last one first.
fn keep_before<T: Tree>(
    t: &T,
    place: u32,
    sought: &Sought<'_>,
    out: &mut Nodes,
) -> Result<(), AllocError>
    ensures { OnOk result (Keeps sought.now (T.places t.now)
        (spec.at_places (spec.preceding_places (T.places t.now) place)) out.old out.new) }
{
    let mut outer = parent_place(t, place);
    for before in (0..place.min(t.place_count())).rev() {
        if outer == Some(before) {
            outer = parent_place(t, before);
            continue;
        }
        keep(t, Node::At(before), sought, out)?;
    }
    Ok(())
}

// All before a node, but its ancestors, the last one first.
pub(crate) fn keep_preceding<T: Tree>(
    t: &T,
    from: Node,
    sought: &Sought<'_>,
    out: &mut Nodes,
) -> Result<(), AllocError>
    ensures { OnOk result (KeepsAlong sought.now (T.places t.now) Axis.Preceding from
        out.old out.new) }
{
    match from {
        Node::At(place) => keep_before(t, place, sought, out),
        Node::Attr(place, _) => keep_before(t, place, sought, out),
    }
}
