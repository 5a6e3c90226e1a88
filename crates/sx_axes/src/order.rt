// Document order (XDM 3.1, 2.4).
ghost use Rattle.std.specs.Prelude.{◌≡◌, IfOk};
ghost use Rattle.sx_axes.specs.Order as spec;

use crate::Nodes;
use sqlite_items::Items;
use std::alloc::{AllocError, Global};
use sx_tree::{Node, Tree};

// Where a node stands in document order: its place, or that of its element, and there the element first, and then its
// attributes by their numbers.
fn order_of(n: Node) -> (u32, u64)
    ensures { result ≡ spec.order_of n }
{
    match n {
        Node::At(place) => (place, 0),
        Node::Attr(place, number) => (place, u64::from(number) + 1),
    }
}

/// The nodes in document order, each once; `_t` is the tree that they are of. The work is in proportion to `n log n` for `n`
/// nodes.
pub fn in_order<T: Tree>(alloc: Global, _t: &T, nodes: Nodes) -> Result<Nodes, AllocError>
    ensures { IfOk result (λ found. found ≡ spec.ordered nodes) }
{
    let mut sorted = Vec::from_slice(alloc, nodes.as_slice())?;
    sorted.sort_unstable_by_key(|n| order_of(*n));
    sorted.dedup_by_key(|n| order_of(*n));
    Ok(Items::from_vec(sorted))
}
