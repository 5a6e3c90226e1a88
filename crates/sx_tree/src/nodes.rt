// The nodes of trees.

/// A node of a tree: its place in document order, from 0, among the nodes that are no attributes of elements; or the
/// number, from 0, of an attribute of the element at a place.
#[derive(Clone, Copy, Debug, PartialEq, Eq)]
pub enum Node {
    At(u32),
    Attr(u32, u32),
}

/// The kinds of nodes (XDM 3.1, 6).
#[derive(Clone, Copy, Debug, PartialEq, Eq)]
pub enum Kind {
    Document,
    Element,
    Attribute,
    Text,
    Pi,
}
