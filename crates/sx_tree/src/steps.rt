// What a step of a path says: its axis and its node test.
use crate::Chars;

/// The axes (XPath 3.1, 3.3.2.1).
#[derive(Clone, Copy, Debug, PartialEq, Eq)]
pub enum Axis {
    SelfNode,
    Child,
    Descendant,
    DescendantOrSelf,
    Attribute,
    Parent,
    Ancestor,
    AncestorOrSelf,
    Following,
    FollowingSibling,
    Preceding,
    PrecedingSibling,
}

/// The node tests (XPath 3.1, 3.3.2.2). A name is given by its number.
#[derive(Drop)]
pub enum NodeTest {
    /// a name
    Name(u64),
    /// `*`
    AnyName,
    /// `p:*`, by the namespace to which the prefix is bound
    InSpace(Chars),
    /// `*:n`, by the local name
    Local(Chars),
    /// `node()`
    Node,
    /// `text()`
    Text,
    /// `comment()`
    Comment,
    /// `document-node()`
    Document,
    /// `processing-instruction()`, where there is one with its target
    Pi(Option<Chars>),
    /// `element()`, where there is one with its name
    Element(Option<u64>),
    /// `attribute()`, where there is one with its name
    Attribute(Option<u64>),
}
