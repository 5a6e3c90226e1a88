// Static types.
use sqlite_items::Items;

/// The kinds of items that an expression may give. `AnyAtom` joins the kinds of atoms, `Node` those of nodes, and `Any` all.
/// `Nothing` is the kind of an expression that gives no item, and joins with every other.
#[derive(Clone, Copy, Debug, PartialEq, Eq)]
pub enum TyKind {
    Document,
    Element,
    Attribute,
    Text,
    Pi,
    Node,
    Integer,
    Decimal,
    Str,
    Boolean,
    Untyped,
    AnyAtom,
    Any,
    Nothing,
}

/// Where the nodes come from that an expression gives.
#[derive(Clone, Copy, Debug, PartialEq, Eq)]
pub enum Origin {
    /// from the document
    Source,
    /// from one copied tree
    One,
    /// from copies, each node from one of its own
    Separate,
    /// from anywhere else
    Forest,
}

/// A static type: the kind of the items, whether there is at most one, and the origin of the nodes.
#[derive(Clone, Copy, Debug, PartialEq, Eq)]
pub struct Ty {
    pub kind: TyKind,
    pub at_most_one: bool,
    pub origin: Origin,
}

/// What a part of a construct is, as far as the types of what stands around it ask.
#[derive(Clone, Copy, Debug, PartialEq, Eq)]
pub enum Shape {
    /// a step on the child axis without a positional predicate
    ChildStep,
    /// any other step
    Step,
    /// a call of `copy-of` or `snapshot`, or a filter of one
    Copy,
    /// a path with `/` a front part of which gives nodes of separate copies
    PerItem,
    /// anything else
    Other,
}

/// Where the steps start by which an expression takes its nodes.
#[derive(Clone, Copy, Debug, PartialEq, Eq)]
pub enum Start {
    /// it takes no nodes
    Nowhere,
    /// at the context item alone
    Context,
    /// at the items of a variable alone
    Variable(u64),
    /// anywhere else
    Elsewhere,
}

/// What is known of an expression in its context: its type, and what the types of what stands around it ask besides.
#[derive(Clone, Copy, Debug, PartialEq, Eq)]
pub struct Typing {
    pub ty: Ty,
    pub shape: Shape,
    /// Whether it stands behind `//`.
    pub deep: bool,
    pub start: Start,
    /// Whether it calls `position()` or `last()` in its own focus.
    pub counts: bool,
}

/// What is known of the parts of an expression together. The first three are `None` where they are not there.
#[derive(Clone, Copy, Debug, PartialEq, Eq)]
pub struct Parts {
    pub first: Option<Typing>,
    pub second: Option<Typing>,
    pub third: Option<Typing>,
    /// The kinds of all, joined.
    pub kind: TyKind,
    /// The origin of all behind one another: `None` where no part may give a node.
    pub origin: Option<Origin>,
    /// Where the nodes of all start.
    pub start: Start,
    /// Whether some part calls `position()` or `last()` in its own focus.
    pub counts: bool,
    /// Whether some part would be positional as a predicate: it may be a number, or it counts.
    pub positional: bool,
}

/// The type of a variable, whose name is given by its number.
#[derive(Clone, Copy, Debug, PartialEq, Eq)]
pub struct VarType {
    pub name: u64,
    pub ty: Ty,
}

/// Variables and their types. Of two with one name the later one counts.
pub type VarTypes = Items<VarType>;
