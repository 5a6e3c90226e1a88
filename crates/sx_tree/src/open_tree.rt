// A tree that grows by events, and the tree that no event changes any more.
ghost use Rattle.std.specs.Prelude.{◌≡◌, ◌<◌, ◌^◌, ◌↔◌, IsOk, IsErr, IfOk, IfErr, OnOk, OnErr};
ghost use Rattle.sx_tree.specs.Copies.{closed, node_count};
ghost use Rattle.sx_tree.specs.Events.{tree_event};
ghost use Rattle.sx_tree.specs.OpenTree.{MayComeNext};
ghost use Rattle.sx_tree.specs.Places.{first_places, put_event};

use crate::counted_rows::{CountedRows, Full};
use crate::{Event, Kind, LabelView, Node, Tree};
use std::alloc::{AllocError, Global};
use std::marker::Model;

/// The tree of the events so far: a document node that is open until the close, with its children.
#[derive(Drop)]
pub struct OpenTree {
    rows: CountedRows,
}

impl Model for OpenTree {
    ghost use Rattle.sx_tree.specs.OpenTree.{Table};

    ghost Value = { Table };

    ghost view = { λ t. t.rows };
}

/// A tree in which no node is open.
#[derive(Drop)]
pub struct NodeTable {
    rows: CountedRows,
}

impl Model for NodeTable {
    ghost use Rattle.sx_tree.specs.OpenTree.{Table};

    ghost Value = { Table };

    ghost view = { λ t. t.rows };
}

impl OpenTree {
    /// A document node that is open and has no children. The tree may have `limit` nodes: the document
    /// node, elements, attributes, texts and processing instructions.
    pub fn new(alloc: Global, limit: u64) -> Result<OpenTree, AllocError>
        requires { limit < 2 ^ 32 }
        ensures places { IfOk result (λ t. t.places ≡ first_places) }
        ensures limit { IfOk result (λ t. t.limit ≡ limit) }
    {
        Ok(OpenTree {
            rows: CountedRows::document(alloc, limit)?,
        })
    }

    /// Adds what an event says, which may follow those before. `Full` comes exactly where the tree would
    /// then have more nodes than its limit; after it, as after an `AllocError`, nothing has changed.
    pub fn push(&mut self, event: &Event) -> Result<Result<(), Full>, AllocError>
        requires { MayComeNext self.old.places (tree_event event.now) }
        ensures limit { self.new.limit ≡ self.old.limit }
        ensures ok { IfOk result (λ answer. OnOk answer (self.new.places
            ≡ put_event self.old.places (tree_event event.now))) }
        ensures exactly { IfOk result (λ answer. IsErr answer
            ↔ (self.old.limit < node_count (put_event self.old.places (tree_event event.now)).entries)) }
        ensures full { IfOk result (λ answer. OnErr answer (self.new ≡ self.old)) }
        ensures err { OnErr result (self.new ≡ self.old) }
    {
        self.rows.push(event)
    }

    /// The closed tree. It gives the tree back exactly where its document node or an element is open.
    pub fn close(self) -> Result<NodeTable, OpenTree>
        ensures exactly { IsOk result ↔ (self.places.level ≡ 0) }
        ensures ok { IfOk result (λ table. table ≡ self) }
        ensures err { IfErr result (λ back. back ≡ self) }
    {
        if self.rows.rows().level() > 0 {
            return Err(self);
        }
        let OpenTree { rows } = self;
        Ok(NodeTable { rows })
    }
}

impl NodeTable {
    // The table of rows, none of which is taken as open.
    pub(crate) fn from_rows(rows: CountedRows) -> NodeTable
        ensures { result ≡ rows }
    {
        NodeTable { rows }
    }

    /// A document node that has no children. The tree may have `limit` nodes: the document node, elements, attributes, texts
    /// and processing instructions.
    pub fn new(alloc: Global, limit: u64) -> Result<NodeTable, AllocError>
        requires { limit < 2 ^ 32 }
        ensures places { IfOk result (λ t. t.places ≡ first_places) }
        ensures limit { IfOk result (λ t. t.limit ≡ limit) }
    {
        Ok(NodeTable {
            rows: CountedRows::document(alloc, limit)?,
        })
    }

    /// Adds what an event says, which may follow those before. `Full` comes exactly where the tree would
    /// then have more nodes than its limit; after it, as after an `AllocError`, nothing has changed.
    pub fn append(&mut self, event: &Event) -> Result<Result<(), Full>, AllocError>
        requires { MayComeNext self.old.places (tree_event event.now) }
        ensures limit { self.new.limit ≡ self.old.limit }
        ensures ok { IfOk result (λ answer. OnOk answer (self.new.places
            ≡ put_event self.old.places (tree_event event.now))) }
        ensures exactly { IfOk result (λ answer. IsErr answer
            ↔ (self.old.limit < node_count (put_event self.old.places (tree_event event.now)).entries)) }
        ensures full { IfOk result (λ answer. OnErr answer (self.new ≡ self.old)) }
        ensures err { OnErr result (self.new ≡ self.old) }
    {
        self.rows.push(event)
    }
}

impl Tree for OpenTree {
    ghost places = { λ t. t.places };

    fn place_count(&self) -> u32 {
        self.rows.rows().place_count()
    }

    fn kind(&self, n: Node) -> Kind {
        self.rows.rows().kind(n)
    }

    fn label(&self, n: Node) -> Option<LabelView<'_>> {
        self.rows.rows().label(n)
    }

    fn target(&self, n: Node) -> Option<&str> {
        self.rows.rows().target(n)
    }

    fn parent(&self, n: Node) -> Option<Node> {
        self.rows.rows().parent(n)
    }

    fn first_child(&self, n: Node) -> Option<Node> {
        self.rows.rows().first_child(n)
    }

    fn next_sibling(&self, n: Node) -> Option<Node> {
        self.rows.rows().next_sibling(n)
    }

    fn attr_count(&self, n: Node) -> u32 {
        self.rows.rows().attr_count(n)
    }

    fn text(&self, n: Node) -> &str {
        self.rows.rows().text(n)
    }

    fn is_open(&self, n: Node) -> bool {
        self.rows.rows().is_open(n)
    }
}

impl Tree for NodeTable {
    ghost places = { λ t. closed t.places };

    fn place_count(&self) -> u32 {
        self.rows.rows().place_count()
    }

    fn kind(&self, n: Node) -> Kind {
        self.rows.rows().kind(n)
    }

    fn label(&self, n: Node) -> Option<LabelView<'_>> {
        self.rows.rows().label(n)
    }

    fn target(&self, n: Node) -> Option<&str> {
        self.rows.rows().target(n)
    }

    fn parent(&self, n: Node) -> Option<Node> {
        self.rows.rows().parent(n)
    }

    fn first_child(&self, n: Node) -> Option<Node> {
        self.rows.rows().first_child(n)
    }

    fn next_sibling(&self, n: Node) -> Option<Node> {
        self.rows.rows().next_sibling(n)
    }

    fn attr_count(&self, n: Node) -> u32 {
        self.rows.rows().attr_count(n)
    }

    fn text(&self, n: Node) -> &str {
        self.rows.rows().text(n)
    }

    fn is_open(&self, _: Node) -> bool {
        false
    }
}
