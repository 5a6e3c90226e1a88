// A tree whose nodes are counted.
ghost use Rattle.std.specs.Prelude.{◌≡◌, ◌<◌, ◌≤◌, ◌+◌, ◌-◌, ◌^◌, ◌⊎◌, ◌↔◌, [], IsErr, IfOk, OnOk, OnErr, suc};
ghost use Rattle.std.specs.Prelude.{length, true, min, nat_le, if◌then◌else◌};
ghost use Rattle.std.specs.Option.{option_map};
ghost use Rattle.sx_tree.specs.Begun.{begun, begun_count, begins_open};
ghost use Rattle.sx_tree.specs.Copies.{node_count};
ghost use Rattle.sx_tree.specs.Events.{tree_event};
ghost use Rattle.sx_tree.specs.OpenTree.{MayComeNext};
ghost use Rattle.sx_tree.specs.Places.{first_places, put_event, with_node, without_innermost};
ghost use Rattle.sx_tree.specs.Rows.{content_of, ended_in};
ghost use Rattle.sx_tree.specs.TreeView.{attributes_of, is_open_place};

use crate::rows::{NodeContent, Rows};
use crate::{Chars, Event, Label, copy_attrs};
use std::alloc::{AllocError, Global};
use std::marker::Model;

/// A tree has no room for the nodes of the event.
#[derive(Clone, Copy, Debug)]
pub struct Full;

/// A tree with the number of its nodes, attributes among them, and the greatest number that it may have.
#[derive(Drop)]
pub struct CountedRows {
    alloc: Global,
    rows: Rows,
    limit: u64,
    nodes: u64,
}

impl Model for CountedRows {
    ghost use Rattle.sx_tree.specs.OpenTree.{Table};
    ghost use Rattle.sx_tree.specs.Counted.{table_of, IsCounted};

    ghost Value = { Table };

    ghost view = { table_of };

    ghost invariant = { IsCounted };
}

// The node that an event begins, if it begins one.
fn begun_content(alloc: Global, event: &Event) -> Result<Option<NodeContent>, AllocError>
    ensures { IfOk result (λ content. option_map content_of content ≡ begun (tree_event event.now)) }
{
    match event {
        Event::Start { label, attrs, .. } => Ok(Some(NodeContent::Element {
            label: Label::copy(alloc, label)?,
            attrs: copy_attrs(alloc, attrs)?,
        })),
        Event::Text(text) => Ok(Some(NodeContent::Text(Chars::copy(alloc, text.as_str())?))),
        Event::Pi { target, content } => Ok(Some(NodeContent::Pi {
            target: Chars::copy(alloc, target.as_str())?,
            content: Chars::copy(alloc, content.as_str())?,
        })),
        Event::End => Ok(None),
        Event::Close => Ok(None),
    }
}

// The number of nodes that an event begins, or the greatest u64.
fn begun_nodes(event: &Event) -> u64
    ensures { result ≡ min (begun_count (tree_event event.now)) (2 ^ 64 - 1) }
{
    match event {
        Event::Start { attrs, .. } => (attrs.len() as u64).saturating_add(1),
        Event::Text(_) => 1,
        Event::Pi { .. } => 1,
        Event::End => 0,
        Event::Close => 0,
    }
}

// Whether more may come in the node that an event begins.
fn opens(event: &Event) -> bool
    ensures { result ≡ begins_open (tree_event event.now) }
{
    match event {
        Event::Start { .. } => true,
        Event::Text(_) => false,
        Event::Pi { .. } => false,
        Event::End => false,
        Event::Close => false,
    }
}

impl CountedRows {
    /// No nodes. It takes no memory.
    pub fn empty(alloc: Global, limit: u64) -> CountedRows
        requires { limit < 2 ^ 32 }
        ensures entries { result.places.entries ≡ [] }
        ensures level { result.places.level ≡ 0 }
        ensures limit { result.limit ≡ limit }
    {
        CountedRows {
            alloc,
            rows: Rows::new(alloc),
            limit,
            nodes: 0,
        }
    }

    /// A document node that is open and has no children, whatever the limit.
    pub fn document(alloc: Global, limit: u64) -> Result<CountedRows, AllocError>
        requires { limit < 2 ^ 32 }
        ensures places { IfOk result (λ t. t.places ≡ first_places) }
        ensures limit { IfOk result (λ t. t.limit ≡ limit) }
    {
        let mut rows = Rows::new(alloc);
        rows.begin(NodeContent::Document, true)?;
        Ok(CountedRows {
            alloc,
            rows,
            limit,
            nodes: 1,
        })
    }

    /// The nodes.
    pub fn rows(&self) -> &Rows
        ensures { result.now ≡ self.now.places }
    {
        &self.rows
    }

    /// Whether there may be so many nodes more.
    pub fn has_room_for(&self, nodes: u64) -> bool
        ensures { result ≡ nat_le (node_count self.now.places.entries + nodes) self.now.limit }
    {
        self.nodes.saturating_add(nodes) <= self.limit
    }

    /// A node begins in the innermost open one. More may come in it where it `opens`.
    pub fn begin(&mut self, content: NodeContent, opens: bool) -> Result<(), AllocError>
        requires room { node_count self.old.places.entries
            + suc (length (attributes_of (content_of content))) ≤ self.old.limit }
        requires inward { (self.old.places.entries ≡ []) ⊎ (0 < self.old.places.level) }
        ensures places { OnOk result (self.new.places ≡ with_node self.old.places (content_of content)
            (if opens then suc self.old.places.level else self.old.places.level)) }
        ensures limit { self.new.limit ≡ self.old.limit }
        ensures err { OnErr result (self.new ≡ self.old) }
    {
        let nodes = 1 + content.attrs().len() as u64;
        self.rows.begin(content, opens)?;
        self.nodes += nodes;
        Ok(())
    }

    /// The innermost open node ends, if there is one.
    pub fn end(&mut self)
        ensures places { self.new.places ≡ without_innermost self.old.places }
        ensures limit { self.new.limit ≡ self.old.limit }
    {
        self.rows.end();
    }

    /// All that is in an open node ends.
    pub fn end_inside(&mut self, k: u32)
        requires { is_open_place self.old.places k ≡ true }
        ensures places { self.new.places ≡ ended_in self.old.places k }
        ensures limit { self.new.limit ≡ self.old.limit }
    {
        self.rows.end_inside(k);
    }

    /// Adds what an event says. `Full` comes exactly where there would then be more nodes than the limit; after it, as after an
    /// `AllocError`, nothing has changed.
    pub fn push(&mut self, event: &Event) -> Result<Result<(), Full>, AllocError>
        requires { MayComeNext self.old.places (tree_event event.now) }
        ensures limit { self.new.limit ≡ self.old.limit }
        ensures ok { IfOk result (λ answer. OnOk answer (self.new.places
            ≡ put_event self.old.places (tree_event event.now))) }
        ensures exactly { IfOk result (λ answer. IsErr answer
            ↔ (self.old.limit < node_count (put_event self.old.places (tree_event event.now)).entries)) }
        ensures full { IfOk result (λ answer. OnErr answer (self.new ≡ self.old)) }
        ensures err { OnErr result (self.new ≡ self.old) }
    {
        if !self.has_room_for(begun_nodes(event)) {
            return Ok(Err(Full));
        }
        match begun_content(self.alloc, event)? {
            Some(content) => self.begin(content, opens(event))?,
            None => self.end(),
        }
        Ok(Ok(()))
    }
}
