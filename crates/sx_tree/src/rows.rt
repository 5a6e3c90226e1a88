// A tree in one list, which grows at its end.
ghost use Rattle.std.specs.Prelude.{◌≡◌, ◌<◌, ◌^◌, [], length, true, suc, IfSome, OnOk, OnErr, slice_get, if◌then◌else◌};
ghost use Rattle.std.specs.Option.{option_map, option_copied};
ghost use Rattle.sx_tree.specs.Labels.{label_of_view};
ghost use Rattle.sx_tree.specs.Places.{with_node, without_innermost};
ghost use Rattle.sx_tree.specs.Rows.{IsRoomFor, IsRow, content_of, ended_in, entry_of};
ghost use Rattle.sx_tree.specs.Seen.{attribute_count, first_child_at, kind_of, label_of};
ghost use Rattle.sx_tree.specs.Seen.{next_sibling_at, node_at, parent_at, seen_at, target_of, text_of};
ghost use Rattle.sx_tree.specs.TreeView.{IsTree, attributes_at, attributes_of, child_places, first_place};
ghost use Rattle.sx_tree.specs.TreeView.{is_open_node, is_open_place, outer_places, sibling_places};

use crate::{Attr, Attrs, Chars, Kind, Label, LabelView, Node};
use std::alloc::{AllocError, Global};
use std::marker::Model;

/// What a node is, but for its place.
#[derive(Drop)]
pub enum NodeContent {
    Document,
    Element { label: Label, attrs: Attrs },
    /// an attribute without an element, as a copy of one is
    Attribute(Attr),
    Text(Chars),
    Pi { target: Chars, content: Chars },
}

impl NodeContent {
    /// What kind of node it is.
    pub fn kind(&self) -> Kind
        ensures { result ≡ kind_of (content_of self.now) }
    {
        match self {
            NodeContent::Document => Kind::Document,
            NodeContent::Element { .. } => Kind::Element,
            NodeContent::Attribute(_) => Kind::Attribute,
            NodeContent::Text(_) => Kind::Text,
            NodeContent::Pi { .. } => Kind::Pi,
        }
    }

    /// Its name.
    pub fn label(&self) -> Option<LabelView<'_>>
        ensures { option_map label_of_view result ≡ label_of (content_of self.now) }
    {
        match self {
            NodeContent::Document => None,
            NodeContent::Element { label, .. } => Some(label.view()),
            NodeContent::Attribute(attr) => Some(attr.label.view()),
            NodeContent::Text(_) => None,
            NodeContent::Pi { .. } => None,
        }
    }

    /// Its target.
    pub fn target(&self) -> Option<&str>
        ensures { option_copied result ≡ target_of (content_of self.now) }
    {
        match self {
            NodeContent::Document => None,
            NodeContent::Element { .. } => None,
            NodeContent::Attribute(_) => None,
            NodeContent::Text(_) => None,
            NodeContent::Pi { target, .. } => Some(target.as_str()),
        }
    }

    /// Its characters.
    pub fn text(&self) -> &str
        ensures { result.now ≡ text_of (content_of self.now) }
    {
        match self {
            NodeContent::Document => "",
            NodeContent::Element { .. } => "",
            NodeContent::Attribute(attr) => attr.value.as_str(),
            NodeContent::Text(text) => text.as_str(),
            NodeContent::Pi { content, .. } => content.as_str(),
        }
    }

    /// Its attributes.
    pub fn attrs(&self) -> &[Attr]
        ensures { result.now ≡ attributes_of (content_of self.now) }
    {
        match self {
            NodeContent::Document => &[],
            NodeContent::Element { attrs, .. } => attrs.as_slice(),
            NodeContent::Attribute(_) => &[],
            NodeContent::Text(_) => &[],
            NodeContent::Pi { .. } => &[],
        }
    }
}

/// A node with its depth, the place of what it stands in, and the place behind all that is in it, which an open node has not.
#[derive(Drop)]
pub struct Row {
    content: NodeContent,
    depth: u32,
    parent: Option<u32>,
    end: Option<u32>,
}

/// The nodes of a tree in document order, and the place of the innermost open one.
#[derive(Drop)]
pub struct Rows {
    rows: Vec<Row>,
    innermost: Option<u32>,
}

impl Model for Rows {
    ghost use Rattle.sx_tree.specs.Places.{Places};
    ghost use Rattle.sx_tree.specs.Rows.{places_of_rows, AreRows};

    ghost Value = { Places };

    ghost view = { λ r. places_of_rows r.rows.items r.innermost };

    ghost invariant = { λ r. AreRows r.rows.items r.innermost };
}

// ---- how it grows

impl Rows {
    /// No nodes.
    pub fn new(alloc: Global) -> Rows
        ensures entries { result.entries ≡ [] }
        ensures level { result.level ≡ 0 }
    {
        Rows {
            rows: Vec::new(alloc),
            innermost: None,
        }
    }

    /// How many nodes are open.
    pub fn level(&self) -> u32
        ensures { result ≡ self.now.level }
    {
        match self.innermost {
            None => 0,
            Some(k) => self.rows[k as usize].depth + 1,
        }
    }

    /// A node begins in the innermost open one. More may come in it where it `opens`.
    pub fn begin(&mut self, content: NodeContent, opens: bool) -> Result<(), AllocError>
        requires { IsRoomFor self.old (content_of content) }
        ensures ok { OnOk result (self.new ≡ with_node self.old (content_of content)
            (if opens then suc self.old.level else self.old.level)) }
        ensures err { OnErr result (self.new ≡ self.old) }
    {
        let place = self.rows.len() as u32;
        let row = Row {
            content,
            depth: self.level(),
            parent: self.innermost,
            end: if opens { None } else { Some(place + 1) },
        };
        self.rows.push(row)?;
        if opens {
            self.innermost = Some(place);
        }
        Ok(())
    }

    /// The innermost open node ends, if there is one.
    pub fn end(&mut self)
        ensures { self.new ≡ without_innermost self.old }
    {
        let Some(k) = self.innermost else {
            return;
        };
        let place = self.rows.len() as u32;
        let row = &mut self.rows[k as usize];
        row.end = Some(place);
        self.innermost = row.parent;
    }

    /// All that is in an open node ends.
    pub fn end_inside(&mut self, k: u32)
        requires { is_open_place self.old k ≡ true }
        ensures { self.new ≡ ended_in self.old k }
    {
        while self.innermost != Some(k) {
            self.end();
        }
    }
}

// ---- what it says of its nodes

impl Rows {
    /// How many nodes there are.
    pub fn place_count(&self) -> u32
        ensures value { result ≡ length self.now.entries }
        ensures tree { IsTree self.now.entries }
    {
        self.rows.len() as u32
    }

    // The row of the node at a place.
    fn row(&self, k: u32) -> Option<&Row>
        ensures node { option_map (λ row. entry_of row.now) result ≡ slice_get self.now.entries k }
        ensures row { IfSome result (λ row. IsRow self.now k row.now) }
        ensures tree { IsTree self.now.entries }
    {
        self.rows.get(k as usize)
    }

    // The attributes of the node at a place.
    fn attrs(&self, k: u32) -> &[Attr]
        ensures value { result.now ≡ attributes_at self.now k }
        ensures few { length result.now < 2 ^ 32 }
    {
        match self.row(k) {
            Some(row) => row.content.attrs(),
            None => &[],
        }
    }

    // An attribute of the node at a place.
    fn attr(&self, k: u32, i: u32) -> Option<&Attr>
        ensures { option_copied result ≡ slice_get (attributes_at self.now k) i }
    {
        self.attrs(k).get(i as usize)
    }

    /// What kind of node it is.
    pub fn kind(&self, n: Node) -> Kind
        ensures { result ≡ kind_of (seen_at self.now n) }
    {
        match n {
            Node::At(k) => match self.row(k) {
                Some(row) => row.content.kind(),
                None => Kind::Text,
            },
            Node::Attr(k, i) => match self.attr(k, i) {
                Some(_) => Kind::Attribute,
                None => Kind::Text,
            },
        }
    }

    /// The name of an element or an attribute.
    pub fn label(&self, n: Node) -> Option<LabelView<'_>>
        ensures { option_map label_of_view result ≡ label_of (seen_at self.now n) }
    {
        match n {
            Node::At(k) => match self.row(k) {
                Some(row) => row.content.label(),
                None => None,
            },
            Node::Attr(k, i) => match self.attr(k, i) {
                Some(attr) => Some(attr.label.view()),
                None => None,
            },
        }
    }

    /// The target of a processing instruction.
    pub fn target(&self, n: Node) -> Option<&str>
        ensures { option_copied result ≡ target_of (seen_at self.now n) }
    {
        match n {
            Node::At(k) => match self.row(k) {
                Some(row) => row.content.target(),
                None => None,
            },
            Node::Attr(_, _) => None,
        }
    }

    /// The value of an attribute, the characters of a text, the content of a processing instruction.
    pub fn text(&self, n: Node) -> &str
        ensures { result.now ≡ text_of (seen_at self.now n) }
    {
        match n {
            Node::At(k) => match self.row(k) {
                Some(row) => row.content.text(),
                None => "",
            },
            Node::Attr(k, i) => match self.attr(k, i) {
                Some(attr) => attr.value.as_str(),
                None => "",
            },
        }
    }

    /// How many attributes it has.
    pub fn attr_count(&self, n: Node) -> u32
        ensures { result ≡ attribute_count self.now n }
    {
        match n {
            Node::At(k) => self.attrs(k).len() as u32,
            Node::Attr(_, _) => 0,
        }
    }

    // The place of what the node at a place stands in.
    fn parent_place(&self, k: u32) -> Option<u32>
        ensures { result ≡ first_place (outer_places self.now k) }
    {
        match self.row(k) {
            Some(row) => row.parent,
            None => None,
        }
    }

    // The place of the first child of the node at a place.
    fn first_child_place(&self, k: u32) -> Option<u32>
        ensures { result ≡ first_place (child_places self.now k) }
    {
        if k >= self.place_count() {
            return None;
        }
        if self.parent_place(k + 1) == Some(k) {
            Some(k + 1)
        } else {
            None
        }
    }

    // The place of the sibling next behind the node at a place.
    fn next_sibling_place(&self, k: u32) -> Option<u32>
        ensures { result ≡ first_place (sibling_places self.now k) }
    {
        let row = self.row(k)?;
        let end = row.end?;
        let next = self.row(end)?;
        if next.depth == row.depth {
            Some(end)
        } else {
            None
        }
    }

    /// The node that it stands in.
    pub fn parent(&self, n: Node) -> Option<Node>
        ensures { result ≡ parent_at self.now n }
    {
        match n {
            Node::At(k) => self.parent_place(k).map(Node::At),
            Node::Attr(k, _) => Some(Node::At(k)),
        }
    }

    /// The first of its children.
    pub fn first_child(&self, n: Node) -> Option<Node>
        ensures { result ≡ first_child_at self.now n }
    {
        match n {
            Node::At(k) => self.first_child_place(k).map(Node::At),
            Node::Attr(_, _) => None,
        }
    }

    /// The sibling next behind it.
    pub fn next_sibling(&self, n: Node) -> Option<Node>
        ensures { result ≡ next_sibling_at self.now n }
    {
        match n {
            Node::At(k) => self.next_sibling_place(k).map(Node::At),
            Node::Attr(_, _) => None,
        }
    }

    // Whether more may come in the node at a place.
    fn is_open_place(&self, k: u32) -> bool
        ensures { result ≡ is_open_place self.now k }
    {
        match self.row(k) {
            Some(row) => row.end.is_none(),
            None => false,
        }
    }

    /// Whether more may come in it.
    pub fn is_open(&self, n: Node) -> bool
        ensures { result ≡ is_open_node self.now n }
    {
        match n {
            Node::At(k) => self.is_open_place(k),
            Node::Attr(_, _) => false,
        }
    }
}
