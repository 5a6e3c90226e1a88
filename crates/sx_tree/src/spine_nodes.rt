// A spine as a tree.
ghost use Rattle.std.specs.Prelude.{◌≡◌, ◌<◌, ◌-◌, ◌^◌, take, length, slice_get, Option};
ghost use Rattle.std.specs.Option.{option_map, option_copied};
ghost use Rattle.sx_tree.specs.Labels.{label_of_view};
ghost use Rattle.sx_tree.specs.Seen.{kind_of, label_of, target_of, text_of};
ghost use Rattle.sx_tree.specs.SpineView.{item_content, leaf_content, leaf_here, spine_places};
ghost use Rattle.sx_tree.specs.TreeView.{attributes_at, attributes_of};

use crate::{Attr, Kind, LabelView, Leaf, Node, Spine, SpineItem, Tree};

impl SpineItem {
    // Its attributes, as many as there are numbers for them.
    fn attrs(&self) -> &[Attr]
        ensures value { result.now ≡ attributes_of (item_content self.now) }
        ensures few { length result.now < 2 ^ 32 }
    {
        match self {
            SpineItem::Root => &[],
            SpineItem::Element { attrs, .. } => {
                let attrs = attrs.as_slice();
                &attrs[..attrs.len().min(u32::MAX as usize)]
            }
        }
    }

    // What kind of node it is.
    fn kind(&self) -> Kind
        ensures { result ≡ kind_of (item_content self.now) }
    {
        match self {
            SpineItem::Root => Kind::Document,
            SpineItem::Element { .. } => Kind::Element,
        }
    }

    // Its name.
    fn label(&self) -> Option<LabelView<'_>>
        ensures { option_map label_of_view result ≡ label_of (item_content self.now) }
    {
        match self {
            SpineItem::Root => None,
            SpineItem::Element { label, .. } => Some(label.view()),
        }
    }
}

impl Leaf {
    // What kind of node it is.
    fn kind(&self) -> Kind
        ensures { result ≡ kind_of (leaf_content self.now) }
    {
        match self {
            Leaf::Text(_) => Kind::Text,
            Leaf::Pi { .. } => Kind::Pi,
        }
    }

    // Its target.
    fn target(&self) -> Option<&str>
        ensures { option_copied result ≡ target_of (leaf_content self.now) }
    {
        match self {
            Leaf::Text(_) => None,
            Leaf::Pi { target, .. } => Some(target.as_str()),
        }
    }

    // Its characters.
    fn text(&self) -> &str
        ensures { result.now ≡ text_of (leaf_content self.now) }
    {
        match self {
            Leaf::Text(text) => text.as_str(),
            Leaf::Pi { content, .. } => content.as_str(),
        }
    }
}

impl Spine {
    // The leaf, where it stands at this place.
    fn leaf_at(&self, k: u32) -> Option<&Leaf>
        ensures { option_copied result ≡ leaf_here self.now k }
    {
        if k == self.len() { self.leaf() } else { None }
    }

    // The attributes of the node at a place.
    fn attrs(&self, k: u32) -> &[Attr]
        ensures value { result.now ≡ attributes_at (spine_places self.now) k }
        ensures few { length result.now < 2 ^ 32 }
    {
        match self.item(k) {
            Some(item) => item.attrs(),
            None => &[],
        }
    }

    // An attribute of the node at a place.
    fn attr(&self, k: u32, i: u32) -> Option<&Attr>
        ensures { option_copied result ≡ slice_get (attributes_at (spine_places self.now) k) i }
    {
        self.attrs(k).get(i as usize)
    }
}

impl Tree for Spine {
    ghost places = { spine_places };

    fn place_count(&self) -> u32 {
        match self.leaf() {
            Some(_) => self.len() + 1,
            None => self.len(),
        }
    }

    fn kind(&self, n: Node) -> Kind {
        match n {
            Node::At(k) => match (self.item(k), self.leaf_at(k)) {
                (Some(item), _) => item.kind(),
                (None, Some(leaf)) => leaf.kind(),
                (None, None) => Kind::Text,
            },
            Node::Attr(k, i) => match self.attr(k, i) {
                Some(_) => Kind::Attribute,
                None => Kind::Text,
            },
        }
    }

    fn label(&self, n: Node) -> Option<LabelView<'_>> {
        match n {
            Node::At(k) => match self.item(k) {
                Some(item) => item.label(),
                None => None,
            },
            Node::Attr(k, i) => match self.attr(k, i) {
                Some(attr) => Some(attr.label.view()),
                None => None,
            },
        }
    }

    fn target(&self, n: Node) -> Option<&str> {
        match n {
            Node::At(k) => match self.leaf_at(k) {
                Some(leaf) => leaf.target(),
                None => None,
            },
            Node::Attr(_, _) => None,
        }
    }

    fn parent(&self, n: Node) -> Option<Node> {
        match n {
            Node::At(k) => {
                let before = k.checked_sub(1)?;
                if k < self.place_count() {
                    Some(Node::At(before))
                } else {
                    None
                }
            }
            Node::Attr(k, _) => Some(Node::At(k)),
        }
    }

    fn first_child(&self, n: Node) -> Option<Node> {
        match n {
            Node::At(k) => {
                let count = self.place_count();
                let next = k.checked_add(1)?;
                if next < count {
                    Some(Node::At(next))
                } else {
                    None
                }
            }
            Node::Attr(_, _) => None,
        }
    }

    fn next_sibling(&self, _: Node) -> Option<Node> {
        None
    }

    fn attr_count(&self, n: Node) -> u32 {
        match n {
            Node::At(k) => self.attrs(k).len() as u32,
            Node::Attr(_, _) => 0,
        }
    }

    fn text(&self, n: Node) -> &str {
        match n {
            Node::At(k) => match self.leaf_at(k) {
                Some(leaf) => leaf.text(),
                None => "",
            },
            Node::Attr(k, i) => match self.attr(k, i) {
                Some(attr) => attr.value.as_str(),
                None => "",
            },
        }
    }

    fn is_open(&self, n: Node) -> bool {
        match n {
            Node::At(k) => k < self.len(),
            Node::Attr(_, _) => false,
        }
    }
}
