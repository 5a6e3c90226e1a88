// The spine: the open nodes, and the last node that cannot be open.
ghost use Rattle.std.specs.Prelude.{◌≡◌, ◌<◌, ◌≤◌, ◌↔◌, [], ◌∷◌, ◌++◌, None};
ghost use Rattle.std.specs.Prelude.{length, slice_get, IsOk, IfErr, OnOk, OnErr};
ghost use Rattle.std.specs.Option.{option_copied};
ghost use Rattle.sx_tree.specs.declared.ancestors.SpineItem.TheVariants as spine_item;

use crate::{Attrs, Chars, Label};
use arrayvec::ArrayVec;
use std::marker::Model;

/// An open node: the document node, or an element with its name and attributes.
#[derive(Drop)]
pub enum SpineItem {
    Root,
    Element { label: Label, attrs: Attrs },
}

/// A node that has no children: a text, or a processing instruction.
#[derive(Drop)]
pub enum Leaf {
    Text(Chars),
    Pi { target: Chars, content: Chars },
}

// The document node stands where a place is not in use.
impl Default for SpineItem {
    ghost is_default = { λ item. item ≡ spine_item.Root };

    fn default() -> SpineItem {
        SpineItem::Root
    }
}

/// The open nodes of a document, the outermost first, and the leaf that began last, if there is one.
/// It has room for the document node and 200 elements, and its calls take no memory.
#[derive(Drop)]
pub struct Spine {
    items: ArrayVec<SpineItem, 201>,
    leaf: Option<Leaf>,
}

impl Model for Spine {
    ghost use Rattle.sx_tree.specs.Spine.{Spine as Branch};

    ghost Value = { Branch };

    ghost view = { λ s. record { entries = s.items.items; leaf = s.leaf } };
}

impl Spine {
    /// A spine with no entry and no leaf.
    pub fn new() -> Spine
        ensures entries { result.entries ≡ [] }
        ensures leaf { result.leaf ≡ None }
    {
        Spine {
            items: ArrayVec::new(),
            leaf: None,
        }
    }

    /// Puts an entry behind the others. It gives the item back exactly where 201 entries are there,
    /// and then nothing has changed.
    pub fn push(&mut self, item: SpineItem) -> Result<(), SpineItem>
        ensures exactly { IsOk result ↔ (length self.old.entries < 201) }
        ensures ok { OnOk result (self.new.entries ≡ self.old.entries ++ item ∷ []) }
        ensures leaf { self.new.leaf ≡ self.old.leaf }
        ensures err { OnErr result (self.new ≡ self.old) }
        ensures given_back { IfErr result (λ back. back ≡ item) }
    {
        match self.items.try_push(item) {
            Ok(()) => Ok(()),
            Err(error) => Err(error.element()),
        }
    }

    /// Takes the last entry away. The leaf stays.
    pub fn pop(&mut self) -> SpineItem
        requires { 0 < length self.old.entries }
        ensures last { self.old.entries ≡ self.new.entries ++ result ∷ [] }
        ensures leaf { self.new.leaf ≡ self.old.leaf }
    {
        match self.items.pop() {
            Some(item) => item,
            None => SpineItem::Root,
        }
    }

    /// Puts a leaf, or none, in the place of the one before. The entries stay.
    pub fn set_leaf(&mut self, leaf: Option<Leaf>)
        ensures leaf { self.new.leaf ≡ leaf }
        ensures entries { self.new.entries ≡ self.old.entries }
    {
        self.leaf = leaf;
    }

    // The entry at a place.
    pub(crate) fn item(&self, k: u32) -> Option<&SpineItem>
        ensures { option_copied result ≡ slice_get self.now.entries k }
    {
        self.items.get(k as usize)
    }

    // The leaf.
    pub(crate) fn leaf(&self) -> Option<&Leaf>
        ensures { option_copied result ≡ self.now.leaf }
    {
        self.leaf.as_ref()
    }

    /// The number of entries, at most 201.
    pub fn len(&self) -> u32
        ensures value { result ≡ length self.now.entries }
        ensures at_most { result ≤ 201 }
    {
        self.items.len() as u32
    }
}
