// What can be asked of a tree, whether it is open or closed.
ghost use Rattle.std.specs.Prelude.{◌≡◌, length};
ghost use Rattle.std.specs.Option.{option_map, option_copied};
ghost use Rattle.sx_tree.specs.Labels.{label_of_view};
ghost use Rattle.sx_tree.specs.Seen.{attribute_count, first_child_at, kind_of, label_of};
ghost use Rattle.sx_tree.specs.Seen.{next_sibling_at, parent_at, seen_at, target_of, text_of};
ghost use Rattle.sx_tree.specs.TreeView.{is_open_node};

use crate::{Kind, Label, Node};

/// A name that a tree lends: the number of its expanded name, and its prefix, which is empty where it has none.
#[derive(Clone, Copy)]
pub struct LabelView<'a> {
    pub number: u64,
    pub prefix: &'a str,
}

impl Label {
    /// The name, lent.
    pub fn view(&self) -> LabelView<'_>
        ensures { label_of_view result ≡ self.now }
    {
        LabelView {
            number: self.number,
            prefix: self.prefix.as_str(),
        }
    }
}

/// A tree of nodes (XDM 3.1, 5). No call takes memory, and none asks that the node is one of the tree: of others each says
/// what it says of an empty text that stands nowhere.
pub trait Tree {
    ghost use Rattle.sx_tree.specs.Places.{Places};
    ghost use Rattle.sx_tree.specs.TreeView.{IsTree};

    /// The nodes, each with its depth, and how many are open.
    ghost places: { Self → Places };

    /// How many nodes it has that are no attributes of elements. Their depths go inward by one, and the numbers of them and of the
    /// attributes of each are below 2^32.
    fn place_count(&self) -> u32
        ensures value { result ≡ length (places self.now).entries }
        ensures tree { IsTree (places self.now).entries };

    /// What kind of node it is.
    fn kind(&self, n: Node) -> Kind
        ensures { result ≡ kind_of (seen_at (places self.now) n) };

    /// The name of an element or an attribute.
    fn label(&self, n: Node) -> Option<LabelView<'_>>
        ensures { option_map label_of_view result ≡ label_of (seen_at (places self.now) n) };

    /// The target of a processing instruction.
    fn target(&self, n: Node) -> Option<&str>
        ensures { option_copied result ≡ target_of (seen_at (places self.now) n) };

    /// The node that it stands in. An attribute stands in its element.
    fn parent(&self, n: Node) -> Option<Node>
        ensures { result ≡ parent_at (places self.now) n };

    /// The first of its children, which attributes are not.
    fn first_child(&self, n: Node) -> Option<Node>
        ensures { result ≡ first_child_at (places self.now) n };

    /// The sibling next behind it. Attributes are no siblings.
    fn next_sibling(&self, n: Node) -> Option<Node>
        ensures { result ≡ next_sibling_at (places self.now) n };

    /// How many attributes it has.
    fn attr_count(&self, n: Node) -> u32
        ensures { result ≡ attribute_count (places self.now) n };

    /// The value of an attribute, the characters of a text, the content of a processing instruction; empty for elements and
    /// document nodes.
    fn text(&self, n: Node) -> &str
        ensures { result.now ≡ text_of (seen_at (places self.now) n) };

    /// Whether more may come in it.
    fn is_open(&self, n: Node) -> bool
        ensures { result ≡ is_open_node (places self.now) n };
}
