//! Events of a document, the open tree that they make, and the spine of its open elements.
#![tactic(auto)]

mod ancestors;
mod counted_rows;
mod events;

/// Laws over the definitions, each the contract of a function that does nothing.
pub mod laws;
mod nodes;
mod open_tree;
mod rows;
mod spine_nodes;
mod steps;
mod text;
mod trees;

pub use ancestors::{Leaf, Spine, SpineItem};
pub use counted_rows::Full;
pub use events::{Attr, Attrs, Event, Label, Space, Spaces, copy_attrs, copy_spaces};
pub use nodes::{Kind, Node};
pub use open_tree::{NodeTable, OpenTree};
pub use steps::{Axis, NodeTest};
pub use text::Chars;
pub use trees::{LabelView, Tree};
