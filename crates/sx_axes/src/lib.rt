//! The axes of trees, on closed and on open trees.
#![tactic(auto)]

mod axes;
mod ends;

/// Laws over the definitions, each the contract of a function that does nothing.
pub mod laws;
mod node_tests;
mod order;
mod walks;

pub use axes::{Nodes, axis};
pub use ends::SelEnd;
pub use order::in_order;
