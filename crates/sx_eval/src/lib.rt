//! What expressions select, on closed and on open trees: the definitions.
#![tactic(auto)]

/// Laws over the definitions, each the contract of a function that does nothing.
pub mod laws;
mod values;

pub use values::Stop;
