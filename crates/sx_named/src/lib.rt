//! What events and trees say with their names written out, where they have the numbers that a table of names gives them.
#![tactic(auto)]

/// Laws over the definitions, each the contract of a function that does nothing.
pub mod laws;
