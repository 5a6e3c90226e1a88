//! What is printed is read back: the laws that join the printing of results and the reading of documents.
#![tactic(auto)]

/// Laws over the definitions, each the contract of a function that does nothing.
pub mod laws;
