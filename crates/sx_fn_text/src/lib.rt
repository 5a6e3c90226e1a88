//! The functions of expressions on texts, exactly as they are defined on characters.
#![tactic(auto)]

mod calls;
mod characters;
pub mod laws;
mod pieces;
mod places;
mod signatures;
mod tables;

pub use calls::call_text;
pub use signatures::signature_text;
