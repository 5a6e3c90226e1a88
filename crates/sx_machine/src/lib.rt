//! A session: the events of a document in, the built events of a stylesheet's result out, and no tree between.
#![tactic(auto)]

mod plans;
mod rule_table;
mod session;
mod streamability;
mod writer;

/// Laws over the definitions, each the contract of a function that does nothing.
pub mod laws;

// A contract of another crate can speak of `Session` only if the types of its fields are exported.
#[doc(hidden)]
pub use plans::{Plan, Rule};
#[doc(hidden)]
pub use rule_table::RuleTable;
#[doc(hidden)]
pub use session::{After, Frame, Job};
pub use session::{Session, State, Step};
pub use streamability::culprit;
#[doc(hidden)]
pub use writer::Writer;
