//! The events of a document, read from its bytes, or what is at fault with it.
#![tactic(auto)]

mod attributes;
mod elements;
mod event_reader;
mod pending;
mod run;
mod standing;
mod starting;
mod taking;

/// Laws over the definitions, each the contract of a function that does nothing.
pub mod laws;

pub use event_reader::EventReader;
pub use sx_limits::{DocFault, Limits, Which};
// A contract of another crate can speak of a reader only if the types of its fields are exported.
#[doc(hidden)]
pub use attributes::{Attributes, Written};
#[doc(hidden)]
pub use elements::Elements;
#[doc(hidden)]
pub use event_reader::Ending;
#[doc(hidden)]
pub use pending::{Pending, Waiting};
#[doc(hidden)]
pub use run::Run;
#[doc(hidden)]
pub use standing::Standing;
