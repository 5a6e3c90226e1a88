//! The reading loop: feeds what is read of a file to a consumer, and writes before each read all that it gives.
#![tactic(auto)]

mod consumer;
mod reading;
mod send;
mod status;

pub use consumer::{Consumer, Outcome};
pub use reading::transfer;
pub use send::write_all;
pub use status::{DiagnosticLine, Input, Status};
