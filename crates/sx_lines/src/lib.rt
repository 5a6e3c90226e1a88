//! The events of a result, how they are printed as lines of ESIS, and what printed results are read back to.
#![tactic(auto)]

mod events;
pub mod laws;
mod lines;
mod printing;
mod reading;
mod unescaping;

pub use events::{Built, Builts, Pair, Pairs};
pub use printing::{append, ending, ending_len, print};
pub use reading::read_back;
