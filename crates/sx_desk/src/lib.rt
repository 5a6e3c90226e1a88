//! The outside of the program: files to read, two outputs to write, and what of them a contract may know.
#![tactic(auto)]

mod desk;
mod files;
mod history;
mod mem;
mod opened;
mod pieces;
mod real;
mod steady;
mod system;

pub use desk::{Desk, Failed, Out};
pub use files::{MemFile, MemFiles};
pub use mem::MemDesk;
pub use opened::Marks;
pub use real::RealDesk;
pub use steady::SteadyDesk;
