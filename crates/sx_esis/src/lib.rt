//! The lines of a document, read from bytes that come in pieces.
#![tactic(auto)]

mod escapes;
mod faults;
mod form;
mod line_buffer;
mod places;
mod reader;

pub use faults::{LineFault, LineWhich};
pub use reader::{LineReader, LineView};
