//! The whole program as one call over a desk: words in, files read, the result written before each read, a status; and its
//! parts, a stylesheet taken from its file and its run on a document.
#![tactic(auto)]

mod feeding;
mod laws;
mod loading;
mod program;
mod runner;
mod stylesheet;
mod transformation;
mod words;

pub use laws::{copy_is_never_static, enough_invocations, growth};
pub use loading::load;
pub use program::top;
pub use transformation::transform;
pub use words::{Command, parse_words};
