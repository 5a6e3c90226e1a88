//! The limits of documents, stylesheets and their evaluation, and what can be wrong with a document.
#![tactic(auto)]

mod faults;
mod limits;

pub use faults::{DocFault, Which};
pub use limits::Limits;
