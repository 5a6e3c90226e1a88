//! The characters of XML: names with and without a colon, and white space.
#![tactic(auto)]

mod names;

pub use names::{is_ncname, is_qname, is_white_space, split_instruction, split_name};
