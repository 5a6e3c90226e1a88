//! Reads expressions, value templates and patterns of XPath.
#![tactic(auto)]

mod begin;
mod building;
mod checks;
mod expressions;
mod faults;
mod follow;
mod forms;
mod frames;
mod functions;
mod inside;
pub mod laws;
mod levels;
mod lexemes;
mod lexing;
mod meanings;
mod named;
mod nodes;
mod numbering;
mod numbers;
mod operands;
mod parsing;
mod patterns;
mod reaching;
mod reader;
mod roles;
mod rules;
mod states;
mod steps;
mod stops;
pub mod template_laws;
mod templates;
mod value_templates;
mod words;

pub use expressions::parse_expr;
pub use faults::{Numbering, SyntaxFault};
pub use patterns::parse_pattern;
pub use value_templates::parse_avt;
