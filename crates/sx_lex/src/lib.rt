//! The tokens of expressions: names, numbers, literals and marks, with their places in the text.
#![tactic(auto)]

mod kinds;
pub mod laws;
mod lexing;
mod literals;
mod marks;
mod names;
mod numbers;

pub use kinds::{LexFault, Token, TokenKind, Tokens};
pub use lexing::tokens;
