//! Atoms: exact numbers, texts and truth values; the codes of errors; the functions of expressions, and what they read of
//! their arguments.
#![tactic(auto)]

/// The answer of a call that is one atom.
pub mod answers;
/// The arguments of a call, and the text, the number and the positions that one is.
pub mod arguments;
mod arithmetic;
mod atoms;
mod casting;
mod comparison;
mod error_codes;
mod functions;
pub mod laws;
mod lexical;
mod numbers;
mod printing;
mod rounding;
mod signature;
mod span;

pub use arithmetic::{ArithOp, add, calculate, div, idiv, mul, rem, signed, sub};
pub use atoms::{Args, Atom, AtomType, Atoms, Dec, Text};
pub use casting::{cast, castable};
pub use comparison::{CmpOp, compare};
pub use error_codes::Code;
pub use functions::{SeqFn, TextFn, Usage};
pub use numbers::UNITS;
pub use printing::print;
pub use rounding::{ceiling, floor, round};
pub use signature::Signature;
pub use span::Positions;
