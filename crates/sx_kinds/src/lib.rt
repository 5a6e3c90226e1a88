//! Stylesheets as data: their modes, their templates and what these hold.
#![tactic(auto)]

mod branches;
mod constructs;
mod copies;
mod expressions;
mod sheets;
mod types;
mod walks;

pub use branches::Branches;
pub use constructs::{Body, Construct, ConstructKind, Instr, InstrForm, NamePattern, copy_body};
pub use expressions::{AvtPart, AvtParts, Deep, Expr, ExprForm, Exprs, Function, Pattern};
pub use sheets::{Mode, Modes, OnNoMatch, Sheet, Template, Templates};
pub use sx_atoms::ArithOp;
pub use types::{Origin, Parts, Shape, Start, Ty, TyKind, Typing, VarType, VarTypes};
pub use walks::Way;
