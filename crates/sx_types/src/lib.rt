//! The static types of expressions, and what these write into an expression.
#![tactic(auto)]

mod calls;
mod forms;
mod kinds;
pub mod laws;
mod parts;
mod paths;
mod patterns;
mod places;
mod settling;
mod typing;

pub use forms::focus;
pub use kinds::{is_atomic, is_node, may_be_node, may_be_number};
pub use paths::{below, item_of};
pub use patterns::settle_pattern;
pub use settling::settle;
pub use sx_kinds::{VarType, VarTypes};
pub use typing::{type_of, typing_of};
