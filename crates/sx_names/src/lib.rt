//! Names: each pair of a namespace URI and a local name has one number, and each number one pair. Scopes: what prefixes are
//! bound to.
#![tactic(auto)]

mod bindings;
mod name_table;
mod scope;
mod text_table;

#[doc(hidden)]
pub use bindings::{Binding, Bindings};
// A contract of another crate can speak of `Names` only if the types of its fields are exported.
#[doc(hidden)]
pub use name_table::Parts;
pub use name_table::{Names, new};
pub use scope::Scope;
#[doc(hidden)]
pub use text_table::Texts;
