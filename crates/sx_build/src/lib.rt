//! Results from what is asked for in turn: attributes join their start, namespaces are declared, a last start waits.
#![tactic(auto)]

mod bindings;
mod builder;
mod laws;
mod names;
mod raw;
mod withheld;

// A contract of another crate can speak of `Builder` only if the types of its fields are exported.
#[doc(hidden)]
pub use bindings::Binding;
pub use builder::Builder;
#[doc(hidden)]
pub use builder::Element;
pub use laws::{fresh, growth};
#[doc(hidden)]
pub use names::Name;
pub use raw::{Raw, Raws};
pub use sx_lines::Builts;
#[doc(hidden)]
pub use withheld::Withheld;
