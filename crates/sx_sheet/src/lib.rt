//! Reads thin stylesheets, which are templates for names of elements, from their events.
#![tactic(auto)]

pub mod laws;
mod reader;
mod reading;
mod running;
mod stages;
mod tokens;

pub use reading::{LinedEvent, LinedEvents, StaticFault, read};
