//! Tests of what no clause says: what the system gives the real desk, and that none of its errors is lost.
#![tactic(auto)]

#[cfg(test)]
mod fake;
#[cfg(test)]
mod memory;
#[cfg(test)]
mod real;
#[cfg(test)]
mod runs;
