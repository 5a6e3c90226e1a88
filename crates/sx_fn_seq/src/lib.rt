//! Functions on sequences, numbers and truth values: counts, sums, extremes, distinct values, roundings, parts and casts.
#![tactic(auto)]

mod answers;
mod calls;
mod distinct;
mod extremes;
pub mod laws;
mod parts;
mod rounding;
mod seen;
mod signatures;
mod sums;
mod truths;

pub use calls::call_seq;
pub use parts::{exactly_one, head, in_reverse, one_or_more, subsequence, tail, zero_or_one};
pub use signatures::{is_answerable, signature_seq};
pub use truths::{AsAtom, counts_as_true, effective_truth};
