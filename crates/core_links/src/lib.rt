// Bundles: the entries of a link, newest first, their numbers, and which of them a number selects. This crate uses no
// other crate of this repository. The layers above use the definitions of `specs/` and the laws of `proofs/`, which say
// when a selection stays.
#![tactic(auto)]

mod chain;
mod entry;

pub use chain::is_chain;
pub use entry::{Entry, keep, select};
