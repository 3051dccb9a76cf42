//! The tree as the words hold it, read and tested by code: the nodes of the tree at the stamp, which entry of a bundle
//! a number selects, whether the words spell the tree after an update, and what a raise moves. It is a part of the
//! machine of `core_rule`: only the crates of the machine call it.
#![tactic(auto)]

pub mod bundles_now;
mod gaps;
mod link_plans;
pub mod spelled_now;
mod spelling;
mod subtrees;
pub mod tree_moves;
pub mod tree_steps;
