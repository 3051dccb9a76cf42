//! Compares the plain links of a running table with the tree at the stamp, word for word. It is for tests: on a table
//! on which no update is under way the two are the same.
#![tactic(auto)]

mod compare;

pub use compare::{Unlike, compare_links};
