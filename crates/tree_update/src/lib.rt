//! Updates on the running table: the calls that put, put a new key and remove, one try of a put, and how slots become
//! free. A try is a search, which finds the plan of an update, and then carries the plan out. Before its updates a
//! caller may let a pass with few entries gather old ones.
#![tactic(auto)]

mod calls;
mod ending;
mod gathering;
mod settle;
mod trying;
mod waits;

pub use calls::{put, put_new, remove};
pub use gathering::gather;
pub use settle::{Settling, try_settle};
pub use trying::{Try, try_put};
