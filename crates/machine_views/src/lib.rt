//! The view of a seat after each kind of event, by code. It is a part of the machine of `core_rule`: only the crates of
//! the machine call it.
#![tactic(auto)]

pub mod announcing;
pub mod cuts;
pub mod fill_words;
pub mod loads;
pub mod locks;
pub mod moves;
pub mod plain_links;
mod searches;
pub mod stamp_loads;
pub mod updates;
