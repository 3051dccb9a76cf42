//! The views of a table after a step, and the word that it stores. `machine_needs` says which step an allowed event
//! makes. It is a part of the machine of `core_rule`: only the crates of the machine call it.
#![tactic(auto)]

mod own_views;
mod seats;
mod stamp_seats;
pub mod step;
