//! What each kind of event needs, tested by code, and the step that an allowed event makes, with what its kind needs.
//! It is a part of the machine of `core_rule`: only the crates of the machine call it.
#![tactic(auto)]

mod announcing_needs;
mod cut_needs;
mod load_needs;
mod lock_needs;
pub mod needs;
mod plain_needs;
mod seat_needs;
mod seen;
pub mod step;
mod update_needs;
mod wait_needs;
