//! Tests of the public calls of the running table, which are those of `table_steps`, `snapshot_read`, `update_search`,
//! `update_try` and `tree_update`. They are in a crate of their own, so that those crates are not proved a second time
//! with their tests.
#![tactic(auto)]

#[cfg(test)]
mod first_put;
#[cfg(test)]
mod moved;
#[cfg(test)]
mod rows;
#[cfg(test)]
mod sections;
#[cfg(test)]
mod set_up;
#[cfg(test)]
mod stages;
#[cfg(test)]
mod stories;
#[cfg(test)]
mod tested_pass;
