//! Tests of the public calls of `shared_index`, in a crate of their own, so that it is not proved a second time with
//! its tests.
#![tactic(auto)]

#[cfg(test)]
mod passes;
#[cfg(test)]
mod rows;
#[cfg(test)]
mod scenes;
#[cfg(test)]
mod set_up;
#[cfg(test)]
mod stories;
#[cfg(test)]
mod tested_pass;
#[cfg(test)]
mod trades;
