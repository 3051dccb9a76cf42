//! Tests of the public calls of the pure machine and of the crates below it, in a crate of their own, so that those
//! crates are not proved a second time with their tests. The tests of each event and of whole updates are rows of text,
//! which `core_runs` reads and compares.
#![tactic(auto)]

#[cfg(test)]
mod bundles;
#[cfg(test)]
mod grace;
#[cfg(test)]
mod items;
#[cfg(test)]
mod layouts;
#[cfg(test)]
mod machine;
#[cfg(test)]
mod own_slots;
#[cfg(test)]
mod slots;
#[cfg(test)]
mod trees;
