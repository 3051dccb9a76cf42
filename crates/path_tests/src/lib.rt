//! Tests of the public calls of the path's crates, in a crate of their own, so that those crates are not proved a
//! second time with their tests. The answers of whole sessions are compared by rows that the built program is run on.
#![tactic(auto)]

#[cfg(test)]
mod gates;
#[cfg(test)]
mod lines;
#[cfg(test)]
mod names;
#[cfg(test)]
mod pages;
#[cfg(test)]
mod plain_pass;
#[cfg(test)]
mod sessions;
#[cfg(test)]
mod steps;
#[cfg(test)]
mod streams;
