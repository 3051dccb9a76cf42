//! The base of the index: numbers in place of names, the updates that change the map, the map after each of them, and
//! `Items`, the one list type of contracts. The layers above use the definitions of `specs/`, the plain types below,
//! and `PlainMap`, the map as one sorted list.
#![tactic(auto)]

mod items;
mod no_memory;
mod pair;
mod pass;
mod plain_map;
mod update;

pub use items::Items;
pub use no_memory::NoMemory;
pub use pair::Pair;
pub use pass::{Done, New, PassError, PassSize};
pub use plain_map::{PlainMap, first_from};
pub use update::{Change, Update};
