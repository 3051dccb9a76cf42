//! The events of the pure machine, and all that is said of one event over a table as plain data: what it needs, what
//! the views and the words are after it, and the table at the start. The rule is no part of this crate. Its code is the
//! record of an event, and what its parts read of the words and of a view: only the crates of the core use that, by its
//! modules.
#![tactic(auto)]

mod event;
pub mod reads;
pub mod searches;
pub mod tree_move;

pub use event::{Event, Kind};
pub use tree_move::{PlainMove, TreeMove};
