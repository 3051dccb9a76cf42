//! The rule of the running table, which is the rule of the pure machine, and the moves on it: a table over the kit's
//! `atomic_table`, its seats, and one function for each move of a word. The layer above gives each step its event.
#![tactic(auto)]

mod moves;
mod node_split;
mod reads;
mod ruled;
mod seats;

pub use moves::Asked;
pub use ruled::{CoreRule, RuledTable, TableSeat};
pub use seats::Given;
