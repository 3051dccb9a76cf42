//! Runs the clients of a session over one shared index, each over a pass of its own and on a thread of its own, and
//! gives the whole history of their updates, with the numbers of the run. A `Runner` runs the clients;
//! `Threaded` is the one of the program. The layer above reads the session, and writes the replies and the history.
#![tactic(auto)]

mod counting;
mod history;
mod node_slots;
mod opening;
mod parts;
mod pooled;
mod room;
mod run_input;
mod runner;
mod slots;
mod threaded;

pub use counting::summary_of;
pub use history::{history_of, history_over};
pub use node_slots::NodeSlots;
pub use opening::{open_index, open_sized};
pub use run_input::{RunInput, Served};
pub use runner::Runner;
pub use slots::slots_suffice;
pub use threaded::Threaded;
