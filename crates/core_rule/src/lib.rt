//! The pure machine: a table as plain data, and the events that change it, one at a time. `core_invariant` has the
//! rule that every event keeps, and `core_kept` the proof that each event keeps it. The machine is for tests: the
//! program has none of its code. The layer above uses `State`, `run_of`, and the names of `core_events`, `core_kept`
//! and `core_laws` that the machine exports as its own.
#![tactic(auto)]

mod opening;
mod run;
mod state;

pub use core_events::{Event, Kind, TreeMove};
pub use core_kept::how_seats_are_made;
pub use core_laws::{
    cuts_take_nothing_read, needs_of_views, what_loads_find, where_counts_rise, who_writes_what,
};
pub use run::{RunError, run_of};
pub use state::{State, StepError};
