//! The run of one client: its requests, in order, over any pass that keeps the clauses of `KeyPass`. The layer above
//! uses `run_client`, whose clause says that the replies are those of a legal run over the history that the pass knows
//! at the end; and `run_pooled`, whose passes trade node slots through a depot around each update.
#![tactic(auto)]

mod gate;
mod hints;
mod listing;
mod pages;
mod parts;
mod pool;
mod pooled;
mod run;
mod turns;
mod updates;
mod v1_pages;

pub use gate::{Gate, OpenGate};
pub use listing::list;
pub use pages::{Resumption, Start, next_query, resume, start_of};
pub use parts::{Progress, parts_make_a_run, run_part};
pub use pool::{hand_over, top_up};
pub use pooled::run_pooled;
pub use run::run_client;
