//! The try of an update on the running table: the steps that carry out what a search has found, or give it up; the laws
//! of `plan_laws` lead from stage to stage. The layer above uses `plan_slots` and `carry_out`, and after the wait of a
//! removal `unlink_successor`. The stages of a `carry_out` without a wait are public too, for callers that stop between
//! them: `validate`, `make_ready`, `raise_plan`, `finalise_all`, `prune_all`, `mark_all`, `set_plain`, `raise_tag`,
//! `unlock_all` and `leave_section`, in this order. `cut_found` is a try without an update: it cuts old entries where a
//! search has ended.
#![tactic(auto)]

mod after_raise;
mod carry;
mod cutting;
mod fills;
mod heads;
mod locking;
mod looking;
mod parting;
mod plain_links;
mod planning;
mod pruning;
mod raising;
mod release;
mod slots;
mod walking;

pub use after_raise::{finalise_all, mark_all};
pub use carry::{Carried, carry_out, make_ready};
pub use cutting::cut_found;
pub use parting::{Parted, unlink_successor};
pub use plain_links::{raise_tag, set_plain};
pub use planning::validate;
pub use pruning::{lower, prune_all};
pub use raising::raise_plan;
pub use release::{leave_section, unlock_all};
pub use slots::plan_slots;
