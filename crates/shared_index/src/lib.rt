//! The shared index: one map, which passes read and change at once, each for one caller. A pass keeps the clauses of
//! `KeyPass` whatever the others do. The layer above opens an index, attaches a pass for each key, and closes the index
//! to its whole history.
#![tactic(auto)]

mod facts;
mod finish;
mod index;
mod key_pass;
mod parcel;
mod pass;

pub use finish::FinishError;
pub use index::{OpenError, SharedIndex};
pub use parcel::Parcel;
pub use pass::IndexPass;
pub use snapshot_read::Look;
pub use table_steps::{Note, PassKey};
pub use tree_update::{Settling, Try};
