//! Reads of a snapshot on the running table: the first pair from a key on, of the map as it was after so many updates,
//! whatever other passes do meanwhile. The layer above uses `begin`, `end`, `next_from` and `try_next_from`, on a pass
//! that holds no lock, or `next_on` and `try_next_on`, which go on from what a `Way` has kept of the snapshot.
#![tactic(auto)]

mod hints;
mod kept_way;
mod looks;
mod search;
mod snapshot;

pub use kept_way::Way;
pub use looks::Look;
pub use snapshot::{begin, end, next_from, next_on, try_next_from, try_next_on};
