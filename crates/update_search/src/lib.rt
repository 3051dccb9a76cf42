//! The search of an update on the running table: from the root down the plain links, to what a try is to do
//! (`find_aim`), and from a node that is to be removed on to its successor (`find_next`). It takes no lock except to
//! see whether a node waits to be unlinked, and it never waits for another pass. The layer above looks again, under
//! locks, at what it finds.
#![tactic(auto)]

mod descent;
mod laws;
mod opening;
mod outcome;
mod search;
mod successor;
mod turns;

pub use descent::{Gap, KeyNode};
pub use laws::search_laws;
pub use opening::begin_search;
pub use outcome::Failed;
pub use search::{Aim, find_aim};
pub use successor::{NextFound, Walk, find_next};
pub use turns::Turns;
