//! A depot of parcels, through which the passes of one index hand spare ones to one another. It is a bounded queue of
//! the kit, with a rule that the books of its seats balance with what it holds. The layer above opens a depot with a
//! seat for each thread, gives parcels and takes them, and closes it, which gives what is left.
#![tactic(auto)]

mod book;
mod close;
mod depot;
mod rule;
mod seat;
mod steps;

pub use close::CloseFault;
pub use depot::Depot;
pub use seat::DepotSeat;
