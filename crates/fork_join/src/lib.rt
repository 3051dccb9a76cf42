//! Work that is split among threads, as by the functions of the same names in `std::thread`, except that one thread
//! starts the others.
//!
//! In `std::thread` a thread gives one half of its work to a new thread, and each of the two goes on in the same way.
//! A scheduler may put a new thread on the processor of the thread that started it, although others are idle, if that
//! thread is alone there. Linux does so on a virtual machine: the new thread then waits until the thread that started
//! it ends. A thread that has started one is no longer alone, and the next ones that it starts go elsewhere.
#![tactic(auto)]

mod jobs;
mod places;
mod share;

pub use jobs::map_vec;
pub use places::for_each_mut;
