//! What a pass of the running table keeps of its slots at run time: the free ones, the retired ones and the batch, and
//! what its looks at other sections have shown. It makes the moves of a view that `core_events` and `core_grace`
//! define, in the room that is taken at opening, without memory.
#![tactic(auto)]

mod own_slots;
mod pass_slots;
mod slot_lists;
mod waits;

pub use own_slots::OwnSlots;
pub use pass_slots::PassSlots;
pub use waits::Waits;
