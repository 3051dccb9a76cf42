//! Read-side sections and grace periods, and the rule on slots: when a retired slot may be used again. The layers above
//! use `passed`, the moves of a view's batch, and the rule of `specs/Slots.antt`, which the moves keep.
#![tactic(auto)]

mod batch;
mod section;

pub use batch::{current_looks, drop_slots, has_all_others, is_own, look_at, settle};
pub use section::{left_word, passed};
