//! What a pass keeps at run time.
use crate::own_updates::OwnUpdates;
use pass_slots::PassSlots;

/// What a pass keeps at run time.
#[derive(Drop)]
pub struct Kept {
    /// The pass's number.
    pub number: u32,
    /// What its own section word holds.
    pub section_word: u64,
    /// How many updates it may still make.
    pub left: u32,
    /// The number of the open snapshot, if there is one.
    pub opened: Option<u64>,
    pub slots: PassSlots,
    pub updates: OwnUpdates,
    /// The place of the last update, while it is under way.
    pub raised: u64,
}
