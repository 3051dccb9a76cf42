//! The updates that a pass made, as it keeps them at run time.
ghost use Rattle.std.specs.Prelude.{◌≡◌, ◌<◌, ◌≤◌, ◌++◌, ◌∷◌, [], length, IfOk};

use index_words::{NoMemory, Update};
use std::alloc::Global;
use std::marker::Model;

/// An update of a pass, and its place in the history, counted from 1.
#[derive(Clone, Copy, Debug, PartialEq, Eq)]
pub struct OwnUpdate {
    pub at: u64,
    pub update: Update,
}

/// The updates that a pass made, in room that is taken at opening.
#[derive(Drop)]
pub struct OwnUpdates {
    updates: Vec<OwnUpdate>,
}

impl Model for OwnUpdates {
    ghost use Rattle.std.specs.Vec.{vec_capacity};
    ghost use Rattle.table_steps.specs.Made.{Made};

    ghost Value = { Made };

    ghost view = { λ m. record { updates = m.updates.items; room = vec_capacity m.updates } };
}

impl OwnUpdates {
    /// No updates, and room for this many.
    pub fn with_room(alloc: Global, room: u32) -> Result<OwnUpdates, NoMemory>
        ensures updates { IfOk result (λ m. m.updates ≡ []) }
        ensures room { IfOk result (λ m. room ≤ m.room) }
    {
        let updates = Vec::with_capacity(alloc, room as usize)?;
        Ok(OwnUpdates { updates })
    }

    /// Adds an update.
    pub fn add(&mut self, update: OwnUpdate)
        requires { length self.old.updates < self.old.room }
        ensures updates { self.new.updates ≡ self.old.updates ++ update ∷ [] }
        ensures room { self.new.room ≡ self.old.room }
    {
        self.updates.push_reserved(update);
    }

    pub fn as_slice(&self) -> &[OwnUpdate]
        ensures { result.now ≡ self.now.updates }
    {
        self.updates.as_slice()
    }
}
