// The map of a history, advanced along its updates.
ghost use Rattle.std.specs.Prelude.{◌≡◌, ◌+◌, ◌<◌, length, OnOk};
ghost use Rattle.replay_check.specs.Replaying.{IsReplayed};

use crate::replay_map::ReplayMap;
use key_map::Update;
use key_names::NoMemory;
use std::alloc::Global;

/// The map after the first updates of a history, how many these are, and whether the key of the last one was there
/// before.
#[derive(Drop)]
pub(crate) struct Replay {
    pub(crate) at: usize,
    pub(crate) map: ReplayMap,
    pub(crate) was: bool,
}

impl Replay {
    ghost use Rattle.std.specs.Prelude.{List};
    ghost use Rattle.key_map.specs.declared.update.Update.{Update as AnyUpdate};

    /// The map before the first update of any history.
    pub(crate) fn new(alloc: Global) -> Replay
        ensures { (updates : List AnyUpdate) → IsReplayed result updates 0 }
    {
        Replay {
            at: 0,
            map: ReplayMap::new(alloc),
            was: false,
        }
    }

    /// Advances the map by one update.
    pub(crate) fn advance(&mut self, updates: &[Update]) -> Result<(), NoMemory>
        requires so_far { IsReplayed self.old updates.now self.old.at }
        requires within { self.old.at < length updates.now }
        ensures { OnOk result (IsReplayed self.new updates.now (self.old.at + 1)) }
    {
        self.was = self.map.apply(&updates[self.at])?;
        self.at += 1;
        Ok(())
    }
}
