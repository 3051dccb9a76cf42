//! The try of a node's lock: one compare-and-exchange of one word.
ghost use Rattle.std.specs.Prelude.{◌≡◌, true, false};
ghost use Rattle.core_invariant.specs.Readers.{IsLocked};
ghost use Rattle.core_laws.specs.ViewNeeds.{IsInside, IsSearched};
ghost use Rattle.table_steps.specs.Loads.{HasLocked, HasMetLock};
ghost use Rattle.table_steps.specs.Passes.{IsSamePass};

use crate::pass::TablePass;
use index_words::{Field, Word};
use std::marker::Brand;

impl<'t> TablePass<'t> {
    /// Tries to lock a node that the pass has searched, or the root. The answer is false only where another pass was
    /// found to hold the lock; this is counted.
    pub fn try_lock(&mut self, node: u32) -> bool
        requires inside { IsInside self.old.view }
        requires searched { IsSearched self.old.view node }
        requires unlocked { ¬ IsLocked self.old.view node }
        ensures same { IsSamePass self.old self.new }
        ensures locked { result ≡ true → HasLocked self.old node self.new.view }
        ensures busy { result ≡ false → HasMetLock self.old node self.new.view }
    {
        self.seat.facts();
        let table = self.table;
        let own = u64::from(self.kept.number) + 1;
        let found = table
            .ruled
            .exchange::<Brand>(&mut self.seat, Word::Node(Field::Lock, node), own);
        found == 0
    }
}
