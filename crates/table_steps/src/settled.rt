//! What a pass reports of its slots that wait to become free.
ghost use Rattle.std.specs.Prelude.{◌≡◌, ◌<◌, ◌==◌, ◌&&◌, not};
ghost use Rattle.key_map.specs.Lists.{has};
ghost use Rattle.core_grace.specs.Batches.{batch_taken, is_empty, is_number};

use crate::pass::TablePass;

impl<'t> TablePass<'t> {
    /// How many passes the table has.
    pub fn passes(&self) -> u32
        ensures { result ≡ self.now.view.layout.passes }
    {
        let table = self.table;
        table.ruled.layout().passes
    }

    /// Whether this is the number of the pass.
    pub fn is_own(&self, number: u32) -> bool
        ensures own { result ≡ (self.now.number == number) }
        ensures known { result ≡ is_number number self.now.view.number }
    {
        self.kept.number == number
    }

    /// Whether no batch waits and no slot is retired.
    pub fn is_settled(&self) -> bool
        ensures { result ≡ (is_empty self.now.view.batch && is_empty self.now.view.retired) }
    {
        self.kept.slots.is_settled()
    }

    /// Whether a batch waits.
    pub fn has_batch(&self) -> bool
        ensures { result ≡ not (is_empty self.now.view.batch) }
    {
        self.kept.slots.has_batch()
    }

    /// Whether the batch that waits has passed the pass `other`. Where none waits, the batch that would be taken now
    /// has passed none.
    pub fn was_passed(&self, other: u32) -> bool
        requires { other < self.now.view.layout.passes }
        ensures { result ≡ has other (batch_taken self.now.view).grace.passed }
    {
        self.kept.slots.was_passed(other)
    }
}
