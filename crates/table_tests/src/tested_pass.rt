// The calls of a pass of the table that the rows make, as a trait. Its clauses say what the rows need and no more, so
// that the long contracts of the calls are met here alone.
ghost use Rattle.index_words.specs.declared.view.View.{View};
ghost use Rattle.snapshot_read.specs.Snapshots.{IsReading};
ghost use Rattle.table_steps.specs.Passes.{AtRest};

use index_words::Pair;
use key_map::{Done, PassError};
use link_check::compare_links;
use snapshot_read::{Look, begin, end, next_from, try_next_from};
use std::alloc::Global;
use std::sync::Wait;
use table_steps::TablePass;
use tree_update::{Settling, Try, put, remove, try_put, try_settle};

pub(crate) trait TestedPass {
    /// What the pass knows.
    ghost view: { Self → View };

    fn make_put<R: Wait>(
        &mut self,
        rt: &R,
        line: u32,
        key: u64,
        val: u64,
    ) -> Result<Done, PassError>
        requires { AtRest (view self.old) }
        ensures { AtRest (view self.new) };

    /// A removal for request line 1.
    fn make_removal<R: Wait>(&mut self, rt: &R, key: u64) -> Result<Done, PassError>
        requires { AtRest (view self.old) }
        ensures { AtRest (view self.new) };

    /// One try of a put for request line 1.
    fn put_by_try(&mut self, key: u64, val: u64) -> Result<Try, PassError>
        requires { AtRest (view self.old) }
        ensures { AtRest (view self.new) };

    fn settle_by_try(&mut self) -> Settling
        requires { AtRest (view self.old) }
        ensures { AtRest (view self.new) };

    /// Opens a snapshot. Returns its place.
    fn begin_reading(&mut self) -> u64
        requires { AtRest (view self.old) }
        ensures { IsReading (view self.new) };

    /// The open snapshot's first pair from a key on.
    fn first_from<R: Wait>(&mut self, rt: &R, key: u64) -> Option<Pair>
        requires { IsReading (view self.old) }
        ensures { IsReading (view self.new) };

    /// One look for the open snapshot's first pair.
    fn look_for_first(&mut self) -> Look
        requires { IsReading (view self.old) }
        ensures { IsReading (view self.new) };

    fn end_reading(&mut self)
        requires { IsReading (view self.old) }
        ensures { AtRest (view self.new) };

    /// How many links the tree has, if each plain link leads where the tree does.
    fn links(&mut self, alloc: Global) -> Option<u64>
        requires { AtRest (view self.old) }
        ensures { AtRest (view self.new) };

    /// What the pass finds, in a section of its own, at the announcement of pass 0. None for pass 0 itself.
    fn announced_by_first(&mut self) -> Option<u64>
        requires { AtRest (view self.old) }
        ensures { AtRest (view self.new) };

    fn count_free_nodes(&self) -> usize;

    fn count_free_entries(&self) -> usize;
}

impl<'t> TestedPass for TablePass<'t> {
    ghost view = { λ p. p.view };

    fn make_put<R: Wait>(
        &mut self,
        rt: &R,
        line: u32,
        key: u64,
        val: u64,
    ) -> Result<Done, PassError> {
        put(self, rt, line, key, val)
    }

    fn make_removal<R: Wait>(&mut self, rt: &R, key: u64) -> Result<Done, PassError> {
        remove(self, rt, 1, key)
    }

    fn put_by_try(&mut self, key: u64, val: u64) -> Result<Try, PassError> {
        try_put(self, 1, key, val)
    }

    fn settle_by_try(&mut self) -> Settling {
        try_settle(self)
    }

    fn begin_reading(&mut self) -> u64 {
        begin(self)
    }

    fn first_from<R: Wait>(&mut self, rt: &R, key: u64) -> Option<Pair> {
        next_from(self, rt, key)
    }

    fn look_for_first(&mut self) -> Look {
        try_next_from(self, 0)
    }

    fn end_reading(&mut self) {
        end(self)
    }

    fn links(&mut self, alloc: Global) -> Option<u64> {
        compare_links(alloc, self).ok()
    }

    fn announced_by_first(&mut self) -> Option<u64> {
        if self.is_own(0) || self.passes() == 0 {
            return None;
        }
        self.open_section();
        self.number_fact();
        let word = self.look_ann(0);
        self.close_section();
        Some(word)
    }

    fn count_free_nodes(&self) -> usize {
        self.free_nodes()
    }

    fn count_free_entries(&self) -> usize {
        self.free_entries()
    }
}
