//! What a pass may still use: its free slots, by their places in its lists, all slots that it owns, and its calls.
ghost use Rattle.std.specs.Prelude.{◌≡◌, ◌+◌, length, true};
ghost use Rattle.std.specs.List.{slice_get};
ghost use Rattle.table_steps.specs.Passes.{HasSurplus};

use crate::pass::TablePass;

impl<'t> TablePass<'t> {
    /// How many free nodes the pass has.
    pub fn free_nodes(&self) -> usize
        ensures { result ≡ length self.now.view.free.nodes }
    {
        self.kept.slots.free_nodes()
    }

    /// How many free entries the pass has.
    pub fn free_entries(&self) -> usize
        ensures { result ≡ length self.now.view.free.entries }
    {
        self.kept.slots.free_entries()
    }

    /// The free node at this place. None after the last one.
    pub fn free_node(&self, place: usize) -> Option<u32>
        ensures { result ≡ slice_get self.now.view.free.nodes place }
    {
        self.kept.slots.free_node(place)
    }

    /// The free entry at this place. None after the last one.
    pub fn free_entry(&self, place: usize) -> Option<u32>
        ensures { result ≡ slice_get self.now.view.free.entries place }
    {
        self.kept.slots.free_entry(place)
    }

    /// How many nodes the pass owns: free ones, those of the batch, and retired ones.
    pub fn owned_nodes(&self) -> usize
        ensures { result ≡ length self.now.view.free.nodes + length self.now.view.batch.nodes + length self.now.view.retired.nodes }
    {
        self.kept.slots.owned_nodes()
    }

    /// How many entries the pass owns: free ones, those of the batch, and retired ones.
    pub fn owned_entries(&self) -> usize
        ensures { result ≡ length self.now.view.free.entries + length self.now.view.batch.entries + length self.now.view.retired.entries }
    {
        self.kept.slots.owned_entries()
    }

    /// Whether the pass owns more entries than it was given when the table was opened, and more than each pass would have
    /// if all entries of the table were shared out evenly. No clause speaks of the first: a pass that was given more
    /// than others, for more updates, needs what it was given.
    pub fn has_surplus(&self) -> bool
        ensures { result ≡ true → HasSurplus self.now.view }
    {
        let share = self.share as usize;
        let layout = self.layout();
        let owned = self.owned_entries();
        let even = layout.entries / layout.passes;
        owned > share && owned > even as usize
    }

    /// How many updates the pass may still make.
    pub fn calls_left(&self) -> u32
        ensures { result ≡ self.now.view.history.left }
    {
        self.kept.left
    }
}
