//! The lists of the slots of a pass, with its looks, as `PassSlots` holds them.
ghost use Rattle.std.specs.Prelude.{◌≡◌, ◌≤◌, ◌<◌, Some, ◌&&◌, true};
ghost use Rattle.index_words.specs.declared.view.View.{View};
ghost use Rattle.core_grace.specs.Batches.{batch_taken, settled, looked, is_empty};
ghost use Rattle.pass_slots.specs.Owned.{KeepsSlots, HasRoomOf, IsIdle, kept_of};

use crate::own_slots::OwnSlots;
use crate::waits::Waits;

/// The lists of a pass's slots, and its looks at other sections.
#[derive(Drop)]
pub(crate) struct SlotLists {
    pub(crate) nodes: OwnSlots,
    pub(crate) entries: OwnSlots,
    pub(crate) waits: Waits,
}

impl SlotLists {
    /// Whether neither a batch waits nor a slot is retired.
    pub(crate) fn is_settled(&self) -> bool
        ensures { result ≡ (is_empty (kept_of self.now.nodes self.now.entries self.now.waits).batch && is_empty (kept_of self.now.nodes self.now.entries self.now.waits).retired) }
    {
        self.nodes.is_batch_empty()
            && self.entries.is_batch_empty()
            && self.nodes.is_retired_empty()
            && self.entries.is_retired_empty()
    }

    /// Whether no slot waits, and no look was made since the last batch became free.
    fn is_idle(&self) -> bool
        ensures { result ≡ true → IsIdle (kept_of self.now.nodes self.now.entries self.now.waits) }
    {
        self.waits.is_fresh() && self.is_settled()
    }

    /// Where no batch waits, the retired slots become the batch, and no pass is passed.
    fn take_batch(&mut self)
        ensures keeps { (v : View) → KeepsSlots v (kept_of self.old.nodes self.old.entries self.old.waits) → KeepsSlots (batch_taken v) (kept_of self.new.nodes self.new.entries self.new.waits) }
        ensures room { HasRoomOf (kept_of self.old.nodes self.old.entries self.old.waits) (kept_of self.new.nodes self.new.entries self.new.waits) }
    {
        if self.nodes.is_batch_empty() && self.entries.is_batch_empty() {
            self.nodes.take_batch();
            self.entries.take_batch();
            self.waits.clear();
        }
    }

    /// Where each of the first `passes` is this one or was passed, the batch becomes free.
    fn settle(&mut self, passes: u32, number: u32)
        requires { passes ≤ 32 }
        ensures keeps { (v : View) → KeepsSlots v (kept_of self.old.nodes self.old.entries self.old.waits) → v.number ≡ Some number → KeepsSlots (settled passes v) (kept_of self.new.nodes self.new.entries self.new.waits) }
        ensures room { HasRoomOf (kept_of self.old.nodes self.old.entries self.old.waits) (kept_of self.new.nodes self.new.entries self.new.waits) }
    {
        if self.waits.is_done(passes, number) {
            self.nodes.free_batch();
            self.entries.free_batch();
            self.waits.clear();
        }
    }

    /// An enter where slots may wait. It answers whether none waits any more and no look was made. A call of its own:
    /// where nothing waits, an enter is a test in its caller's place.
    #[inline(never)]
    pub(crate) fn enter(&mut self, passes: u32, number: u32) -> bool
        requires { passes ≤ 32 }
        ensures keeps { (v : View) → KeepsSlots v (kept_of self.old.nodes self.old.entries self.old.waits) → v.number ≡ Some number → KeepsSlots (settled passes (batch_taken v)) (kept_of self.new.nodes self.new.entries self.new.waits) }
        ensures room { HasRoomOf (kept_of self.old.nodes self.old.entries self.old.waits) (kept_of self.new.nodes self.new.entries self.new.waits) }
        ensures idle { result ≡ true → IsIdle (kept_of self.new.nodes self.new.entries self.new.waits) }
    {
        self.take_batch();
        self.settle(passes, number);
        self.is_idle()
    }

    /// What a look does that found `word` as the section word of `pass`.
    pub(crate) fn look(&mut self, passes: u32, number: u32, pass: u32, word: u64)
        requires few { passes ≤ 32 }
        requires there { pass < 32 }
        ensures keeps { (v : View) → KeepsSlots v (kept_of self.old.nodes self.old.entries self.old.waits) → v.number ≡ Some number → KeepsSlots (looked passes v pass word) (kept_of self.new.nodes self.new.entries self.new.waits) }
        ensures room { HasRoomOf (kept_of self.old.nodes self.old.entries self.old.waits) (kept_of self.new.nodes self.new.entries self.new.waits) }
    {
        self.take_batch();
        self.waits.look_at(pass, word);
        self.settle(passes, number);
    }
}
