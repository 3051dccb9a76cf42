//! The steps of read-side sections, of looks and of fills. Each is one move of one word.
ghost use Rattle.std.specs.Prelude.{◌≡◌, ◌≢◌, ◌<◌, ◌+◌, ◌&&◌, true, false, Some, None};
ghost use Rattle.index_words.specs.declared.word.Word.{Word as TableWord};
ghost use Rattle.index_words.specs.Words.{is_there, word_at};
ghost use Rattle.core_grace.specs.Batches.{is_empty, looked};
ghost use Rattle.core_grace.specs.Sections.{is_even, left_word};
ghost use Rattle.core_events.specs.FillMoves.{filled_view};
ghost use Rattle.core_events.specs.Moves.{entered, left};
ghost use Rattle.core_events.specs.Waits.{has_no_lock, looked_waiting};
ghost use Rattle.core_laws.specs.ViewNeeds.{IsOutside, MayFill};
ghost use Rattle.core_laws.specs.Waits.{MayLeaveWaiting, MayLookWaiting};
ghost use Rattle.table_rule.specs.Running.{Happened, Stored};
ghost use Rattle.table_steps.specs.Gives.{entering, leaving, looking, filling};
ghost use Rattle.table_steps.specs.Passes.{Inside, IsSamePass};

use crate::pass::TablePass;
use core_grace::left_word as word_after_leaving;
use index_words::Word;
use std::marker::Brand;

/// Forgets the number of the snapshot, if there is one. If there is none, nothing is stored: the next store of a word
/// would wait for that store.
fn forget(opened: &mut Option<u64>)
    ensures { opened.new ≡ None }
{
    if opened.is_some() {
        *opened = None;
    }
}

impl<'t> TablePass<'t> {
    /// Enters a section: the pass's own section word becomes odd. Where no batch waits the retired slots become the
    /// batch.
    pub fn enter(&mut self)
        requires outside { IsOutside self.old.view }
        ensures same { IsSamePass self.old self.new }
        ensures event { Stored self.old.view.layout (entering self.old) self.old.view self.new.view }
        ensures view { self.new.view ≡ entered self.old.view.layout.passes self.old.view (self.old.view.section_word + 1) }
        ensures announced { self.new.view.announced ≡ self.old.view.announced }
        ensures inside { Inside self.new.view }
    {
        let table = self.table;
        let word = self.kept.section_word + 1;
        table
            .ruled
            .store::<Brand>(&mut self.seat, Word::Section(self.kept.number), word);
        self.kept.section_word = word;
        let passes = table.ruled.layout().passes;
        self.kept.slots.enter(passes, self.kept.number);
    }

    /// Leaves a section: the pass's own section word becomes even, and what was read is forgotten.
    pub fn leave(&mut self)
        requires inside { Inside self.old.view }
        ensures same { IsSamePass self.old self.new }
        ensures event { Stored self.old.view.layout (leaving self.old) self.old.view self.new.view }
        ensures view { self.new.view ≡ left self.old.view (left_word self.old.view.section_word) }
        ensures announced { self.new.view.announced ≡ self.old.view.announced }
        ensures outside { IsOutside self.new.view }
    {
        let table = self.table;
        let word = word_after_leaving(self.kept.section_word);
        table
            .ruled
            .store::<Brand>(&mut self.seat, Word::Section(self.kept.number), word);
        self.kept.section_word = word;
        forget(&mut self.kept.opened);
    }

    /// Leaves a section at the wait of a removal, with the locks of the successor and of its parent.
    pub fn leave_waiting(&mut self)
        requires may { MayLeaveWaiting self.old.view self.old.number }
        ensures same { IsSamePass self.old self.new }
        ensures event { Stored self.old.view.layout (leaving self.old) self.old.view self.new.view }
        ensures view { self.new.view ≡ left self.old.view (left_word self.old.view.section_word) }
        ensures announced { self.new.view.announced ≡ self.old.view.announced }
        ensures even { is_even self.new.view.section_word ≡ true }
    {
        let table = self.table;
        let next = word_after_leaving(self.kept.section_word);
        table
            .ruled
            .store::<Brand>(&mut self.seat, Word::Section(self.kept.number), next);
        self.kept.section_word = next;
        forget(&mut self.kept.opened);
    }

    /// Looks at the section word of another pass at the wait of a removal. The slots are unchanged.
    pub fn look_waiting(&mut self, other: u32) -> u64
        requires may { MayLookWaiting self.old.view other }
        requires locked { has_no_lock self.old.view ≡ false }
        ensures same { IsSamePass self.old self.new }
        ensures event { Happened self.old.view.layout (looking self.old other) self.old.view result self.new.view }
        ensures view { self.new.view ≡ looked_waiting self.old.view other result }
    {
        let table = self.table;
        let word = Word::Section(other);
        table.ruled.load::<Brand>(&mut self.seat, word)
    }

    /// Looks at the section word of another pass, for the slots that wait to become free.
    pub fn look_sec(&mut self, other: u32) -> u64
        requires outside { IsOutside self.old.view }
        requires other { other ≢ self.old.number }
        requires there { other < self.old.view.layout.passes }
        requires waiting { (is_empty self.old.view.batch && is_empty self.old.view.retired) ≡ false }
        ensures same { IsSamePass self.old self.new }
        ensures event { Happened self.old.view.layout (looking self.old other) self.old.view result self.new.view }
        ensures view { self.new.view ≡ looked self.old.view.layout.passes self.old.view other result }
        ensures announced { self.new.view.announced ≡ self.old.view.announced }
        ensures outside { IsOutside self.new.view }
    {
        let table = self.table;
        let word = table
            .ruled
            .load::<Brand>(&mut self.seat, Word::Section(other));
        let passes = table.ruled.layout().passes;
        self.kept.slots.look(passes, self.kept.number, other, word);
        word
    }

    /// Stores a value to the word with this number: any word but the lock of a free slot of the pass.
    pub fn fill(&mut self, word: u64, value: u64)
        requires free { (w : TableWord) × (word_at self.old.view.layout word ≡ Some w) × MayFill self.old.view w }
        ensures same { IsSamePass self.old self.new }
        ensures event { (w : TableWord) × (word_at self.old.view.layout word ≡ Some w) × Stored self.old.view.layout (filling self.old w value) self.old.view self.new.view × (self.new.view ≡ filled_view self.old.view w value) }
    {
        let table = self.table;
        let layout = table.ruled.layout();
        let Some(word) = layout.word_at(word) else {
            unreachable!()
        };
        self.fill_word(word, value);
    }

    /// Stores a value to a word of a free slot of the pass.
    pub fn fill_word(&mut self, word: Word, value: u64)
        requires there { is_there self.old.view.layout word ≡ true }
        requires free { MayFill self.old.view word }
        ensures same { IsSamePass self.old self.new }
        ensures event { Stored self.old.view.layout (filling self.old word value) self.old.view self.new.view }
        ensures view { self.new.view ≡ filled_view self.old.view word value }
    {
        let table = self.table;
        table.ruled.store::<Brand>(&mut self.seat, word, value);
    }
}
