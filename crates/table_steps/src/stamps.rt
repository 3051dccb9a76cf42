//! The loads of the stamp and the announcements, and what is known of each pass. Each is one move of one word.
ghost use Rattle.std.specs.Prelude.{◌≡◌, ◌<◌, ◌≤◌, Some, IfSome};
ghost use Rattle.core_events.specs.Announcing.{announced_view, ann_loaded};
ghost use Rattle.core_laws.specs.ViewNeeds.{MayFix, MayLoadStamp, MayLookAnn};
ghost use Rattle.table_rule.specs.Homes.{IsLiveView};
ghost use Rattle.table_rule.specs.Running.{Happened, Stored};
ghost use Rattle.table_steps.specs.Passes.{Inside, IsSamePass};
ghost use Rattle.table_steps.specs.Stamps.{announced_word, announcing, loading_stamp, looking_announced, with_seen, CanAnnounce, HasSeen, ReadsNow};

use crate::pass::TablePass;
use index_words::Word;
use std::marker::Brand;

/// What an announcement stores, in a table of this many calls: the number plus 1, and 0 where none is announced any
/// more.
fn word_to_announce(number: Option<u64>, calls: u32) -> u64
    requires few { IfSome number (λ n. n ≤ calls) }
    ensures { result ≡ announced_word number }
{
    match number {
        Some(number) => number + 1,
        None => 0,
    }
}

impl<'t> TablePass<'t> {
    /// Loads the stamp: the number of updates. A pass that has announced reads at it from then on.
    pub fn load_stamp(&mut self) -> u64
        requires may { MayLoadStamp self.old.view }
        ensures same { IsSamePass self.old self.new }
        ensures event { Happened self.old.view.layout (loading_stamp self.old 0) self.old.view result self.new.view }
        ensures seen { HasSeen self.old.view result self.new.view }
        ensures reads { 0 < self.old.view.announced → ReadsNow self.old.view 0 result self.new.view }
        ensures unread { self.old.view.announced ≡ 0 → self.new.view ≡ with_seen self.new.view.history.seen self.old.view }
        ensures inside { Inside self.old.view → Inside self.new.view }
    {
        let table = self.table;
        table.ruled.load::<Brand>(&mut self.seat, Word::Stamp)
    }

    /// Loads the stamp and fixes a place: a snapshot is open then, at the number that the load answers.
    pub fn fix_stamp(&mut self) -> u64
        requires may { MayFix self.old.view }
        ensures same { IsSamePass self.old self.new }
        ensures event { Happened self.old.view.layout (loading_stamp self.old 1) self.old.view result self.new.view }
        ensures seen { HasSeen self.old.view result self.new.view }
        ensures reads { ReadsNow self.old.view 1 result self.new.view }
        ensures inside { Inside self.old.view → Inside self.new.view }
    {
        let table = self.table;
        let number = table.ruled.load::<Brand>(&mut self.seat, Word::Stamp);
        self.kept.opened = Some(number);
        number
    }

    /// Announces how many updates the pass has seen, before it reads in its section; or, outside of a section, takes
    /// the announcement back.
    pub fn announce(&mut self, number: Option<u64>)
        requires can { CanAnnounce self.old number }
        ensures same { IsSamePass self.old self.new }
        ensures event { Stored self.old.view.layout (announcing self.old number) self.old.view self.new.view }
        ensures view { self.new.view ≡ announced_view self.old.view (announced_word number) }
    {
        self.seat.facts();
        let table = self.table;
        let word = word_to_announce(number, table.ruled.layout().calls);
        table
            .ruled
            .store::<Brand>(&mut self.seat, Word::Announced(self.kept.number), word);
    }

    /// Looks at what another pass has announced: the number plus 1, or 0 if it has announced none.
    pub fn look_ann(&mut self, other: u32) -> u64
        requires may { MayLookAnn self.old.view other }
        ensures same { IsSamePass self.old self.new }
        ensures event { Happened self.old.view.layout (looking_announced self.old other) self.old.view result self.new.view }
        ensures view { self.new.view ≡ ann_loaded self.old.view other result }
    {
        let table = self.table;
        table
            .ruled
            .load::<Brand>(&mut self.seat, Word::Announced(other))
    }

    /// The number of the open snapshot, if there is one.
    pub fn opened(&self) -> Option<u64>
        ensures { result ≡ self.now.view.reading.opened }
    {
        self.kept.opened
    }

    /// What is known of each pass: its view was not joined into another one, and some table that meets the rule has a
    /// seat with it. The call does nothing.
    pub fn facts(&self)
        ensures { IsLiveView self.now.view }
    {
        self.seat.facts();
    }

    /// The view has the pass's number. The call does nothing.
    pub fn number_fact(&self)
        ensures { self.now.view.number ≡ Some self.now.number }
    {
        // The invariant of a type is known where a field is used.
        let _ = &self.kept;
    }

    /// The table has at most 32 passes. The call does nothing.
    pub fn passes_fact(&self)
        ensures { self.now.view.layout.passes ≤ 32 }
    {
        let _ = &self.kept;
    }
}
