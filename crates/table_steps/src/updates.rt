//! The steps of an update apart from its raise. Each is one move of one word.
ghost use Rattle.std.specs.Prelude.{◌≡◌};
ghost use Rattle.core_events.specs.LockMoves.{unlocked_view, with_mark};
ghost use Rattle.core_events.specs.UpdateMoves.{finalised, prepared};
ghost use Rattle.core_laws.specs.ViewNeeds.{MayPrepare, MayFinalise, MayUnlock, MayMark};
ghost use Rattle.table_rule.specs.Running.{Stored};
ghost use Rattle.table_steps.specs.Passes.{IsSamePass};
ghost use Rattle.table_steps.specs.Updates.{preparing, finalising, unlocking, marking, raised_at};

use crate::pass::TablePass;
use index_words::{Field, Part, Side, Word};
use std::marker::Brand;

impl<'t> TablePass<'t> {
    /// Puts a free entry in front of a bundle of a locked node. Readers wait at it until it has a number.
    ///
    /// The condition is narrower than the event's need: the entry has to be filled in this section, after its last load
    /// of the stamp. At an enter and at such a load the view forgets which words were filled.
    pub fn prepare(&mut self, node: u32, side: Side, entry: u32)
        requires may { MayPrepare self.old.view node side entry }
        ensures same { IsSamePass self.old self.new }
        ensures event { Stored self.old.view.layout (preparing self.old node side entry) self.old.view self.new.view }
        ensures view { self.new.view ≡ prepared self.old.view side node entry }
    {
        self.seat.facts();
        let table = self.table;
        let word = Word::Node(Field::Head(side), node);
        table
            .ruled
            .store::<Brand>(&mut self.seat, word, entry as u64);
        self.kept.slots.take_entry(entry);
    }

    /// Writes the number of the update that has raised into a pending entry.
    pub fn finalise(&mut self, entry: u32)
        requires may { MayFinalise self.old.view entry (raised_at self.old.view) }
        ensures same { IsSamePass self.old self.new }
        ensures event { Stored self.old.view.layout (finalising self.old entry) self.old.view self.new.view }
        ensures view { self.new.view ≡ finalised self.old.view entry }
    {
        self.seat.facts();
        let table = self.table;
        let word = Word::Entry(Part::Stamp, entry);
        let place = self.kept.raised;
        table.ruled.store::<Brand>(&mut self.seat, word, place);
    }

    /// Marks a node that the update has taken out.
    pub fn mark(&mut self, node: u32)
        requires may { MayMark self.old.view node }
        ensures same { IsSamePass self.old self.new }
        ensures event { Stored self.old.view.layout (marking self.old node) self.old.view self.new.view }
        ensures view { self.new.view ≡ with_mark self.old.view node 1 }
    {
        self.seat.facts();
        let table = self.table;
        let word = Word::Node(Field::Mark, node);
        table.ruled.store::<Brand>(&mut self.seat, word, 1);
    }

    /// Gives the lock of a node back. With the last lock the update ends.
    pub fn unlock(&mut self, node: u32)
        requires may { MayUnlock self.old.view node }
        ensures same { IsSamePass self.old self.new }
        ensures event { Stored self.old.view.layout (unlocking self.old node) self.old.view self.new.view }
        ensures view { self.new.view ≡ unlocked_view self.old.view node }
    {
        self.seat.facts();
        let table = self.table;
        let word = Word::Node(Field::Lock, node);
        table.ruled.store::<Brand>(&mut self.seat, word, 0);
    }
}
