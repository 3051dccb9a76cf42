//! Notes: what a pass reports to another one of the history.
ghost use Rattle.std.specs.Prelude.{◌≡◌};
ghost use Rattle.table_rule.specs.Seats.{Split as SplitHappened};
ghost use Rattle.table_steps.specs.Notes.{HasHeard, Hearing, IsNoteOf, KnowsOwn};
ghost use Rattle.table_steps.specs.Passes.{IsSamePass};

use crate::pass::TablePass;
use std::marker::Model;
use table_rule::TableSeat;

/// What a pass had seen when it made the note. Contracts see the note's table and what the pass had seen.
#[derive(Drop)]
pub struct Note {
    pub(crate) seat: TableSeat,
}

impl Model for Note {
    ghost use Rattle.std.specs.Prelude.{◌≡◌};
    ghost use Rattle.table_rule.specs.Homes.{Sat};
    ghost use Rattle.table_steps.specs.Notes.{note_view};

    ghost Value = { Sat };

    ghost view = { λ n. n.seat };

    ghost invariant = { λ n. n.seat.view ≡ note_view n.seat.view.layout n.seat.view.history.seen };
}

impl<'t> TablePass<'t> {
    /// Makes a note of what the pass has seen. The pass is unchanged.
    pub fn tell(&mut self) -> Note
        ensures same { self.new ≡ self.old }
        ensures event { SplitHappened self.old.view.layout self.old.view 0 self.new.view result.view }
        ensures of { IsNoteOf self.old result }
        ensures seen { result.view.history.seen ≡ self.old.view.history.seen }
    {
        let table = self.table;
        let seat = table.ruled.split(&mut self.seat);
        Note { seat }
    }

    /// Hears a note: what the pass has seen then begins with what it had seen, and with what the note had.
    pub fn hear(&mut self, note: Note)
        requires { IsNoteOf self.old note }
        ensures same { IsSamePass self.old self.new }
        ensures heard { HasHeard self.old.view note.view.history.seen self.new.view }
        ensures events { Hearing self.old.view.layout self.old.view note.view self.new.view }
        ensures own { KnowsOwn self.new }
    {
        let Note { seat } = note;
        seat.facts();
        self.seat.facts();
        let table = self.table;
        table.absorb(&mut self.seat, seat);
        self.seat.facts();
    }
}
