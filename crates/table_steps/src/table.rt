//! The shared table.
ghost use Rattle.std.specs.Prelude.{◌≡◌};
ghost use Rattle.core_events.specs.Moves.{joined_with, split_right};
ghost use Rattle.core_laws.specs.ViewNeeds.{MayJoin};
ghost use Rattle.table_rule.specs.Homes.{IsOf, with_view};
ghost use Rattle.table_steps.specs.Notes.{Hearing};
ghost use Rattle.table_steps.specs.Passes.{Extends};

use std::marker::Model;
use table_rule::{RuledTable, TableSeat};

/// A table that passes share. Contracts see which table it is, and its layout.
#[derive(Drop)]
pub struct SharedTable {
    pub(crate) ruled: RuledTable,
}

impl Model for SharedTable {
    ghost use Rattle.table_rule.specs.Homes.{Home};

    ghost Value = { Home };

    ghost view = { λ t. t.ruled };
}

impl SharedTable {
    /// Joins another seat into this one. What this one has seen then begins with what it had seen, and with what the
    /// other one had. A join says this of the other seat alone, so a copy of this one is joined after it.
    pub(crate) fn absorb(&self, seat: &mut TableSeat, other: TableSeat)
        requires of { IsOf self.now seat.old }
        requires other_of { IsOf self.now other }
        requires may { MayJoin seat.old.view other.view }
        ensures view { seat.new ≡ with_view seat.old (joined_with (joined_with seat.old.view other.view) (split_right seat.old.view 0)) }
        ensures events { Hearing self.now.layout seat.old.view other.view seat.new.view }
        ensures of { IsOf self.now seat.new }
        ensures old { Extends seat.old.view.history.seen seat.new.view.history.seen }
        ensures other { Extends other.view.history.seen seat.new.view.history.seen }
    {
        let copy = self.ruled.split(seat);
        self.ruled.join(seat, other);
        seat.facts();
        self.ruled.join(seat, copy);
        seat.facts();
    }
}
