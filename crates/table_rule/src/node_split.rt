//! A free node leaves a seat, by a split.
ghost use Rattle.std.specs.Prelude.{◌≡◌, ◌<◌, length};
ghost use Rattle.core_events.specs.Moves.{split_left, split_right};
ghost use Rattle.table_rule.specs.Homes.{IsOf, with_view};
ghost use Rattle.table_rule.specs.Seats.{Split as SplitHappened};

use crate::ruled::{RuledTable, TableSeat};
use atomic_table::Split;
use index_words::View;

/// A seat is split: the new one has the first free node, and has seen what the other has.
pub struct PartsWithNode;

impl Split<View> for PartsWithNode {
    ghost use Rattle.core_events.specs.Moves.{split_left, split_right};

    ghost left = { λ v. split_left v 1 };

    ghost right = { λ v. split_right v 1 };
}

impl RuledTable {
    /// Splits a seat: the first free node moves to the new one, which has no number and has seen what this one has.
    pub fn split_node(&self, seat: &mut TableSeat) -> TableSeat
        requires of { IsOf self.now seat.old }
        requires free { 0 < length seat.old.view.free.nodes }
        ensures left { seat.new ≡ with_view seat.old (split_left seat.old.view 1) }
        ensures of { IsOf self.now seat.new }
        ensures event { SplitHappened self.now.layout seat.old.view 1 seat.new.view result.view }
        ensures right { result.view ≡ split_right seat.old.view 1 }
        ensures right_of { IsOf self.now result }
    {
        let right = self
            .table
            .shared
            .split_seat::<PartsWithNode>(&mut seat.seat);
        TableSeat { seat: right }
    }
}
