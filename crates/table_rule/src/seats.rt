//! How the table is opened, and its seats made, split and joined.
ghost use Rattle.std.specs.Prelude.{◌≡◌, ◌<◌, ◌^◌, IfOk, replicate};
ghost use Rattle.index_words.specs.declared.word.Word.TheVariants.{Stamp};
ghost use Rattle.core_events.specs.Moves.{split_right, joined_with};
ghost use Rattle.core_events.specs.Openings.{first_view, made_left, made_right, MayMake};
ghost use Rattle.core_laws.specs.ViewNeeds.{MayJoin};
ghost use Rattle.table_rule.specs.Homes.{IsOf, with_view, IsLiveView};
ghost use Rattle.table_rule.specs.Seats.{Split as SplitHappened, Join as JoinHappened};

use crate::ruled::{RuledTable, TableSeat};
use atomic_table::{Join, Play, Split, Table};
use index_words::{Layout, NoMemory, PassSize, View};
use std::alloc::{AllocError, Global};
use std::marker::{Brand, PhantomData};

/// Which pass a made seat is, and its size.
pub trait Given {
    ghost use Rattle.std.specs.Prelude.{ℕ};
    ghost use Rattle.key_map.specs.declared.pass.PassSize.{PassSize};

    ghost number: { ℕ };

    ghost size: { PassSize };
}

impl Given for Brand {
    ghost number = { 0 };

    ghost size = { record { nodes = 0; entries = 0; calls = 0 } };
}

pub struct Makes<G: Given> {
    given: PhantomData<G>,
}

impl<G: Given> Split<View> for Makes<G> {
    ghost use Rattle.core_events.specs.Openings.{made_left, made_right};

    ghost left = { λ v. made_left v G.size };

    ghost right = { λ v. made_right v G.number G.size };
}

/// A seat is split: the new one has seen what the other has, and owns nothing.
pub struct Copies;

impl Split<View> for Copies {
    ghost use Rattle.core_events.specs.Moves.{split_left, split_right};

    ghost left = { λ v. split_left v 0 };

    ghost right = { λ v. split_right v 0 };
}

/// A seat takes in what another one knew and owned.
pub struct TakesIn;

impl Join<View> for TakesIn {
    ghost use Rattle.core_events.specs.Moves.{joined_with};
    ghost use Rattle.index_words.specs.Views.{spent_view};

    ghost both = { λ v u. joined_with v u };

    ghost spent = { spent_view };
}

/// A load that changes nothing and is no event: it tells that the table meets the rule with the seat's view.
pub struct Knows;

impl Play<u8, View> for Knows {
    ghost use Rattle.std.specs.Prelude.{◌≡◌};
    ghost use Rattle.table_rule.specs.Running.{Stands};

    ghost then = { λ s m n w. (w ≡ m) × Stands m.0.layout m.0 };
}

/// So many words that are 0.
fn zeros(alloc: Global, count: usize) -> Result<Vec<u64>, AllocError>
    ensures { IfOk result (λ words. words.items ≡ replicate count 0) }
{
    vec![in alloc; 0; count]
}

impl RuledTable {
    /// A table of this layout with all words 0, and its first seat, which has everything to give to the seats of the
    /// passes.
    pub fn open(alloc: Global, layout: &Layout) -> Result<(RuledTable, TableSeat), NoMemory>
        requires few { layout.now.calls < 2 ^ 64 }
        ensures layout { IfOk result (λ t. t.0.layout ≡ layout.now) }
        ensures of { IfOk result (λ t. IsOf t.0 t.1) }
        ensures first { IfOk result (λ t. t.1.view ≡ first_view layout.now) }
    {
        let words = zeros(alloc, layout.word_count() as usize)?;
        let (table, seat) = Table::of_words(alloc, words.as_slice(), layout)?;
        Ok((
            RuledTable {
                table,
                layout: *layout,
            },
            TableSeat { seat },
        ))
    }

    /// The table's layout.
    pub fn layout(&self) -> Layout
        ensures { result ≡ self.now.layout }
    {
        self.layout
    }

    /// Makes the seat of a pass, while the table is opened: the number, the slots and the calls move to it.
    pub fn make<G: Given>(&self, seat: &mut TableSeat, number: u32, size: &PassSize) -> TableSeat
        requires of { IsOf self.now seat.old }
        requires number { G.number ≡ number }
        requires size { G.size ≡ size.now }
        requires may { MayMake seat.old.view number size.now }
        ensures left { seat.new ≡ with_view seat.old (made_left seat.old.view size.now) }
        ensures of { IsOf self.now seat.new }
        ensures right { result.view ≡ made_right seat.old.view number size.now }
        ensures right_of { IsOf self.now result }
    {
        let made = self.table.shared.split_seat::<Makes<G>>(&mut seat.seat);
        TableSeat { seat: made }
    }

    /// Splits a seat: the new one has no number and has seen what this one has. This one is as it was.
    pub fn split(&self, seat: &mut TableSeat) -> TableSeat
        requires of { IsOf self.now seat.old }
        ensures same { seat.new ≡ seat.old }
        ensures event { SplitHappened self.now.layout seat.old.view 0 seat.new.view result.view }
        ensures right { result.view ≡ split_right seat.old.view 0 }
        ensures right_of { IsOf self.now result }
    {
        let right = self.table.shared.split_seat::<Copies>(&mut seat.seat);
        TableSeat { seat: right }
    }

    /// Joins another seat into this one, which takes in what that one knew and owned. A load that follows tells that
    /// the table meets the rule with the joined view.
    pub fn join(&self, seat: &mut TableSeat, other: TableSeat)
        requires of { IsOf self.now seat.old }
        requires other_of { IsOf self.now other }
        requires may { MayJoin seat.old.view other.view }
        ensures view { seat.new ≡ with_view seat.old (joined_with seat.old.view other.view) }
        ensures event { JoinHappened self.now.layout seat.old.view other.view seat.new.view }
        ensures of { IsOf self.now seat.new }
    {
        let TableSeat { seat: other } = other;
        let shared = &self.table.shared;
        shared.join_seat::<TakesIn>(&mut seat.seat, other);
        shared.load::<Knows>(&mut seat.seat, 0);
    }
}

impl TableSeat {
    /// What is known of each seat: its view was not joined into another one, and some table that meets the rule has a
    /// seat with it. The call does nothing.
    pub fn facts(&self)
        ensures { IsLiveView self.now.view }
    {
        let _ = &self.seat;
    }
}
