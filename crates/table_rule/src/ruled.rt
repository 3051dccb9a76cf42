//! The table and its seats.
use atomic_table::{Seat, Table, TableRule};
use index_words::{Layout, View};
use std::alloc::Global;
use std::marker::Model;

/// The rule of the table: that of the pure machine, over the table's layout, its words and the views of its seats.
pub struct CoreRule;

impl TableRule<u8, View, Layout> for CoreRule {
    ghost use Rattle.core_invariant.specs.Rule.{InRule};
    ghost use Rattle.core_events.specs.Openings.{first_view};

    ghost holds = { λ z s. InRule z s.words s.views };

    ghost first = { first_view };
}

/// A table that threads share. Contracts see which table it is, and its layout.
#[derive(Drop)]
pub struct RuledTable {
    pub(crate) table: Table<u8, View, Layout, CoreRule, Global>,
    pub(crate) layout: Layout,
}

impl Model for RuledTable {
    ghost use Rattle.std.specs.Prelude.{◌≡◌};
    ghost use Rattle.index_words.specs.Words.{word_count};
    ghost use Rattle.table_rule.specs.Homes.{Home};

    ghost Value = { Home };

    ghost view = { λ t. record { id = t.table.shared.table_id; layout = t.layout } };

    ghost invariant = { λ t. (t.table.shared.key ≡ t.layout) × (t.table.shared.table_id.words ≡ word_count t.layout) };
}

/// A seat of the table. It has no bytes. Contracts see its table, its number there, and its view.
#[derive(Drop)]
pub struct TableSeat {
    pub(crate) seat: Seat<u8, View>,
}

impl Model for TableSeat {
    ghost use Rattle.std.specs.Prelude.{◌≡◌, []};
    ghost use Rattle.table_rule.specs.Homes.{Sat, IsLiveView};

    ghost Value = { Sat };

    ghost view = { λ s. record { id = s.seat.table_id; seat = s.seat.id; view = s.seat.me.0 } };

    ghost invariant = { λ s. (s.seat.me.1 ≡ []) × IsLiveView s.seat.me.0 };
}
