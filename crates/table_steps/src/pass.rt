//! A pass of the table, and its key.
ghost use Rattle.std.specs.Prelude.{◌≡◌};
ghost use Rattle.table_steps.specs.Passes.{AtRest, IsPassOf};

use crate::kept::Kept;
use crate::table::SharedTable;
use std::marker::Model;
use table_rule::TableSeat;

/// The right to work as one pass of a table: its seat, its number, its slots, and its own updates with their places.
/// The pass is at rest.
#[derive(Drop)]
pub struct PassKey {
    pub(crate) seat: TableSeat,
    pub(crate) kept: Kept,
    pub(crate) share: u32,
}

impl Model for PassKey {
    ghost use Rattle.table_steps.specs.Kept.{Keeps};
    ghost use Rattle.table_steps.specs.Passes.{Pass, AtRest};

    ghost Value = { Pass };

    ghost view = { λ k. record { id = k.seat.id; seat = k.seat.seat; number = k.kept.number; view = k.seat.view } };

    ghost invariant = { λ k. Keeps k.seat.view k.kept × AtRest k.seat.view };
}

/// A pass at work on the table.
#[derive(Drop)]
pub struct TablePass<'t> {
    pub(crate) table: &'t SharedTable,
    pub(crate) seat: TableSeat,
    pub(crate) kept: Kept,
    pub(crate) share: u32,
}

impl<'t> Model for TablePass<'t> {
    ghost use Rattle.table_rule.specs.Homes.{IsOf};
    ghost use Rattle.table_steps.specs.Kept.{Keeps};
    ghost use Rattle.table_steps.specs.Passes.{Pass};

    ghost Value = { Pass };

    ghost view = { λ p. record { id = p.seat.id; seat = p.seat.seat; number = p.kept.number; view = p.seat.view } };

    ghost invariant = { λ p. Keeps p.seat.view p.kept × IsOf p.table.now p.seat };
}

impl SharedTable {
    /// Takes up the work of a pass.
    pub fn attach(&self, key: PassKey) -> TablePass<'_>
        requires of { IsPassOf self.now key }
        ensures same { result ≡ key }
        ensures rest { AtRest result.view }
    {
        let PassKey { seat, kept, share } = key;
        TablePass {
            table: self,
            seat,
            kept,
            share,
        }
    }
}

impl<'t> TablePass<'t> {
    /// Ends the work of a pass.
    pub fn detach(self) -> PassKey
        requires rest { AtRest self.view }
        ensures same { result ≡ self.entry }
    {
        let TablePass {
            table: _,
            seat,
            kept,
            share,
        } = self;
        PassKey { seat, kept, share }
    }

    /// The number of the pass.
    pub fn client(&self) -> u32
        ensures { result ≡ self.now.number }
    {
        self.kept.number
    }
}
