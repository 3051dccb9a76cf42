//! Parcels: a free node slot on its way from one pass to another. Meanwhile it is the free slot of a seat without a
//! number.
ghost use Rattle.std.specs.Prelude.{◌≡◌, ◌<◌, ◌≤◌, ◌+◌, length};
ghost use Rattle.core_events.specs.Moves.{split_left, split_right};
ghost use Rattle.table_rule.specs.Seats.{Split as SplitHappened};
ghost use Rattle.table_steps.specs.Notes.{Hearing, KnowsOwn};
ghost use Rattle.table_steps.specs.Parcels.{HasAdopted, HasLent, IsParcelOf, parcel_node};
ghost use Rattle.table_steps.specs.Passes.{IsSamePass};

use crate::pass::TablePass;
use index_words::Layout;
use std::marker::Model;
use table_rule::TableSeat;

/// A node slot that no pass owns. Contracts see its table, and which slot it is. One that is dropped is lost to its
/// table: no pass can use the slot again.
#[derive(Drop)]
pub struct Parcel {
    pub(crate) seat: TableSeat,
    pub(crate) node: u32,
}

impl Model for Parcel {
    ghost use Rattle.std.specs.Prelude.{◌≡◌};
    ghost use Rattle.table_rule.specs.Homes.{Sat};
    ghost use Rattle.table_steps.specs.Parcels.{parcel_view};

    ghost Value = { Sat };

    ghost view = { λ p. p.seat };

    ghost invariant = { λ p. p.seat.view ≡ parcel_view p.seat.view.layout p.seat.view.history.seen p.node };
}

/// How many slots a pass owns, and how many of its nodes are free.
#[derive(Clone, Copy, Drop)]
pub struct OwnedSlots {
    pub nodes: u32,
    pub entries: u32,
    pub free_nodes: u32,
}

/// A number of slots, in 32 bits as the number of all slots is.
fn within(count: usize, all: u32) -> u32
    requires { count ≤ all }
    ensures { result ≡ count }
{
    count as u32
}

impl<'t> TablePass<'t> {
    /// How many nodes and entries the pass owns (free, retired, or in the batch), and how many nodes are free.
    pub fn owned_slots(&self) -> OwnedSlots
        ensures nodes { result.nodes ≡ length self.now.view.free.nodes + length self.now.view.batch.nodes + length self.now.view.retired.nodes }
        ensures entries { result.entries ≡ length self.now.view.free.entries + length self.now.view.batch.entries + length self.now.view.retired.entries }
        ensures free { result.free_nodes ≡ length self.now.view.free.nodes }
    {
        self.facts();
        let layout = self.layout();
        let nodes = within(self.owned_nodes(), layout.nodes);
        let entries = within(self.owned_entries(), layout.entries);
        let free_nodes = within(self.free_nodes(), layout.nodes);
        OwnedSlots {
            nodes,
            entries,
            free_nodes,
        }
    }

    /// The layout of the table.
    pub(crate) fn layout(&self) -> Layout
        ensures { result ≡ self.now.view.layout }
    {
        let table = self.table;
        table.ruled.layout()
    }

    /// Lends the first free node: it leaves the pass, and is in the parcel.
    pub fn lend(&mut self) -> Parcel
        requires free { 0 < length self.old.view.free.nodes }
        ensures same { IsSamePass self.old self.new }
        ensures of { IsParcelOf self.old result }
        ensures lent { HasLent self.old.view (parcel_node result) self.new.view }
        ensures event { SplitHappened self.old.view.layout self.old.view 1 self.new.view result.view }
    {
        self.seat.facts();
        let table = self.table;
        let Some(node) = self.kept.slots.free_node(0) else {
            unreachable!()
        };
        let seat = table.ruled.split_node(&mut self.seat);
        self.kept.slots.take_node(node);
        Parcel { seat, node }
    }

    /// Adopts the node of a parcel: it is free then, and the pass owns it.
    pub fn adopt(&mut self, parcel: Parcel)
        requires of { IsParcelOf self.old parcel }
        ensures same { IsSamePass self.old self.new }
        ensures adopted { HasAdopted self.old.view (parcel_node parcel) self.new.view }
        ensures events { Hearing self.old.view.layout self.old.view parcel.view self.new.view }
        ensures own { KnowsOwn self.new }
    {
        let Parcel { seat, node } = parcel;
        seat.facts();
        self.seat.facts();
        let table = self.table;
        table.absorb(&mut self.seat, seat);
        self.seat.facts();
        self.kept.slots.regain_node(node);
    }
}
