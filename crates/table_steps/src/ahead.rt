//! Loads ahead: they bring words that a listing is about to read into the processor's cache. They are no events, they
//! change nothing, and nothing is known from them, so any number may be given.
ghost use Rattle.std.specs.Prelude.{◌≡◌, ◌≤◌};
ghost use Rattle.table_rule.specs.Homes.{IsOf};

use crate::pass::TablePass;
use index_words::{Field, Part, Side, Word};
use table_rule::{RuledTable, TableSeat};

/// Loads the newest entry of one bundle of a node, if there is one.
#[inline(always)]
fn fetch_head(table: &RuledTable, seat: &mut TableSeat, node: u32, side: Side)
    requires of { IsOf table.now seat.old }
    requires there { node ≤ table.now.layout.nodes }
    ensures same { seat.new ≡ seat.old }
{
    let entry = table.read(seat, Word::Node(Field::Head(side), node));
    if 0 < entry && entry <= u64::from(table.layout().entries) {
        table.read(seat, Word::Entry(Part::Stamp, entry as u32));
    }
}

/// Loads the newest entries of both bundles of a node, if there is such a node.
#[inline(always)]
fn fetch_both(table: &RuledTable, seat: &mut TableSeat, node: u32)
    requires of { IsOf table.now seat.old }
    ensures same { seat.new ≡ seat.old }
{
    if node <= table.layout().nodes {
        fetch_head(table, seat, node, Side::Left);
        fetch_head(table, seat, node, Side::Right);
    }
}

/// Loads a node's key and its last head, between which its value lies: they are in one or two lines of the cache.
#[inline(always)]
fn fetch_words(table: &RuledTable, seat: &mut TableSeat, node: u32)
    requires of { IsOf table.now seat.old }
    ensures same { seat.new ≡ seat.old }
{
    if node <= table.layout().nodes {
        table.read(seat, Word::Node(Field::Key, node));
        table.read(seat, Word::Node(Field::Head(Side::Right), node));
    }
}

impl<'t> TablePass<'t> {
    /// Loads what a listing reads of a node itself: its key, its value and its heads. Where there is no such node it
    /// does nothing.
    #[inline(always)]
    pub fn fetch_node(&mut self, node: u32)
        ensures same { self.new ≡ self.old }
    {
        let table = self.table;
        fetch_words(&table.ruled, &mut self.seat, node);
    }

    /// Loads the newest entries of both bundles of a node. It waits for the node itself, unless that is in the cache.
    /// Where there is no such node it does nothing.
    #[inline(always)]
    pub fn fetch_heads(&mut self, node: u32)
        ensures same { self.new ≡ self.old }
    {
        let table = self.table;
        fetch_both(&table.ruled, &mut self.seat, node);
    }
}
