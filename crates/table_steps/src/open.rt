//! How a table is opened.
ghost use Rattle.std.specs.Prelude.{◌≡◌, ◌+◌, ◌<◌, ◌≤◌, ◌^◌, ◌++◌, ◌∷◌, [], IfOk, OnOk, All, length, map};
ghost use Rattle.index_words.specs.Sizes.{FitTable, layout_of, all_nodes, all_entries};
ghost use Rattle.key_map.specs.Lists.{Every};
ghost use Rattle.core_events.specs.Openings.{from_up, pass_view, pass_views};
ghost use Rattle.table_rule.specs.Homes.{IsOf};
ghost use Rattle.table_steps.specs.Closes.{AreAllKeys, number_of};
ghost use Rattle.core_events.specs.Openings.{giving};
ghost use Rattle.table_steps.specs.Opens.{view_of, numbers_from, HasLayout, IsFresh, IsSmall};
ghost use Rattle.table_steps.specs.Passes.{IsPassOf};

use crate::kept::Kept;
use crate::own_updates::OwnUpdates;
use crate::pass::PassKey;
use crate::table::SharedTable;
use index_words::{Layout, NoMemory, PassSize};
use pass_slots::{OwnSlots, PassSlots};
use std::alloc::Global;
use std::marker::Brand;
use table_rule::{RuledTable, TableSeat};

/// The number of a pass, and its first node and entry.
#[derive(Clone, Copy)]
struct First {
    number: u32,
    node: u32,
    entry: u32,
}

/// `count` free slots, from `first` on, in room for all slots of the table.
fn slots_from(alloc: Global, first: u32, count: u32, room: u32) -> Result<OwnSlots, NoMemory>
    requires there { first + count < 2 ^ 32 }
    requires room { count ≤ room }
    ensures free { IfOk result (λ s. s.free ≡ from_up first count) }
    ensures batch { IfOk result (λ s. s.batch ≡ []) }
    ensures retired { IfOk result (λ s. s.retired ≡ []) }
    ensures room { IfOk result (λ s. room ≤ s.room) }
{
    let mut slots = OwnSlots::with_room(alloc, room)?;
    for i in 0..count {
        slots.add_free(first + i);
    }
    Ok(slots)
}

/// What a pass keeps at the start. It has room for all slots of the table, since a slot that it takes out becomes its
/// own: 5 numbers of four bytes for each node slot.
fn first_kept(
    alloc: Global,
    layout: &Layout,
    first: First,
    size: &PassSize,
) -> Result<Kept, NoMemory>
    requires nodes { first.node + size.now.nodes < 2 ^ 32 }
    requires entries { first.entry + size.now.entries < 2 ^ 32 }
    requires node_room { size.now.nodes ≤ layout.now.nodes }
    requires entry_room { size.now.entries ≤ layout.now.entries }
    ensures { IfOk result (λ k. IsFresh layout.now first.number first.node first.entry size.now k) }
{
    let nodes = slots_from(alloc, first.node, size.nodes, layout.nodes)?;
    let entries = slots_from(alloc, first.entry, size.entries, layout.entries)?;
    let updates = OwnUpdates::with_room(alloc, size.calls)?;
    let slots = PassSlots::new(alloc, nodes, entries)?;
    Ok(Kept {
        number: first.number,
        section_word: 0,
        left: size.calls,
        opened: None,
        slots,
        updates,
        raised: 0,
    })
}

impl SharedTable {
    /// Makes the key of a pass from the first seat, which keeps what is left for the other keys.
    fn make_key(
        &self,
        seat: &mut TableSeat,
        first: First,
        size: &PassSize,
        rest: &[PassSize],
        kept: Kept,
    ) -> PassKey
        requires of { IsOf self.now seat.old }
        requires there { first.number < self.now.layout.passes }
        requires few { self.now.layout.passes ≤ 32 }
        requires view { seat.old.view ≡ giving self.now.layout first.number first.node first.entry (size.now ∷ rest.now) }
        requires fresh { IsFresh self.now.layout first.number first.node first.entry size.now kept }
        ensures left { seat.new.view ≡ giving self.now.layout (first.number + 1) (first.node + size.now.nodes) (first.entry + size.now.entries) rest.now }
        ensures left_of { IsOf self.now seat.new }
        ensures view { result.view ≡ pass_view self.now.layout first.number first.node first.entry size.now }
        ensures of { IsPassOf self.now result }
        ensures number { result.number ≡ first.number }
    {
        let made = self.ruled.make::<Brand>(seat, first.number, size);
        PassKey {
            seat: made,
            kept,
            share: size.entries,
        }
    }

    /// Makes the keys of these passes from the first seat, one after another.
    fn add_keys(
        &self,
        alloc: Global,
        seat: &mut TableSeat,
        keys: &mut Vec<PassKey>,
        first: First,
        sizes: &[PassSize],
    ) -> Result<(), NoMemory>
        requires of { IsOf self.now seat.old }
        requires passes { first.number + length sizes.now ≤ self.now.layout.passes }
        requires nodes { first.node + all_nodes sizes.now ≤ self.now.layout.nodes + 1 }
        requires entries { first.entry + all_entries sizes.now ≤ self.now.layout.entries + 1 }
        requires small { IsSmall self.now.layout }
        requires some { (0 < first.node) × (0 < first.entry) }
        requires view { seat.old.view ≡ giving self.now.layout first.number first.node first.entry sizes.now }
        requires keys { Every (IsPassOf self.now) keys.old.items }
        ensures of { OnOk result (Every (IsPassOf self.now) keys.new.items) }
        ensures views { OnOk result (map view_of keys.new.items ≡ map view_of keys.old.items ++ pass_views self.now.layout first.number first.node first.entry sizes.now) }
        ensures numbers { OnOk result (map number_of keys.new.items ≡ map number_of keys.old.items ++ numbers_from first.number sizes.now) }
    {
        match sizes {
            [] => Ok(()),
            [size, rest @ ..] => {
                let layout = self.ruled.layout();
                let kept = first_kept(alloc, &layout, first, size)?;
                keys.push(self.make_key(seat, first, size, rest, kept))?;
                let next = First {
                    number: first.number + 1,
                    node: first.node + size.nodes,
                    entry: first.entry + size.entries,
                };
                self.add_keys(alloc, seat, keys, next, rest)
            }
        }
    }

    /// Opens a table for passes of these sizes, and takes all memory that its calls use until it is closed. The keys
    /// are all keys of the table, each once, in the order of the sizes: key `i` has the number `i`, and that pass's
    /// slots and calls. The layout of the table and of each key has as many passes as there are sizes, and their nodes,
    /// entries and calls together. All words are 0.
    pub fn open(
        alloc: Global,
        layout: &Layout,
        sizes: &[PassSize],
    ) -> Result<(SharedTable, Vec<PassKey>), NoMemory>
        requires fit { FitTable sizes.now }
        requires sums { layout.now ≡ layout_of sizes.now }
        ensures layout { IfOk result (λ t. t.0.layout ≡ layout.now) }
        ensures sums { IfOk result (λ t. t.0.layout ≡ layout_of sizes.now) }
        ensures layouts { IfOk result (λ t. Every (HasLayout (layout_of sizes.now)) t.1.items) }
        ensures of { IfOk result (λ t. All (IsPassOf t.0) t.1.items) }
        ensures all { IfOk result (λ t. AreAllKeys t.0 t.1.items) }
        ensures views { IfOk result (λ t. map view_of t.1.items ≡ pass_views layout.now 0 1 1 sizes.now) }
        ensures numbers { IfOk result (λ t. map number_of t.1.items ≡ numbers_from 0 sizes.now) }
    {
        let (ruled, mut seat) = RuledTable::open(alloc, layout)?;
        let table = SharedTable { ruled };
        let mut keys = Vec::new(alloc);
        let first = First {
            number: 0,
            node: 1,
            entry: 1,
        };
        table.add_keys(alloc, &mut seat, &mut keys, first, sizes)?;
        Ok((table, keys))
    }
}
