//! How a raise and a cut move the slots that a pass keeps.
//!
//! Since it locked a node, the pass has found which entries the node's bundles have. It keeps none of that: the words
//! are unchanged, so they are loaded again.
ghost use Rattle.std.specs.Prelude.{◌≡◌, ℕ, ◌++◌, ◌<◌, List, [], ◌∷◌};
ghost use Rattle.core_events.specs.UpdateMoves.{listed_entry};
ghost use Rattle.table_rule.specs.Homes.{IsOf};
ghost use Rattle.table_steps.specs.Raises.{nodes_out, HoldsBundle, HoldsChain, HoldsEntries};
ghost use Rattle.table_steps.specs.Retires.{HasRoomFor, with_retired};

use index_words::{Field, Part, Side, Word};
use pass_slots::PassSlots;
use table_rule::{RuledTable, TableSeat};

/// The head of a bundle of a locked node, which the pass has found since it locked the node.
fn head_again(table: &RuledTable, seat: &mut TableSeat, node: u32, side: Side) -> u32
    requires of { IsOf table.now seat.old }
    requires known { (es : List ℕ) × HoldsBundle seat.old.view node side es }
    ensures same { seat.new ≡ seat.old }
    ensures chain { (es : List ℕ) → HoldsBundle seat.old.view node side es → HoldsChain seat.old.view node result es }
{
    seat.facts();
    let word = table.read(seat, Word::Node(Field::Head(side), node));
    let entries = table.layout().entries;
    prove!(word <= entries as u64);
    word as u32
}

/// The next of an entry in a bundle of a locked node, which the pass has found since it locked the node.
pub(crate) fn next_again(table: &RuledTable, seat: &mut TableSeat, entry: u32) -> u32
    requires of { IsOf table.now seat.old }
    requires known { (node : ℕ) × (es : List ℕ) × HoldsChain seat.old.view node entry (entry ∷ es) }
    ensures same { seat.new ≡ seat.old }
    ensures chain { (node : ℕ) (es : List ℕ) → HoldsChain seat.old.view node entry (entry ∷ es) → HoldsChain seat.old.view node result es }
{
    seat.facts();
    let word = table.read(seat, Word::Entry(Part::Next, entry));
    let entries = table.layout().entries;
    prove!(word <= entries as u64);
    word as u32
}

/// Retires the entries of a bundle of a locked node from this one on. There are at most this many.
pub(crate) fn retire_bundle(
    slots: &mut PassSlots,
    table: &RuledTable,
    seat: &mut TableSeat,
    head: u32,
    limit: u32,
)
    requires of { IsOf table.now seat.old }
    requires chain { (node : ℕ) × (es : List ℕ) × HoldsChain seat.old.view node head es × HasRoomFor [] es limit slots.old }
    ensures same { seat.new ≡ seat.old }
    ensures retired { (node : ℕ) (es : List ℕ) → HoldsChain seat.old.view node head es → slots.new ≡ with_retired [] es slots.old }
{
    seat.facts();
    let mut entry = head;
    for done in 0..limit {
        if entry == 0 {
            return;
        }
        slots.retire_entry(entry);
        entry = next_again(table, seat, entry);
    }
}

/// Retires a node, if it is not 0, with the entries of its bundles.
fn retire_node(
    slots: &mut PassSlots,
    table: &RuledTable,
    seat: &mut TableSeat,
    node: u32,
    limit: u32,
)
    requires of { IsOf table.now seat.old }
    requires entries { (es : List ℕ) × HoldsEntries seat.old.view (listed_entry node) es × HasRoomFor (listed_entry node) es limit slots.old }
    ensures same { seat.new ≡ seat.old }
    ensures retired { (es : List ℕ) → HoldsEntries seat.old.view (listed_entry node) es → slots.new ≡ with_retired (listed_entry node) es slots.old }
{
    if node == 0 {
        return;
    }
    slots.retire_node(node);
    let left = head_again(table, seat, node, Side::Left);
    retire_bundle(slots, table, seat, left, limit);
    let right = head_again(table, seat, node, Side::Right);
    retire_bundle(slots, table, seat, right, limit);
}

/// Retires the nodes that an update takes out, with the entries of their bundles.
pub(crate) fn retire_nodes(
    slots: &mut PassSlots,
    table: &RuledTable,
    seat: &mut TableSeat,
    out: [u32; 2],
    limit: u32,
)
    requires of { IsOf table.now seat.old }
    requires entries { (es : List ℕ) × HoldsEntries seat.old.view (nodes_out out) es × HasRoomFor (nodes_out out) es limit slots.old }
    ensures same { seat.new ≡ seat.old }
    ensures retired { (es : List ℕ) → HoldsEntries seat.old.view (nodes_out out) es → slots.new ≡ with_retired (nodes_out out) es slots.old }
{
    retire_node(slots, table, seat, out[0], limit);
    retire_node(slots, table, seat, out[1], limit);
}
