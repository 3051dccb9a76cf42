//! The free slots from which an update takes what it needs.
ghost use Rattle.std.specs.Prelude.{◌≡◌, ◌<◌, ◌^◌, length, IfSome, None, Some};
ghost use Rattle.std.specs.List.{slice_get};
ghost use Rattle.core_updates.specs.declared.plan.PlanSlots.{PlanSlots as Slots};
ghost use Rattle.core_updates.specs.PlanEvents.{HasSlots};
ghost use Rattle.plan_laws.specs.Fills.{AreApart};
ghost use Rattle.update_try.specs.FreeSlots.{HasFreeSlots, LacksFreeSlots};

use core_updates::PlanSlots;
use table_steps::TablePass;

/// The free node at a place of the pass's list.
fn node_at(pass: &TablePass<'_>, place: usize) -> u32
    requires { place < length pass.now.view.free.nodes }
    ensures { slice_get pass.now.view.free.nodes place ≡ Some result }
{
    let Some(node) = pass.free_node(place) else {
        unreachable!()
    };
    node
}

/// The free entry at a place of the pass's list.
fn entry_at(pass: &TablePass<'_>, place: usize) -> u32
    requires { place < length pass.now.view.free.entries }
    ensures item { slice_get pass.now.view.free.entries place ≡ Some result }
    ensures small { result < 2 ^ 32 }
{
    let Some(entry) = pass.free_entry(place) else {
        unreachable!()
    };
    entry
}

/// A free node and four free entries of a pass, the last ones of its lists, which are found first. None if it has no
/// free node, or fewer than four free entries. Slots near those of the neighbouring keys would halve the time of a
/// listing of 100,000 keys, but the first puts of keys that are there would undo that order.
pub fn plan_slots(pass: &TablePass<'_>) -> Option<PlanSlots>
    ensures free { IfSome result (HasSlots pass.now.view) }
    ensures apart { IfSome result AreApart }
    ensures node { IfSome result (λ (s : Slots). 0 < s.node) }
    ensures enough { IfSome result (λ s. HasFreeSlots pass.now.view) }
    ensures none { result ≡ None → LacksFreeSlots pass.now.view }
{
    pass.facts();
    let nodes = pass.free_nodes();
    if nodes == 0 {
        return None;
    }
    let entries = pass.free_entries();
    if entries < 4 {
        return None;
    }
    Some(PlanSlots {
        node: node_at(pass, nodes - 1),
        at: entry_at(pass, entries - 1),
        left: entry_at(pass, entries - 2),
        right: entry_at(pass, entries - 3),
        next: entry_at(pass, entries - 4),
    })
}
