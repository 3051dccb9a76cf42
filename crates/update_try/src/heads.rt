//! The bundles that an update changes, as they stand under its locks: their newest entries, and all entries of the
//! nodes that go out.
ghost use Rattle.std.specs.Prelude.{◌≡◌, ◌<◌, ℕ, List};
ghost use Rattle.core_updates.specs.PlanEvents.{HoldsNumbered};
ghost use Rattle.plan_laws.specs.Fills.{HasHeads};
ghost use Rattle.plan_laws.specs.Frames.{KeepsTry};
ghost use Rattle.plan_laws.specs.Looks.{HasLookedAll, IsUnmarked};
ghost use Rattle.plan_laws.specs.Tries.{IsTrying};
ghost use Rattle.table_steps.specs.Passes.{IsSamePass};
ghost use Rattle.update_search.specs.Searching.{KeepsSearch};
ghost use Rattle.update_try.specs.Walked.{HasWalkedAll, HoldsBundle, KeepsHeads, KeepsNexts, StandsOn};

use crate::walking::walk_along;
use core_trees::Link;
use core_updates::{Heads, Plan};
use index_words::Side;
use table_steps::TablePass;

/// The newest entry of a bundle of a locked node, 0 for none. It has a number: as long as it has none, its pass holds
/// the lock of the node.
fn find_head(pass: &mut TablePass<'_>, at: Link) -> u32
    requires trying { (nodes : List ℕ) × IsTrying pass.old.view pass.old.number nodes }
    requires unmarked { IsUnmarked pass.old.view at.node }
    ensures same { IsSamePass pass.old pass.new }
    ensures head { HoldsNumbered pass.new.view at result }
    ensures stands { StandsOn pass.new.view at result result }
    ensures keeps { KeepsSearch pass.old.view pass.new.view }
    ensures nexts { KeepsNexts pass.old.view pass.new.view }
    ensures heads { KeepsHeads pass.old.view pass.new.view }
{
    let head = pass.load_head(at.node, at.side);
    if head != 0 {
        let number = pass.load_ts(head);
        prove!(0 < number);
    }
    head
}

/// Finds all entries of a bundle of a locked node.
fn find_entries(pass: &mut TablePass<'_>, at: Link)
    requires trying { (nodes : List ℕ) × IsTrying pass.old.view pass.old.number nodes }
    requires unmarked { IsUnmarked pass.old.view at.node }
    ensures same { IsSamePass pass.old pass.new }
    ensures bundle { HoldsBundle pass.new.view at.node at.side }
    ensures keeps { KeepsSearch pass.old.view pass.new.view }
    ensures nexts { KeepsNexts pass.old.view pass.new.view }
    ensures heads { KeepsHeads pass.old.view pass.new.view }
{
    let head = find_head(pass, at);
    walk_along(pass, at, head);
}

/// The newest entries of the bundles in front of which a plan puts its own.
fn find_fronts(pass: &mut TablePass<'_>, plan: &Plan) -> Heads
    requires looked { HasLookedAll pass.old.view pass.old.number plan.now }
    ensures same { IsSamePass pass.old pass.new }
    ensures heads { HasHeads pass.new.view pass.new.number plan.now result }
    ensures keeps { KeepsSearch pass.old.view pass.new.view }
    ensures nexts { KeepsNexts pass.old.view pass.new.view }
    ensures known { KeepsHeads pass.old.view pass.new.view }
{
    let at = find_head(pass, plan.at());
    let next = match plan.next_at() {
        Some(link) => find_head(pass, link),
        None => 0,
    };
    Heads { at, next }
}

/// Finds all that a plan needs to know of bundles: the entries that it retires with the nodes that go out, and the
/// heads in front of which it puts its own entries.
pub fn find_heads(pass: &mut TablePass<'_>, plan: &Plan) -> Heads
    requires looked { HasLookedAll pass.old.view pass.old.number plan.now }
    ensures same { IsSamePass pass.old pass.new }
    ensures heads { HasHeads pass.new.view pass.new.number plan.now result }
    ensures walked { HasWalkedAll pass.new.view plan.now }
    ensures keeps { KeepsTry pass.old.view pass.new.view }
    ensures waits { pass.new.view.counts.waits ≡ pass.old.view.counts.waits }
{
    'nodes: for node in plan.out().as_slice() {
        let node = *node;
        let side = Side::Left;
        find_entries(pass, Link { node, side });
        let side = Side::Right;
        find_entries(pass, Link { node, side });
    }
    find_fronts(pass, plan)
}
