//! The raise of a plan, at which its update takes effect.
ghost use Rattle.std.specs.Prelude.{◌≡◌, ◌<◌, ◌^◌};
ghost use Rattle.core_events.specs.Moves.{nowhere};
ghost use Rattle.core_updates.specs.Plans.{head_of, key_of as plan_key};
ghost use Rattle.plan_laws.specs.Fills.{AreApart};
ghost use Rattle.plan_laws.specs.Raises.{HasFinalised, update_by};
ghost use Rattle.table_steps.specs.Passes.{IsSamePass};
ghost use Rattle.table_steps.specs.Raises.{IsRaisedSince};
ghost use Rattle.update_try.specs.Preparing.{IsPrepared, new_slots_of, out_slots_of, IsRaisedBy};

use core_updates::{Fresh, NewNode, Plan, PlanSlots, ready_plans_may_raise};
use table_steps::TablePass;

/// The entry of a new node's link, 0 for none.
fn entry_of(fresh: Option<Fresh>) -> u32
    ensures { result ≡ head_of fresh }
{
    match fresh {
        None => 0,
        Some(fresh) => fresh.entry,
    }
}

/// The slot of a new node and the entries of its left and its right link; 0 stands for none.
fn new_slots(node: Option<NewNode>) -> [u32; 3]
    ensures { result ≡ new_slots_of node }
{
    match node {
        None => [0, 0, 0],
        Some(node) => [node.slot, entry_of(node.left), entry_of(node.right)],
    }
}

/// The nodes that a plan takes out; 0 stands for none.
fn out_slots(plan: &Plan) -> [u32; 2]
    ensures { result ≡ out_slots_of plan.now }
{
    match plan {
        Plan::Grow(_) => [0, 0],
        Plan::Replace(plan) => [plan.node, 0],
        Plan::Lift(plan) => [plan.node, 0],
        Plan::Join(plan) => [plan.node, plan.next.node],
    }
}

/// The key of a plan's update.
fn key_of(plan: &Plan) -> u64
    ensures key { result ≡ plan_key plan.now }
    ensures small { plan_key plan.now < 2 ^ 64 }
{
    plan.key()
}

/// Raises the update of a plan, with all its entries in front of their bundles, and answers its place. The pass has
/// found both bundles of each node that goes out since it locked the node.
pub fn raise_plan(pass: &mut TablePass<'_>, line: u32, plan: &Plan, slots: &PlanSlots) -> u64
    requires prepared { IsPrepared pass.old.view pass.old.number plan.now slots.now }
    requires apart { AreApart slots.now }
    requires node { 0 < slots.now.node }
    requires left { 0 < pass.old.view.history.left }
    ensures same { IsSamePass pass.old pass.new }
    ensures raised { HasFinalised pass.new.view pass.new.number plan.now slots.now result 0 }
    ensures answers { IsRaisedBy pass.old pass.new line plan.now slots.now result }
    ensures raise { IsRaisedSince pass.old (update_by pass.old.number line plan.now) result pass.new.view }
    ensures reading { pass.new.view.reading ≡ nowhere pass.old.view.reading }
    ensures counts { pass.new.view.counts ≡ pass.old.view.counts }
{
    ready_plans_may_raise();
    let new = new_slots(plan.new_node(slots));
    let out = out_slots(plan);
    pass.raise(line, key_of(plan), plan.change(), new, out)
}
