//! The end of a removal with a far successor, in two halves around its wait. The wait itself is the caller's.
//!
//! The first half links the copy, leaves the section, and keeps the locks of the successor and of its parent. A pass
//! that was on its way to the successor still finds it; once each other pass was outside a section, none is on its way,
//! and the second half unlinks it.
ghost use Rattle.std.specs.Prelude.{◌≡◌, ◌<◌, true};
ghost use Rattle.index_words.specs.Views.{no_looks};
ghost use Rattle.core_updates.specs.declared.plan.Plan.TheVariants.{Join};
ghost use Rattle.plan_laws.specs.Frames.{KeepsOwned};
ghost use Rattle.plan_laws.specs.Parting.{IsFar, HasPassedAll, RaisesFarTag, kept_locks};
ghost use Rattle.plan_laws.specs.Prunes.{HasNumbered};
ghost use Rattle.plan_laws.specs.Releases.{IsGivingBack};
ghost use Rattle.table_steps.specs.Passes.{AtRest, IsSamePass};
ghost use Rattle.update_try.specs.Parting.{far_of, HasParted};
ghost use Rattle.update_try.specs.Pruning.{ArePrunedOrLeft, walk_limit};

use core_updates::{JoinPlan, Plan, PlanSlots};
use table_steps::TablePass;

/// A removal between its halves: its copy is linked, and its successor is still to be unlinked.
#[derive(Clone, Copy, Debug, PartialEq, Eq)]
pub struct Parted {
    pub plan: JoinPlan,
    /// The tag of the link to the successor, as it was found under the lock.
    pub tag: u64,
}

/// The plan of a removal whose successor does not hang at the removed node itself.
pub(crate) fn far_join(plan: &Plan) -> Option<JoinPlan>
    ensures { result ≡ far_of plan.now }
{
    match plan {
        Plan::Grow(_) | Plan::Replace(_) | Plan::Lift(_) => None,
        Plan::Join(join) => {
            if join.next.at.node == join.node {
                None
            } else {
                Some(*join)
            }
        }
    }
}

/// Ends the section of a removal with a far successor, after the numbers and the cuts.
pub(crate) fn part(pass: &mut TablePass<'_>, plan: &JoinPlan, slots: &PlanSlots) -> Parted
    requires numbered { HasNumbered pass.old.view pass.old.number (Join plan.now) slots.now }
    requires pruned { ArePrunedOrLeft pass.old.view (Join plan.now) (walk_limit pass.old.view) }
    requires far { IsFar plan.now }
    requires node { 0 < slots.now.node }
    ensures same { IsSamePass pass.old pass.new }
    ensures plan { result.plan ≡ plan.now }
    ensures parted { HasParted pass.new.view pass.new.number result }
    ensures looks { pass.new.view.update.waiting ≡ no_looks }
    ensures keeps { KeepsOwned pass.old.view pass.new.view }
{
    let next = plan.next;
    pass.mark(plan.node);
    pass.set_link(plan.at.node, plan.at.side, slots.node);
    pass.facts();
    let tag = pass.load_tag(next.at.node, next.at.side);
    pass.unlock(plan.at.node);
    pass.unlock(plan.node);
    pass.facts();
    pass.leave_waiting();
    pass.announce(None);
    Parted { plan: *plan, tag }
}

/// Raises the tag of the link to the successor, if unlinking it has made the link null.
fn raise_far_tag(pass: &mut TablePass<'_>, parted: &Parted)
    requires null { parted.now.plan.next.right ≡ 0 → RaisesFarTag pass.old.view pass.old.number parted.now.plan parted.now.tag }
    requires some { ¬ (parted.now.plan.next.right ≡ 0) → IsGivingBack true pass.old.view pass.old.number (kept_locks parted.now.plan) }
    ensures same { IsSamePass pass.old pass.new }
    ensures released { IsGivingBack true pass.new.view pass.new.number (kept_locks parted.now.plan) }
    ensures announced { pass.new.view.announced ≡ pass.old.view.announced }
    ensures keeps { KeepsOwned pass.old.view pass.new.view }
{
    let next = parted.plan.next;
    if next.right == 0 {
        pass.set_tag(next.at.node, next.at.side, parted.tag);
    }
}

/// Unlinks the successor, after the wait, and gives the last two locks back.
pub fn unlink_successor(pass: &mut TablePass<'_>, parted: &Parted)
    requires parted { HasParted pass.old.view pass.old.number parted.now }
    requires passed { HasPassedAll pass.old.view }
    ensures same { IsSamePass pass.old pass.new }
    ensures rest { AtRest pass.new.view }
    ensures keeps { KeepsOwned pass.old.view pass.new.view }
{
    let next = parted.plan.next;
    pass.mark(next.node);
    pass.set_link(next.at.node, next.at.side, next.right);
    raise_far_tag(pass, parted);
    pass.unlock(next.at.node);
    pass.unlock(next.node);
}
