//! The plain link of an update without a far successor, after its marks. The link comes first, and then its tag, if a
//! removal has made the link null. Both come before the first lock is given back: once the lock is free, another update
//! may change the link again.
ghost use Rattle.std.specs.Prelude.{◌≡◌, []};
ghost use Rattle.core_updates.specs.Plans.{locks_of, sets_of};
ghost use Rattle.plan_laws.specs.Frames.{KeepsOwned};
ghost use Rattle.plan_laws.specs.PlainLinks.{IsSetting, SetsAtOnce, owes_tag};
ghost use Rattle.plan_laws.specs.Releases.{IsReleasing};
ghost use Rattle.table_steps.specs.Passes.{IsSamePass};

use core_updates::{Front, Plan, PlanSlots};
use table_steps::TablePass;

/// Whether the tag of the link is to be raised: a removal has made it null.
fn is_owed(plan: &Plan, front: &Front) -> bool
    ensures { result ≡ owes_tag plan.now front.now }
{
    match plan {
        Plan::Grow(_) | Plan::Replace(_) => false,
        Plan::Lift(_) | Plan::Join(_) => front.child == 0,
    }
}

/// Sets the plain link at which the tree has changed, to the child that it has had since the raise.
pub fn set_plain(pass: &mut TablePass<'_>, plan: &Plan, slots: &PlanSlots)
    requires near { SetsAtOnce plan.now }
    requires marked { IsSetting pass.old.view pass.old.number plan.now (sets_of plan.now slots.now) (sets_of plan.now slots.now) }
    ensures same { IsSamePass pass.old pass.new }
    ensures set { IsSetting pass.new.view pass.new.number plan.now [] (sets_of plan.now slots.now) }
    ensures keeps { KeepsOwned pass.old.view pass.new.view }
{
    let front = plan.front(slots);
    pass.set_link(front.at.node, front.at.side, front.child);
}

/// Raises the tag of the link, if a removal has made the link null. Then the locks may be given back.
pub fn raise_tag(pass: &mut TablePass<'_>, plan: &Plan, slots: &PlanSlots)
    requires near { SetsAtOnce plan.now }
    requires set { IsSetting pass.old.view pass.old.number plan.now [] (sets_of plan.now slots.now) }
    ensures same { IsSamePass pass.old pass.new }
    ensures raised { IsReleasing pass.new.view pass.new.number (locks_of plan.now) }
    ensures keeps { KeepsOwned pass.old.view pass.new.view }
{
    let front = plan.front(slots);
    if is_owed(plan, &front) {
        pass.facts();
        let tag = pass.load_tag(front.at.node, front.at.side);
        pass.set_tag(front.at.node, front.at.side, tag);
    }
}
