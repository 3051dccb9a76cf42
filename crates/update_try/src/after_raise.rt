//! What follows the raise of an update, apart from the cuts. The entries get their numbers first, so that readers go
//! on; then the bundles that the update changed are cut; then the nodes that went out are marked, and the plain links
//! are set. No lock is given back before all of this is done.
ghost use Rattle.std.specs.Prelude.{◌≡◌, ℕ};
ghost use Rattle.core_updates.specs.declared.plan.PlanSlots.{PlanSlots as UpdateSlots};
ghost use Rattle.core_updates.specs.Plans.{sets_of};
ghost use Rattle.plan_laws.specs.Fills.{AreApart};
ghost use Rattle.plan_laws.specs.Frames.{KeepsOwned};
ghost use Rattle.plan_laws.specs.PlainLinks.{IsSetting};
ghost use Rattle.plan_laws.specs.Prunes.{HasNumbered};
ghost use Rattle.plan_laws.specs.Raises.{HasFinalised};
ghost use Rattle.table_steps.specs.Passes.{IsSamePass};

use core_updates::{Plan, PlanSlots};
use table_steps::TablePass;

/// Writes the numbers of the entries of an update that has raised.
pub fn finalise_all(pass: &mut TablePass<'_>, plan: &Plan, slots: &PlanSlots)
    requires raised { (at : ℕ) × HasFinalised pass.old.view pass.old.number plan.now slots.now at 0 }
    requires apart { AreApart slots.now }
    ensures same { IsSamePass pass.old pass.new }
    ensures numbered { HasNumbered pass.new.view pass.new.number plan.now slots.now }
    ensures reading { pass.new.view.reading ≡ pass.old.view.reading }
    ensures keeps { KeepsOwned pass.old.view pass.new.view }
{
    'entries: for entry in plan.entries(slots).as_slice() {
        pass.finalise(*entry);
    }
}

/// Marks the nodes that went out, in the plan's order.
pub fn mark_all(pass: &mut TablePass<'_>, plan: &Plan)
    requires numbered { (slots : UpdateSlots) × HasNumbered pass.old.view pass.old.number plan.now slots }
    ensures same { IsSamePass pass.old pass.new }
    ensures marked { (slots : UpdateSlots) → HasNumbered pass.old.view pass.old.number plan.now slots → IsSetting pass.new.view pass.new.number plan.now (sets_of plan.now slots) (sets_of plan.now slots) }
    ensures keeps { KeepsOwned pass.old.view pass.new.view }
{
    'nodes: for node in plan.out().as_slice() {
        pass.mark(*node);
    }
}
