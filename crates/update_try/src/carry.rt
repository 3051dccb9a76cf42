//! A try of an update: its plan is carried out, or given up.
//!
//! The order is that of the steps below. The nodes are locked one after another, each by one try, and looked at under
//! their locks; a removal walks on to its successor with its first two locks held. Heads of bundles are loaded after
//! the last look, since the first load of one ends the search; then the slots are filled, and entries are put in front
//! of bundles. After the raise the entries get their numbers before the bundles are cut and the nodes that went out are
//! marked; then the plain links are set, and the tags of those that became null are raised, before the first unlock.
//! The locks are given back on every way out, and the section is left.
//!
//! A removal with a far successor is the one update that waits for others after its raise. By then all its entries have
//! their numbers and its bundles are cut, its copy is linked, its section is left, and its announcement is taken back.
//! So it blocks no reader, no other wait for sections, and no pass that cuts. It keeps the locks of the successor and
//! of its parent. A pass that meets these locks gives up its try and leaves its section; so the wait ends, unless a
//! pass stays in its section.
ghost use Rattle.std.specs.Prelude.{◌≡◌, ◌+◌, ◌<◌, ℕ, length, IfOk, IfErr, Some, None};
ghost use Rattle.core_updates.specs.PlanEvents.{HasSlots};
ghost use Rattle.core_updates.specs.Plans.{fronts_of};
ghost use Rattle.core_updates.specs.Ready.{update_of};
ghost use Rattle.plan_laws.specs.Answers.{owned_entries, was_there as had_key};
ghost use Rattle.plan_laws.specs.Fills.{AreApart};
ghost use Rattle.plan_laws.specs.Frames.{KeepsOwned, KeepsPass};
ghost use Rattle.plan_laws.specs.Looks.{HasLookedAll};
ghost use Rattle.plan_laws.specs.PlainLinks.{SetsAtOnce};
ghost use Rattle.plan_laws.specs.Prunes.{HasNumbered, KeepsPruned};
ghost use Rattle.plan_laws.specs.Raises.{HasFinalised};
ghost use Rattle.table_steps.specs.Passes.{AtRest, IsAlone, IsSamePass};
ghost use Rattle.table_steps.specs.Raises.{IsRaisedSince};
ghost use Rattle.update_search.specs.Aims.{IsAim, IsPut, change_of, has_found, key_of};
ghost use Rattle.update_search.specs.Outcomes.{IsCounted};
ghost use Rattle.update_try.specs.Carried.{HasCarriedOut};
ghost use Rattle.update_try.specs.Outcomes.{KeepsAll};
ghost use Rattle.update_try.specs.Parting.{far_of, parted_plan, EndsAs};
ghost use Rattle.update_try.specs.Preparing.{IsPrepared};
ghost use Rattle.update_try.specs.Pruning.{ArePrunedOrLeft, walk_limit};

use crate::after_raise::{finalise_all, mark_all};
use crate::fills::{fill_all, prepare_all};
use crate::heads::find_heads;
use crate::parting::{Parted, far_join, part};
use crate::plain_links::{raise_tag, set_plain};
use crate::planning::validate;
use crate::pruning::prune_all;
use crate::raising::raise_plan;
use crate::release::{leave_section, unlock_all};
use core_updates::{Plan, PlanSlots};
use key_map::Done;
use table_steps::TablePass;
use update_search::{Aim, Failed};

/// Fills the slots of a plan, and puts its entries in front of their bundles.
pub fn make_ready(pass: &mut TablePass<'_>, plan: &Plan, slots: &PlanSlots)
    requires looked { HasLookedAll pass.old.view pass.old.number plan.now }
    requires free { HasSlots pass.old.view slots.now }
    requires apart { AreApart slots.now }
    ensures same { IsSamePass pass.old pass.new }
    ensures prepared { IsPrepared pass.new.view pass.new.number plan.now slots.now }
    ensures keeps { KeepsPass pass.old.view pass.new.view }
    ensures entries { owned_entries pass.new.view + length (fronts_of plan.now slots.now) ≡ owned_entries pass.old.view }
    ensures waits { pass.new.view.counts.waits ≡ pass.old.view.counts.waits }
{
    let heads = find_heads(pass, plan);
    fill_all(pass, plan, slots, heads);
    prepare_all(pass, plan, slots, heads);
}

/// An update that was carried out.
#[derive(Clone, Copy, Debug, PartialEq, Eq)]
pub struct Carried {
    /// Its place, and whether its key was there before.
    pub done: Done,
    /// The successor that it has still to unlink, after a wait. None if the update has ended.
    pub parted: Option<Parted>,
}

/// Ends an update without a far successor, after its numbers and its cuts: the marks and the plain links, then the
/// locks, and then the section.
fn end_at_once(pass: &mut TablePass<'_>, plan: &Plan, slots: &PlanSlots)
    requires numbered { HasNumbered pass.old.view pass.old.number plan.now slots.now }
    requires pruned { ArePrunedOrLeft pass.old.view plan.now (walk_limit pass.old.view) }
    requires near { SetsAtOnce plan.now }
    ensures same { IsSamePass pass.old pass.new }
    ensures rest { AtRest pass.new.view }
    ensures keeps { KeepsOwned pass.old.view pass.new.view }
{
    mark_all(pass, plan);
    set_plain(pass, plan, slots);
    raise_tag(pass, plan, slots);
    unlock_all(pass, plan.locks().as_slice());
    leave_section(pass);
}

/// Ends an update after its raise: the numbers, then the cuts, and then the rest. If its successor is a far one, its
/// end comes after a wait. `number` is the one at which the pass reads.
fn end_update(
    pass: &mut TablePass<'_>,
    number: u64,
    plan: &Plan,
    slots: &PlanSlots,
) -> Option<Parted>
    requires raised { (at : ℕ) × HasFinalised pass.old.view pass.old.number plan.now slots.now at 0 }
    requires apart { AreApart slots.now }
    requires node { 0 < slots.now.node }
    requires least { pass.old.view.reading.least ≡ Some number }
    ensures same { IsSamePass pass.old pass.new }
    ensures plan { parted_plan result ≡ far_of plan.now }
    ensures ends { EndsAs pass.new.view pass.new.number result }
    ensures keeps { KeepsPruned pass.old.view pass.new.view }
{
    finalise_all(pass, plan, slots);
    prune_all(pass, plan, slots, number);
    let Some(join) = far_join(plan) else {
        end_at_once(pass, plan, slots);
        return None;
    };
    Some(part(pass, &join, slots))
}

/// Whether the key of a plan is in the map before the update.
fn was_there(plan: &Plan) -> bool
    ensures { result ≡ had_key plan.now }
{
    match plan {
        Plan::Grow(_) => false,
        Plan::Replace(_) | Plan::Lift(_) | Plan::Join(_) => true,
    }
}

/// Carries out by one try what a search has found, in the section in which the pass reads at `number`. `Ok` has the
/// place of the update, which has taken effect by a raise of this call. The pass is then at rest if the update has
/// ended; a removal with a far successor has still to wait, and to unlink it. An error is the failure whose count has
/// risen, for what another pass did; then nothing has changed, what the pass owns is as before, and the pass is at
/// rest.
pub fn carry_out(
    pass: &mut TablePass<'_>,
    number: u64,
    line: u32,
    aim: &Aim,
    slots: &PlanSlots,
) -> Result<Carried, Failed>
    requires aim { IsAim pass.old.view aim.now }
    requires free { HasSlots pass.old.view slots.now }
    requires apart { AreApart slots.now }
    requires node { 0 < slots.now.node }
    requires left { 0 < pass.old.view.history.left }
    requires reads { pass.old.view.reading.section ≡ Some number }
    ensures same { IsSamePass pass.old pass.new }
    ensures rest { IfErr result (λ failed. AtRest pass.new.view) }
    ensures ends { IfOk result (λ carried. EndsAs pass.new.view pass.new.number carried.parted) }
    ensures put { IsPut aim.now → IfOk result (λ carried. carried.parted ≡ None) }
    ensures done { IfOk result (λ carried. HasCarriedOut pass.old.view pass.new.view pass.old.number line (key_of aim.now) (change_of aim.now) carried.done) }
    ensures raise { IfOk result (λ carried. IsRaisedSince pass.old (update_of pass.old.number line (key_of aim.now) (change_of aim.now)) carried.done.at pass.new.view) }
    ensures was { IfOk result (λ carried. carried.done.was ≡ has_found aim.now) }
    ensures kept { IfErr result (λ failed. KeepsAll pass.old.view pass.new.view) }
    ensures counted { IfErr result (λ failed. IsCounted failed pass.old.view pass.new.view) }
    ensures alone { IfErr result (λ failed. ¬ IsAlone pass.new.view) }
    ensures waits { pass.new.view.counts.waits ≡ pass.old.view.counts.waits }
{
    let plan = match validate(pass, aim) {
        Ok(plan) => plan,
        Err(failed) => {
            leave_section(pass);
            return Err(failed);
        }
    };
    make_ready(pass, &plan, slots);
    let at = raise_plan(pass, line, &plan, slots);
    let was = was_there(&plan);
    let parted = end_update(pass, number, &plan, slots);
    Ok(Carried {
        done: Done { at, was },
        parted,
    })
}
