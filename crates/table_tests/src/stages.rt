// What one pass meets at the stages of an update of another pass, which stops at each of them.
ghost use Rattle.std.specs.Prelude.{◌≡◌, ◌<◌, ℕ, Some};
ghost use Rattle.core_updates.specs.PlanEvents.{HasSlots};
ghost use Rattle.plan_laws.specs.PlainLinks.{SetsAtOnce};
ghost use Rattle.plan_laws.specs.Fills.{AreApart};
ghost use Rattle.plan_laws.specs.Raises.{HasFinalised};
ghost use Rattle.update_search.specs.Aims.{IsAim, IsPut};
ghost use Rattle.table_steps.specs.Passes.{AtRest};
ghost use Rattle.tree_update.specs.Trying.{OffersSlots};

use crate::rows::{Row, have_answers};
use crate::set_up::{ROOMY, two_passes};
use crate::tested_pass::TestedPass;
use core_updates::{Plan, PlanSlots};
use index_words::{Change, NoMemory, Pair};
use key_map::Done;
use snapshot_read::Look;
use std::alloc::Global;
use std::sync::Wait;
use std::test::Fail;
use table_steps::TablePass;
use tree_update::Try;
use update_search::{Aim, begin_search, find_aim};
use update_try::{
    finalise_all, leave_section, make_ready, mark_all, plan_slots, prune_all, raise_plan,
    raise_tag, set_plain, unlock_all, validate,
};

/// Key 5 after the update.
const NEW: Look = Look::Found(Pair { key: 5, val: 51 });

/// What one look for the first pair finds, in a snapshot of its own, with the snapshot's place.
type Seen = (u64, Look);

/// Whether the other pass sees this, and then meets this at one try to put key 5.
fn meets<P: TestedPass>(other: &mut P, seen: Seen, tried: Try) -> bool
    requires { AtRest (P.view other.old) }
    ensures { AtRest (P.view other.new) }
{
    let at = other.begin_reading();
    let look = other.look_for_first();
    other.end_reading();
    other.put_by_try(5, 52) == Ok(tried) && (at, look) == seen
}

/// Ends an update after its raise at this place. Returns whether the other pass sees the new pair and meets a lock once
/// the numbers are written, once the bundles are cut, once the nodes that were taken out are marked and once the plain
/// links are set, and whether its try succeeds after the end.
fn end_in_stages<P: TestedPass>(
    pass: &mut TablePass<'_>,
    other: &mut P,
    number: u64,
    plan: &Plan,
    slots: &PlanSlots,
    place: u64,
) -> [bool; 5]
    requires raised { (at : ℕ) × HasFinalised pass.old.view pass.old.number plan.now slots.now at 0 }
    requires apart { AreApart slots.now }
    requires near { SetsAtOnce plan.now }
    requires least { pass.old.view.reading.least ≡ Some number }
    requires rest { AtRest (P.view other.old) }
{
    let shown = (place, NEW);
    finalise_all(pass, plan, slots);
    let numbered = meets(other, shown, Try::Busy);
    prune_all(pass, plan, slots, number);
    let pruned = meets(other, shown, Try::Busy);
    mark_all(pass, plan);
    let marked = meets(other, shown, Try::Busy);
    set_plain(pass, plan, slots);
    raise_tag(pass, plan, slots);
    let set = meets(other, shown, Try::Busy);
    unlock_all(pass, plan.locks().as_slice());
    leave_section(pass);
    let done = Done {
        at: place.wrapping_add(1),
        was: true,
    };
    let ended = meets(other, shown, Try::Done(done));
    [numbered, pruned, marked, set, ended]
}

/// Carries out an aim, at this place. Returns whether the other pass meets a lock at three stages: with the nodes
/// locked, when it sees what it had seen, and with the entries in front of their bundles and after the raise, when
/// its look waits at an entry. Then what it meets at the stages of the end. None if a lock or a look fails.
fn carry_in_stages<P: TestedPass>(
    pass: &mut TablePass<'_>,
    other: &mut P,
    number: u64,
    aim: &Aim,
    slots: &PlanSlots,
    before: Seen,
    place: u64,
) -> Option<([bool; 3], [bool; 5])>
    requires aim { IsAim pass.old.view aim.now }
    requires put { IsPut aim.now }
    requires free { HasSlots pass.old.view slots.now }
    requires apart { AreApart slots.now }
    requires node { 0 < slots.now.node }
    requires left { 0 < pass.old.view.history.left }
    requires reads { pass.old.view.reading.section ≡ Some number }
    requires rest { AtRest (P.view other.old) }
{
    let Ok(plan) = validate(pass, aim) else {
        return None;
    };
    let locked = meets(other, before, Try::Busy);
    make_ready(pass, &plan, slots);
    let prepared = meets(other, (before.0, Look::Pending), Try::Busy);
    raise_plan(pass, 1, &plan, slots);
    let raised = meets(other, (place, Look::Pending), Try::Busy);
    let behind = end_in_stages(pass, other, number, &plan, slots, place);
    Some(([locked, prepared, raised], behind))
}

/// Carries out what a search for key 5 has found.
fn put_in_stages<P: TestedPass>(
    pass: &mut TablePass<'_>,
    other: &mut P,
    slots: &PlanSlots,
    before: Seen,
    place: u64,
) -> Option<([bool; 3], [bool; 5])>
    requires rest { AtRest pass.old.view }
    requires left { 0 < pass.old.view.history.left }
    requires slots { OffersSlots pass.old.view slots.now }
    requires other { AtRest (P.view other.old) }
{
    let at = begin_search(pass);
    pass.facts();
    pass.number_fact();
    match find_aim(pass, 5, Change::Put(51)) {
        Ok(Some(aim)) => carry_in_stages(pass, other, at, &aim, slots, before, place),
        Ok(None) | Err(_) => None,
    }
}

/// Puts key 5 again, with free slots of the pass's own.
fn put_with_own_slots<P: TestedPass>(
    pass: &mut TablePass<'_>,
    other: &mut P,
    before: Seen,
    place: u64,
) -> Option<([bool; 3], [bool; 5])>
    requires rest { AtRest pass.old.view }
    requires other { AtRest (P.view other.old) }
{
    if pass.calls_left() == 0 {
        return None;
    }
    let slots = plan_slots(pass)?;
    put_in_stages(pass, other, &slots, before, place)
}

/// The same, after the calls of these rows.
fn met_after<P: TestedPass, R: Wait>(
    rt: &R,
    alloc: Global,
    pass: &mut TablePass<'_>,
    other: &mut P,
    rows: &[Row],
    before: Seen,
    place: u64,
) -> Option<([bool; 3], [bool; 5])>
    requires rest { AtRest pass.old.view }
    requires other { AtRest (P.view other.old) }
{
    if have_answers(rt, alloc, pass, rows) {
        put_with_own_slots(pass, other, before, place)
    } else {
        None
    }
}

/// The same on a table of two passes.
fn met_behind<R: Wait>(
    rt: &R,
    alloc: Global,
    rows: &[Row],
    before: Seen,
    place: u64,
) -> Result<Option<([bool; 3], [bool; 5])>, NoMemory> {
    let (table, first, second) = two_passes(alloc, ROOMY)?;
    let mut pass = table.attach(second);
    let mut other = table.attach(first);
    let met = met_after(rt, alloc, &mut pass, &mut other, rows, before, place);
    drop(pass);
    drop(other);
    Ok(met)
}

const MET: Option<([bool; 3], [bool; 5])> = Some(([true; 3], [true; 5]));

#[test]
fn a_pass_meets_another_ones_first_put_at_its_stages(rt: HostRuntime) -> Result<(), Fail> {
    assert_eq!(rt;
        met_behind(&rt, rt.alloc(), &[], (0, Look::Nothing), 1)?,
        MET
    );
    Ok(())
}

const FIRST: [Row; 1] = [Row::Put(1, 5, 50, Ok(Done { at: 1, was: false }))];

#[test]
fn a_pass_meets_another_ones_update_at_its_stages(rt: HostRuntime) -> Result<(), Fail> {
    let old = Look::Found(Pair { key: 5, val: 50 });
    assert_eq!(rt; met_behind(&rt, rt.alloc(), &FIRST, (1, old), 2)?, MET);
    Ok(())
}
