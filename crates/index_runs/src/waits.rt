// A pass stops in the middle of an update, and the others wait for it: some look for a pair, and the rest put the same
// key.
ghost use Rattle.std.specs.Prelude.{◌≡◌, ◌<◌, ℕ, All, IfOk, Some};
ghost use Rattle.core_updates.specs.PlanEvents.{HasSlots};
ghost use Rattle.plan_laws.specs.PlainLinks.{SetsAtOnce};
ghost use Rattle.plan_laws.specs.Fills.{AreApart};
ghost use Rattle.plan_laws.specs.Raises.{HasFinalised};
ghost use Rattle.update_search.specs.Aims.{IsAim, IsPut};
ghost use Rattle.table_steps.specs.Passes.{AtRest, IsPassOf};
ghost use Rattle.tree_update.specs.Trying.{OffersSlots};

use crate::gate::Gate;
use crate::run::Stopped;
use core_updates::{Plan, PlanSlots};
use index_words::{Change, Layout, PassSize};
use snapshot_read::{begin, end, next_from};
use std::alloc::Global;
use std::sync::Wait;
use std::thread::{Threads, map_vec, yield_now};
use table_steps::{PassKey, SharedTable, TablePass};
use tree_update::put;
use update_search::{Aim, begin_search, find_aim};
use update_try::{
    finalise_all, leave_section, make_ready, mark_all, plan_slots, prune_all, raise_plan,
    raise_tag, set_plain, unlock_all, validate,
};

const SIZE: PassSize = PassSize {
    nodes: 3,
    entries: 12,
    calls: 3,
};

const PASSES: usize = 16;

/// How many of the passes wait in a look; their numbers begin with 1.
const LOOKS: u32 = 8;

/// The key of all.
const KEY: u64 = 5;

/// Where the passes meet.
#[derive(Drop)]
struct Meeting {
    /// Raised once the update has its entries in front of their bundles.
    pending: Gate,
    /// Raised by each pass that is about to wait.
    come: Gate,
    /// So often the pass that has stopped lets the others run.
    turns: u32,
}

impl Meeting {
    /// Lets the others come, and then run.
    fn stay(&self) {
        self.pending.raise();
        self.come.wait_for((PASSES - 1) as u64);
        for _ in 0..self.turns {
            yield_now();
        }
    }
}

/// Ends an update after its raise. `number` is the one at which the pass reads.
fn end_update(pass: &mut TablePass<'_>, number: u64, plan: &Plan, slots: &PlanSlots)
    requires raised { (at : ℕ) × HasFinalised pass.old.view pass.old.number plan.now slots.now at 0 }
    requires apart { AreApart slots.now }
    requires near { SetsAtOnce plan.now }
    requires least { pass.old.view.reading.least ≡ Some number }
    ensures rest { AtRest pass.new.view }
{
    finalise_all(pass, plan, slots);
    prune_all(pass, plan, slots, number);
    mark_all(pass, plan);
    set_plain(pass, plan, slots);
    raise_tag(pass, plan, slots);
    unlock_all(pass, plan.locks().as_slice());
    leave_section(pass);
}

/// Carries out an aim, and stays at its stage before the raise. Returns whether the locks were free and the looks found
/// everything unchanged.
fn carry_slowly(
    pass: &mut TablePass<'_>,
    meeting: &Meeting,
    number: u64,
    aim: &Aim,
    slots: &PlanSlots,
) -> bool
    requires aim { IsAim pass.old.view aim.now }
    requires put { IsPut aim.now }
    requires free { HasSlots pass.old.view slots.now }
    requires apart { AreApart slots.now }
    requires node { 0 < slots.now.node }
    requires left { 0 < pass.old.view.history.left }
    requires reads { pass.old.view.reading.section ≡ Some number }
{
    let Ok(plan) = validate(pass, aim) else {
        return false;
    };
    make_ready(pass, &plan, slots);
    meeting.stay();
    raise_plan(pass, 2, &plan, slots);
    end_update(pass, number, &plan, slots);
    true
}

/// Carries out what a search for the key has found.
fn put_slowly(pass: &mut TablePass<'_>, meeting: &Meeting, slots: &PlanSlots) -> bool
    requires rest { AtRest pass.old.view }
    requires left { 0 < pass.old.view.history.left }
    requires slots { OffersSlots pass.old.view slots.now }
{
    let at = begin_search(pass);
    pass.facts();
    pass.number_fact();
    match find_aim(pass, KEY, Change::Put(51)) {
        Ok(Some(aim)) => carry_slowly(pass, meeting, at, &aim, slots),
        Ok(None) | Err(_) => false,
    }
}

/// Replaces the value of the key, with free slots of its own.
fn replace_slowly(pass: &mut TablePass<'_>, meeting: &Meeting) -> bool
    requires rest { AtRest pass.old.view }
{
    if pass.calls_left() == 0 {
        return false;
    }
    match plan_slots(pass) {
        Some(slots) => put_slowly(pass, meeting, &slots),
        None => false,
    }
}

/// Looks for the key in a snapshot that was opened before the raise. Returns its value.
fn look<R: Wait>(rt: &R, pass: &mut TablePass<'_>, meeting: &Meeting) -> Option<u64>
    requires rest { AtRest pass.old.view }
{
    meeting.pending.wait_for(1);
    begin(pass);
    meeting.come.raise();
    let found = next_from(pass, rt, KEY);
    end(pass);
    match found {
        Some(pair) => Some(pair.val),
        None => None,
    }
}

/// Puts the key. Returns the place of the update.
fn put_behind<R: Wait>(rt: &R, pass: &mut TablePass<'_>, meeting: &Meeting) -> Option<u64>
    requires rest { AtRest pass.old.view }
{
    meeting.pending.wait_for(1);
    meeting.come.raise();
    match put(pass, rt, 1, KEY, 52) {
        Ok(done) => Some(done.at),
        Err(_) => None,
    }
}

/// What the pass of the key does, by its number.
fn work<R: Wait>(rt: &R, table: &SharedTable, key: PassKey, meeting: &Meeting) -> Option<u64>
    requires of { IsPassOf table.now key }
{
    let mut pass = table.attach(key);
    match pass.client() {
        0 => {
            let _first = put(&mut pass, rt, 1, KEY, 50);
            if replace_slowly(&mut pass, meeting) {
                Some(2)
            } else {
                None
            }
        }
        1..=LOOKS => look(rt, &mut pass, meeting),
        _ => put_behind(rt, &mut pass, meeting),
    }
}

/// A table with its keys.
fn opened(alloc: Global) -> Result<(SharedTable, Vec<PassKey>), Stopped>
    ensures of { IfOk result (λ t. All (IsPassOf t.0) t.1.items) }
{
    let sizes = [SIZE; PASSES];
    let Some(layout) = Layout::new(&sizes) else {
        return Err(Stopped::BadSizes);
    };
    match SharedTable::open(alloc, &layout, &sizes) {
        Ok(opened) => Ok(opened),
        Err(_) => Err(Stopped::NoMemory),
    }
}

/// What each pass has found or done.
pub(crate) fn make_waits<R: Threads + Wait + Sync>(
    rt: &R,
    alloc: Global,
    turns: u32,
) -> Result<Vec<Option<u64>>, Stopped> {
    let (table, keys) = opened(alloc)?;
    let meeting = Meeting {
        pending: Gate::new(),
        come: Gate::new(),
        turns,
    };
    let run = |key: PassKey| -> Option<u64>
        requires { IsPassOf table key }
    { work(rt, &table, key, &meeting) };
    match map_vec(rt, keys, &run) {
        Ok(answers) => Ok(answers),
        Err(_) => Err(Stopped::NoMemory),
    }
}
