// What a try finds if another pass makes an update between its search and its looks.
ghost use Rattle.std.specs.Prelude.{◌<◌};
ghost use Rattle.table_steps.specs.Passes.{AtRest};
ghost use Rattle.tree_update.specs.Trying.{OffersSlots};

use crate::rows::{Row, have_answers};
use crate::set_up::{ROOMY, two_passes};
use crate::tested_pass::TestedPass;
use core_updates::PlanSlots;
use index_words::{Change, NoMemory};
use key_map::Done;
use std::alloc::Global;
use std::sync::Wait;
use std::test::Fail;
use table_steps::TablePass;
use update_search::{Failed, begin_search, find_aim};
use update_try::{carry_out, plan_slots};

/// A try to put a key, which stops after its search until another pass has made the calls of the rows. Returns whether
/// it has then found that something moved.
fn is_moved_by<P: TestedPass, R: Wait>(
    rt: &R,
    alloc: Global,
    pass: &mut TablePass<'_>,
    other: &mut P,
    slots: &PlanSlots,
    key: u64,
    rows: &[Row],
) -> bool
    requires rest { AtRest pass.old.view }
    requires left { 0 < pass.old.view.history.left }
    requires slots { OffersSlots pass.old.view slots.now }
    requires other { AtRest (P.view other.old) }
{
    let at = begin_search(pass);
    pass.facts();
    pass.number_fact();
    let Ok(Some(aim)) = find_aim(pass, key, Change::Put(1)) else {
        return false;
    };
    if !have_answers(rt, alloc, other, rows) {
        return false;
    }
    carry_out(pass, at, 1, &aim, slots) == Err(Failed::Moved)
}

/// As `is_moved_by`, with free slots of the pass's own.
fn moves<P: TestedPass, R: Wait>(
    rt: &R,
    alloc: Global,
    pass: &mut TablePass<'_>,
    other: &mut P,
    key: u64,
    rows: &[Row],
) -> bool
    requires rest { AtRest pass.old.view }
    requires other { AtRest (P.view other.old) }
{
    if pass.calls_left() == 0 {
        return false;
    }
    match plan_slots(pass) {
        Some(slots) => is_moved_by(rt, alloc, pass, other, &slots, key, rows),
        None => false,
    }
}

const FIRST: [Row; 1] = [Row::Put(1, 5, 50, Ok(Done { at: 1, was: false }))];

/// The same, once the other pass has put key 5.
fn moves_behind_put<P: TestedPass, R: Wait>(
    rt: &R,
    alloc: Global,
    pass: &mut TablePass<'_>,
    other: &mut P,
    key: u64,
    rows: &[Row],
) -> bool
    requires rest { AtRest pass.old.view }
    requires other { AtRest (P.view other.old) }
{
    have_answers(rt, alloc, other, &FIRST) && moves(rt, alloc, pass, other, key, rows)
}

/// The same, on a table of two passes.
fn moves_on_a_table<R: Wait>(
    rt: &R,
    alloc: Global,
    key: u64,
    rows: &[Row],
) -> Result<bool, NoMemory> {
    let (table, first, second) = two_passes(alloc, ROOMY)?;
    let mut other = table.attach(first);
    let mut pass = table.attach(second);
    let moved = moves_behind_put(rt, alloc, &mut pass, &mut other, key, rows);
    drop(pass);
    drop(other);
    Ok(moved)
}

const REPLACED: [Row; 1] = [Row::Put(1, 5, 51, Ok(Done { at: 2, was: true }))];

const REMOVED: [Row; 1] = [Row::Remove(5, Ok(Done { at: 2, was: true }))];

/// First the link leads to another node, then the node of the link is marked.
#[test]
fn a_pass_finds_that_what_it_has_searched_moved(rt: HostRuntime) -> Result<(), Fail> {
    assert!(rt; moves_on_a_table(&rt, rt.alloc(), 5, &REPLACED)?);
    assert!(rt; moves_on_a_table(&rt, rt.alloc(), 3, &REMOVED)?);
    Ok(())
}
