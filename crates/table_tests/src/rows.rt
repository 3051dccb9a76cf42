// Calls of passes as rows, each with the answer that it is to have, and scenes of two passes: one of them makes the
// calls of rows, and the other one may have a snapshot open then.
ghost use Rattle.table_steps.specs.Passes.{AtRest};

use crate::tested_pass::TestedPass;
use index_words::Pair;
use key_map::{Done, PassError};
use std::alloc::Global;
use std::sync::Wait;
use tree_update::Settling;

/// A call of a pass that has no snapshot open, and the answer that it is to have.
#[derive(Clone, Copy)]
pub(crate) enum Row {
    /// A put for a request line: its number, the key and the value.
    Put(u32, u64, u64, Result<Done, PassError>),
    Remove(u64, Result<Done, PassError>),
    /// A key, the place of a snapshot, and its first pair from the key on.
    First(u64, u64, Option<Pair>),
    TrySettle(Settling),
    FreeNodes(usize),
    FreeEntries(usize),
    /// How many links the tree has; each plain link leads where the tree does.
    Links(u64),
    /// What the pass finds at the announcement of pass 0.
    AnnouncedByFirst(Option<u64>),
}

/// A snapshot's place, and the first pair in it from a key on.
fn snapshot<P: TestedPass, R: Wait>(rt: &R, pass: &mut P, key: u64) -> (u64, Option<Pair>)
    requires { AtRest (P.view pass.old) }
    ensures { AtRest (P.view pass.new) }
{
    let at = pass.begin_reading();
    let first = pass.first_from(rt, key);
    pass.end_reading();
    (at, first)
}

/// Makes the row's call. Returns whether it has the row's answer.
fn has_answer<P: TestedPass, R: Wait>(rt: &R, alloc: Global, pass: &mut P, row: &Row) -> bool
    requires { AtRest (P.view pass.old) }
    ensures { AtRest (P.view pass.new) }
{
    match *row {
        Row::Put(line, key, val, answer) => pass.make_put(rt, line, key, val) == answer,
        Row::Remove(key, answer) => pass.make_removal(rt, key) == answer,
        Row::First(key, at, first) => snapshot(rt, pass, key) == (at, first),
        Row::TrySettle(answer) => pass.settle_by_try() == answer,
        Row::FreeNodes(count) => pass.count_free_nodes() == count,
        Row::FreeEntries(count) => pass.count_free_entries() == count,
        Row::Links(count) => pass.links(alloc) == Some(count),
        Row::AnnouncedByFirst(answer) => pass.announced_by_first() == answer,
    }
}

/// Whether each of the rows has its answer.
pub(crate) fn have_answers<P: TestedPass, R: Wait>(
    rt: &R,
    alloc: Global,
    pass: &mut P,
    rows: &[Row],
) -> bool
    requires { AtRest (P.view pass.old) }
    ensures { AtRest (P.view pass.new) }
{
    'rows: for row in rows {
        if !has_answer(rt, alloc, pass, row) {
            return false;
        }
    }
    true
}

/// Calls of one of two passes, while the other one may have a snapshot open: its place, and its first pair after the
/// calls.
#[derive(Clone, Copy)]
pub(crate) enum Scene {
    ByFirst(&'static [Row]),
    BySecond(&'static [Row]),
    ByFirstBeside(u64, Option<Pair>, &'static [Row]),
    BySecondBeside(u64, Option<Pair>, &'static [Row]),
}

/// Whether the rows have their answers while the other pass has a snapshot open, and whether the snapshot has this
/// place and, after the rows, this first pair.
fn go_beside<P: TestedPass, R: Wait>(
    rt: &R,
    alloc: Global,
    acting: &mut P,
    other: &mut P,
    rows: &[Row],
    shown: (u64, Option<Pair>),
) -> bool
    requires acting { AtRest (P.view acting.old) }
    requires other { AtRest (P.view other.old) }
    ensures acting { AtRest (P.view acting.new) }
    ensures other { AtRest (P.view other.new) }
{
    let at = other.begin_reading();
    let is_right = have_answers(rt, alloc, acting, rows);
    let first = other.first_from(rt, 0);
    other.end_reading();
    is_right && (at, first) == shown
}

/// Whether the scene goes as it should.
fn goes<P: TestedPass, R: Wait>(
    rt: &R,
    alloc: Global,
    zero: &mut P,
    one: &mut P,
    scene: &Scene,
) -> bool
    requires zero { AtRest (P.view zero.old) }
    requires one { AtRest (P.view one.old) }
    ensures zero { AtRest (P.view zero.new) }
    ensures one { AtRest (P.view one.new) }
{
    match *scene {
        Scene::ByFirst(rows) => have_answers(rt, alloc, zero, rows),
        Scene::BySecond(rows) => have_answers(rt, alloc, one, rows),
        Scene::ByFirstBeside(at, first, rows) => {
            go_beside(rt, alloc, zero, one, rows, (at, first))
        }
        Scene::BySecondBeside(at, first, rows) => {
            go_beside(rt, alloc, one, zero, rows, (at, first))
        }
    }
}

/// Whether each of the scenes goes as it should.
pub(crate) fn go<P: TestedPass, R: Wait>(
    rt: &R,
    alloc: Global,
    zero: &mut P,
    one: &mut P,
    scenes: &[Scene],
) -> bool
    requires zero { AtRest (P.view zero.old) }
    requires one { AtRest (P.view one.old) }
{
    'scenes: for scene in scenes {
        if !goes(rt, alloc, zero, one, scene) {
            return false;
        }
    }
    true
}
