// What one pass does, and how long it takes.
ghost use Rattle.table_steps.specs.Passes.{AtRest, IsSamePass};

use snapshot_read::{Way, begin, end, next_from, next_on};
use std::alloc::Global;
use std::rt::Clock;
use std::sync::Wait;
use std::time::Instant;
use table_steps::TablePass;
use tree_update::put;

/// What a pass is timed at.
#[derive(Clone, Copy, Drop)]
pub(crate) enum Task {
    /// It lists all pairs, each search from the way to the last pair on.
    ListOn,
    /// The same with hints, which its earlier listings have left.
    ListHinted,
    /// It lists once with hints that were left before all keys were put anew, so that their nodes have other keys now.
    ListStale,
    /// It lists all pairs, each search from the root on.
    ListFrom,
    /// It puts all keys.
    Put,
}

/// How many pairs a pass has listed or put, and in how many nanoseconds.
#[derive(Clone, Copy, Drop)]
pub(crate) struct Made {
    pub(crate) count: u64,
    pub(crate) nanos: u128,
}

/// Does a task so many times. The nanoseconds are 0 if the clock cannot be read.
pub(crate) fn time<R: Wait + Clock>(
    pass: &mut TablePass<'_>,
    rt: &R,
    alloc: Global,
    task: Task,
    keys: u32,
    turns: u32,
) -> Made
    requires rest { AtRest pass.old.view }
{
    let mut way = way_of(alloc, task, keys);
    prepare(pass, rt, task, keys, &mut way);
    let start = Instant::now(rt);
    let count = repeat(pass, rt, task, keys, turns, &mut way);
    let nanos = match start.and_then(|start| start.elapsed(rt)) {
        Ok(spent) => spent.as_nanos(),
        Err(_) => 0,
    };
    Made { count, nanos }
}

/// The way of a task's searches: with room for hints of all keys, if it lists with hints.
fn way_of(alloc: Global, task: Task, keys: u32) -> Way {
    match task {
        Task::ListHinted | Task::ListStale => Way::hinting(alloc, keys.saturating_add(1), 0),
        Task::ListOn | Task::ListFrom | Task::Put => Way::new(),
    }
}

/// Leaves the hints with which a task begins.
fn prepare<R: Wait>(pass: &mut TablePass<'_>, rt: &R, task: Task, keys: u32, way: &mut Way)
    requires rest { AtRest pass.old.view }
    ensures rest { AtRest pass.new.view }
{
    if let Task::ListHinted | Task::ListStale = task {
        list_on(pass, rt, keys, way);
    }
    if let Task::ListStale = task {
        put_keys(pass, rt, keys, true);
    }
}

fn repeat<R: Wait>(
    pass: &mut TablePass<'_>,
    rt: &R,
    task: Task,
    keys: u32,
    turns: u32,
    way: &mut Way,
) -> u64
    requires rest { AtRest pass.old.view }
{
    let turns = if let Task::ListStale = task { 1 } else { turns };
    let mut made = 0u64;
    for _ in 0..turns {
        let more = match task {
            Task::ListOn | Task::ListHinted | Task::ListStale => list_on(pass, rt, keys, way),
            Task::ListFrom => list_from(pass, rt, keys),
            Task::Put => put_keys(pass, rt, keys, false),
        };
        made = made.wrapping_add(more);
    }
    made
}

/// Puts so many keys, in an order that looks random: three shifts a key (xorshift, by Marsaglia). Near keys are at most
/// the number of keys, so some of them are put several times.
pub(crate) fn put_keys<R: Wait>(pass: &mut TablePass<'_>, rt: &R, keys: u32, near: bool) -> u64
    requires rest { AtRest pass.old.view }
    ensures same { IsSamePass pass.old pass.new }
    ensures rest { AtRest pass.new.view }
{
    let mut key = 0x9E37_79B9_7F4A_7C15u64;
    let mut made = 0u64;
    for line in 0..keys {
        key ^= key << 13;
        key ^= key >> 7;
        key ^= key << 17;
        let next = if near {
            (key >> 20) % (u64::from(keys) + 1)
        } else {
            key
        };
        if put(pass, rt, line, next, u64::from(line)).is_err() {
            return made;
        }
        made = made.wrapping_add(1);
    }
    made
}

/// Lists at most so many pairs of a snapshot of its own, each search from the way to the last pair on.
fn list_on<R: Wait>(pass: &mut TablePass<'_>, rt: &R, keys: u32, way: &mut Way) -> u64
    requires rest { AtRest pass.old.view }
    ensures rest { AtRest pass.new.view }
{
    let mut listed = 0u64;
    let mut key = 0;
    begin(pass);
    way.forget();
    'pairs: for _ in 0..keys {
        let Some(pair) = next_on(pass, rt, way, key) else {
            break;
        };
        listed = listed.wrapping_add(1);
        key = pair.key.wrapping_add(1);
    }
    end(pass);
    listed
}

/// As `list_on`, each search from the root on.
fn list_from<R: Wait>(pass: &mut TablePass<'_>, rt: &R, keys: u32) -> u64
    requires rest { AtRest pass.old.view }
    ensures rest { AtRest pass.new.view }
{
    let mut listed = 0u64;
    let mut key = 0;
    begin(pass);
    'pairs: for _ in 0..keys {
        let Some(pair) = next_from(pass, rt, key) else {
            break;
        };
        listed = listed.wrapping_add(1);
        key = pair.key.wrapping_add(1);
    }
    end(pass);
    listed
}
