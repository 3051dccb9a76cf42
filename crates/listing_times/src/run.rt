// A run: a table is opened and filled, and its passes do their tasks at once, each on a thread of its own.
ghost use Rattle.std.specs.Prelude.{◌≡◌, IfOk, All};
ghost use Rattle.table_steps.specs.Passes.{IsPassOf};

use crate::work::{Made, Task, put_keys, time};
use index_words::{Layout, NoMemory, PassSize};
use std::alloc::{AllocError, Global};
use std::rt::Clock;
use std::sync::Wait;
use std::thread::{Threads, map_vec};
use table_steps::{PassKey, SharedTable};

/// Which passes there are, and how they list.
#[derive(Clone, Copy, Drop)]
pub(crate) enum Kind {
    /// One pass lists, each search from the way to the last pair on.
    Way,
    /// One pass lists, each search from the root on.
    Root,
    /// As `Way`, where the keys are near one another.
    Near,
    /// The same with hints that its earlier listings have left.
    Hinted,
    /// The same, once, with hints that were left before all keys were put anew.
    Stale,
    /// Three passes list as for `Way`, and pass 0 puts.
    Beside,
}

/// What is to be done: so many times with so many keys.
#[derive(Clone, Copy, Drop)]
pub(crate) struct Run {
    pub(crate) kind: Kind,
    pub(crate) keys: u32,
    pub(crate) turns: u32,
}

/// The size of a pass that lists.
const READER: PassSize = PassSize {
    nodes: 1,
    entries: 4,
    calls: 1,
};

/// The size of each pass. Pass 0 has the slots of all keys, and some more.
fn sizes_of(alloc: Global, run: &Run) -> Result<Vec<PassSize>, NoMemory> {
    let mut sizes = Vec::new(alloc);
    sizes.push(PassSize {
        nodes: run.keys.saturating_add(64),
        entries: 1_000_000,
        calls: 16_000_000,
    })?;
    if let Kind::Beside = run.kind {
        for _ in 0..3 {
            sizes.push(READER)?;
        }
    }
    Ok(sizes)
}

fn opened(alloc: Global, run: &Run) -> Result<(SharedTable, Vec<PassKey>), NoMemory>
    ensures of { IfOk result (λ t. All (IsPassOf t.0) t.1.items) }
{
    let sizes = sizes_of(alloc, run)?;
    match Layout::new(sizes.as_slice()) {
        Some(layout) => SharedTable::open(alloc, &layout, sizes.as_slice()),
        None => Err(NoMemory),
    }
}

/// Whether the keys are near one another, as hints need it.
fn has_near_keys(kind: Kind) -> bool {
    match kind {
        Kind::Near | Kind::Hinted | Kind::Stale => true,
        Kind::Way | Kind::Root | Kind::Beside => false,
    }
}

/// Puts all keys, if the key is that of pass 0.
fn fill<R: Wait>(rt: &R, table: &SharedTable, key: PassKey, run: &Run) -> PassKey
    requires of { IsPassOf table.now key }
    ensures of { IsPassOf table.now result }
{
    let mut pass = table.attach(key);
    if pass.client() == 0 {
        put_keys(&mut pass, rt, run.keys, has_near_keys(run.kind));
    }
    pass.detach()
}

/// Does the task of a pass.
fn work<R: Wait + Clock>(
    rt: &R,
    alloc: Global,
    table: &SharedTable,
    key: PassKey,
    run: &Run,
) -> Made
    requires of { IsPassOf table.now key }
{
    let mut pass = table.attach(key);
    let task = match run.kind {
        Kind::Beside if pass.client() == 0 => Task::Put,
        Kind::Root => Task::ListFrom,
        Kind::Way | Kind::Near | Kind::Beside => Task::ListOn,
        Kind::Hinted => Task::ListHinted,
        Kind::Stale => Task::ListStale,
    };
    time(&mut pass, rt, alloc, task, run.keys, run.turns)
}

/// Puts all keys, by the pass of the key that is pass 0's.
fn fill_by<R: Threads + Wait + Sync>(
    rt: &R,
    table: &SharedTable,
    keys: Vec<PassKey>,
    run: &Run,
) -> Result<Vec<PassKey>, AllocError>
    requires of { All (IsPassOf table.now) keys.items }
    ensures of { IfOk result (λ back. All (IsPassOf table.now) back.items) }
{
    let fill = |key: PassKey| -> PassKey
        requires { IsPassOf table.now key }
        ensures { IsPassOf table.entry.now result }
    { fill(rt, table, key, run) };
    map_vec(rt, keys, &fill)
}

/// Does the tasks of all passes at once.
fn work_all<R: Threads + Wait + Clock + Sync>(
    rt: &R,
    alloc: Global,
    table: &SharedTable,
    keys: Vec<PassKey>,
    run: &Run,
) -> Result<Vec<Made>, AllocError>
    requires of { All (IsPassOf table.now) keys.items }
{
    let work = |key: PassKey| -> Made
        requires { IsPassOf table.now key }
    { work(rt, alloc, table, key, run) };
    map_vec(rt, keys, &work)
}

/// Makes a run. Returns what each pass has made.
pub(crate) fn make_run<R: Threads + Wait + Clock + Sync>(
    rt: &R,
    alloc: Global,
    run: &Run,
) -> Result<Vec<Made>, NoMemory> {
    let (table, keys) = opened(alloc, run)?;
    let filled = fill_by(rt, &table, keys, run)?;
    Ok(work_all(rt, alloc, &table, filled, run)?)
}
