// A run: passes at work at once, each on a thread of its own, over one index, to the index's end.
ghost use Rattle.std.specs.Prelude.{◌≡◌, map, IfOk};
ghost use Rattle.shared_index.specs.Keys.{AreAllKeys, IsKeyOf};
ghost use Rattle.table_steps.specs.Passes.{IsPassOf};
ghost use Rattle.index_runs.specs.Runs.{GoesOn, IsClosed, IsLaidDown, LaidDown, key_of};
ghost use Rattle.index_runs.specs.Sections.{IsBack};

use crate::deep::plant_or_remove;
use crate::far::remove_or_look_on;
use crate::free::tell_free;
use crate::gate::Gates;
use crate::held::work_or_be_held;
use crate::plan::{Run, Task};
use crate::tries::try_puts;
use crate::visits::work_or_visit;
use crate::work::{Event, work};
use index_words::Update;
use link_check::{Unlike, compare_links};
use shared_index::{IndexPass, OpenError, PassKey, SharedIndex};
use std::alloc::{AllocError, Global};
use std::sync::Wait;
use std::thread::{Threads, map_vec};
use table_steps::SharedTable;

/// What a run found: what each pass was answered, how many plain links were those of the tree at the end, and the
/// history.
#[derive(Drop)]
pub(crate) struct Ran {
    pub(crate) events: Vec<Vec<Event>>,
    pub(crate) links: Result<u64, Unlike>,
    pub(crate) history: Vec<Update>,
}

/// Why a run did not reach its end.
#[derive(Clone, Copy, Debug)]
pub(crate) enum Stopped {
    /// No index takes these sizes.
    BadSizes,
    NoMemory,
}

impl From<AllocError> for Stopped {
    fn from(_: AllocError) -> Stopped {
        Stopped::NoMemory
    }
}

/// What a pass leaves: its key, and what it was answered.
#[derive(Drop)]
pub(crate) struct Worked {
    pub(crate) key: PassKey,
    pub(crate) events: Result<Vec<Event>, AllocError>,
}

/// Opens an index, with its keys.
fn opened(alloc: Global, run: &Run) -> Result<(SharedIndex, Vec<PassKey>), Stopped>
    ensures all { IfOk result (λ o. AreAllKeys o.0 o.1.items) }
{
    let sizes = run.sizes(alloc)?;
    match SharedIndex::open(alloc, sizes.as_slice()) {
        Ok(opened) => Ok(opened),
        Err(OpenError::BadSizes) => Err(Stopped::BadSizes),
        Err(OpenError::NoMemory) => Err(Stopped::NoMemory),
    }
}

/// What a pass does in a run of this task.
fn do_task<R: Wait>(
    rt: &R,
    alloc: Global,
    pass: &mut IndexPass<'_>,
    run: &Run,
    gates: &Gates,
) -> Result<Vec<Event>, AllocError>
    requires { IsClosed pass.old }
    ensures { GoesOn pass.old pass.new }
{
    match run.task {
        Task::Held | Task::HeldPuts => work_or_be_held(rt, alloc, pass, run, gates),
        Task::Visits | Task::Few => work_or_visit(rt, alloc, pass, run, gates),
        Task::Tries => try_puts(alloc, pass, run),
        Task::Far => remove_or_look_on(rt, alloc, pass, run, gates),
        Task::Deep => plant_or_remove(rt, alloc, pass, run, gates),
        _ => work(rt, alloc, pass, run, gates),
    }
}

/// Takes up the pass of a key, and does what it is to do.
fn work_on<R: Wait>(
    rt: &R,
    alloc: Global,
    index: &SharedIndex,
    key: PassKey,
    run: &Run,
    gates: &Gates,
) -> Worked
    requires of { IsKeyOf index.now key }
    ensures laid { IsLaidDown index.now key result.key }
{
    let mut pass = index.attach(key);
    let events = do_task(rt, alloc, &mut pass, run, gates);
    let key = pass.detach();
    let worked = Worked { key, events };
    match run.task {
        Task::Few => tell_free(alloc, index.table(), worked),
        _ => worked,
    }
}

/// Takes up the pass of each key, each on a thread of its own.
fn work_on_each<R: Threads + Wait + Sync>(
    rt: &R,
    alloc: Global,
    index: &SharedIndex,
    keys: Vec<PassKey>,
    run: &Run,
) -> Result<Vec<Worked>, AllocError>
    requires all { AreAllKeys index.now keys.items }
    ensures laid { IfOk result (λ left. LaidDown index.now keys.items left.items) }
{
    let gates = Gates::new();
    let work = |key: PassKey| -> Worked
        requires { IsKeyOf index.now key }
        ensures { IsLaidDown index.entry.now key result.key }
    { work_on(rt, alloc, index, key, run, &gates) };
    map_vec(rt, keys, &work)
}

/// What the passes leave, kept apart: their keys in one list, what they were answered in another.
fn take_apart(
    alloc: Global,
    mut left: Vec<Worked>,
) -> Result<(Vec<PassKey>, Vec<Vec<Event>>), AllocError>
    ensures keys { IfOk result (λ p. p.0.items ≡ map key_of left.items) }
{
    let Some(last) = left.pop() else {
        return Ok((Vec::new(alloc), Vec::new(alloc)));
    };
    let (mut keys, mut events) = take_apart(alloc, left)?;
    let Worked {
        key,
        events: answered,
    } = last;
    keys.push(key)?;
    events.push(answered?)?;
    Ok((keys, events))
}

/// All passes make their requests at once.
fn work_all<R: Threads + Wait + Sync>(
    rt: &R,
    alloc: Global,
    index: &SharedIndex,
    keys: Vec<PassKey>,
    run: &Run,
) -> Result<(Vec<PassKey>, Vec<Vec<Event>>), AllocError>
    requires all { AreAllKeys index.now keys.items }
    ensures all { IfOk result (λ p. AreAllKeys index.now p.0.items) }
{
    let left = work_on_each(rt, alloc, index, keys, run)?;
    let (back, events) = take_apart(alloc, left)?;
    Ok((back, events))
}

/// Takes up a pass over the table, and compares the plain links with the tree.
fn compare_by(alloc: Global, table: &SharedTable, key: PassKey) -> (PassKey, Result<u64, Unlike>)
    requires of { IsPassOf table.now key }
    ensures back { IsBack table.now key result.0 }
{
    let mut pass = table.attach(key);
    let links = compare_links(alloc, &mut pass);
    (pass.detach(), links)
}

/// Compares the plain links with the tree when all passes are laid down, by the pass of the last key.
fn compared(
    alloc: Global,
    index: &SharedIndex,
    mut keys: Vec<PassKey>,
) -> Result<(Vec<PassKey>, Result<u64, Unlike>), AllocError>
    requires all { AreAllKeys index.now keys.items }
    ensures all { IfOk result (λ c. AreAllKeys index.now c.0.items) }
{
    let Some(last) = keys.pop() else {
        return Ok((keys, Ok(0)));
    };
    let (key, links) = compare_by(alloc, index.table(), last);
    keys.push(key)?;
    Ok((keys, links))
}

/// Makes a run, and takes its index to the end.
pub(crate) fn make_run<R: Threads + Wait + Sync>(
    rt: &R,
    alloc: Global,
    run: &Run,
) -> Result<Ran, Stopped> {
    let (index, keys) = opened(alloc, run)?;
    let (keys, events) = work_all(rt, alloc, &index, keys, run)?;
    let (keys, links) = compared(alloc, &index, keys)?;
    match index.finish(alloc, keys) {
        Ok(history) => Ok(Ran {
            events,
            links,
            history,
        }),
        Err(_) => Err(Stopped::NoMemory),
    }
}
