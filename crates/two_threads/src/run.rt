// Two threads at work over one shared index, from its opening to its close.
ghost use Rattle.std.specs.Prelude.{◌≡◌, ◌<◌, ◌↔◌, true, [], ◌∷◌, length, None, Ok, IfOk};
ghost use Rattle.table_steps.specs.Closes.{AreMadeBy, BeginsWithSeen, StandAtOwnPlaces};
ghost use Rattle.shared_index.specs.Keys.{AreAllKeys, AreFresh, IsKeyOf};
ghost use Rattle.two_threads.specs.Runs.{BothTook, HandedOn, IsRun, LaidDown, sizes};

use crate::turn::{Task, Turn, take_turn};
use bucket_terms::{ListQuery, PoolPass};
use key_map::{PassSize, Update};
use key_names::{Directory, NoMemory};
use shared_index::{OpenError, PassKey, SharedIndex};
use std::alloc::Global;
use std::sync::Wait;
use std::thread::{Threads, join};

/// The slots of the two passes, and how many updates each may make. The second pass has one node slot for its two puts:
/// it needs one more, which the first pass hands on.
const SIZES: [PassSize; 2] = [
    PassSize {
        nodes: 3,
        entries: 8,
        calls: 2,
    },
    PassSize {
        nodes: 1,
        entries: 8,
        calls: 2,
    },
];

/// What one thread is to do before the slot is handed on, and after it.
#[derive(Clone, Copy)]
pub(crate) struct Tasks {
    pub(crate) early: Task,
    pub(crate) late: Task,
}

/// What one thread was answered.
#[derive(Drop)]
pub(crate) struct Turns {
    pub(crate) early: Turn,
    pub(crate) late: Turn,
}

/// What a run found: what each thread was answered, whether a slot was handed on, and the one history of both threads.
#[derive(Drop)]
pub(crate) struct Ran {
    pub(crate) first: Turns,
    pub(crate) second: Turns,
    pub(crate) handed: bool,
    pub(crate) history: Vec<Update>,
}

/// What both threads were answered, whether a slot was handed on, and the keys of the two passes.
#[derive(Drop)]
pub(crate) struct Ended {
    pub(crate) first: Turns,
    pub(crate) second: Turns,
    pub(crate) handed: bool,
    pub(crate) keys: (PassKey, PassKey),
}

/// A pass that was laid down after a turn, and what it was answered.
#[derive(Drop)]
pub(crate) struct Left {
    pub(crate) key: PassKey,
    pub(crate) turn: Turn,
}

/// Takes up the pass of a key for a turn.
fn turn_of<Rt: Wait>(
    rt: &Rt,
    alloc: Global,
    index: &SharedIndex,
    key: PassKey,
    dir: &Directory,
    query: &ListQuery,
    task: Task,
) -> Result<Left, NoMemory>
    requires of { IsKeyOf index.now key }
    ensures left { IfOk result (LaidDown index.now dir.now query.now task key) }
{
    let mut pass = index.attach(key);
    match take_turn(rt, alloc, &mut pass, dir, query, task) {
        Ok(turn) => {
            let key = pass.detach();
            Ok(Left { key, turn })
        }
        Err(NoMemory) => {
            drop(pass);
            Err(NoMemory)
        }
    }
}

/// What both results hold, if both are right.
fn both_ok<T: Drop>(
    first: Result<T, NoMemory>,
    second: Result<T, NoMemory>,
) -> Result<(T, T), NoMemory>
    ensures first { IfOk result (λ two. first ≡ Ok two.0) }
    ensures second { IfOk result (λ two. second ≡ Ok two.1) }
{
    Ok((first?, second?))
}

/// Takes a turn of each of two passes at once, each on a thread of its own.
fn both_turns<Rt: Threads + Wait + Sync>(
    rt: &Rt,
    alloc: Global,
    index: &SharedIndex,
    keys: (PassKey, PassKey),
    dir: &Directory,
    query: &ListQuery,
    tasks: (Task, Task),
) -> Result<(Left, Left), NoMemory>
    requires first { IsKeyOf index.now keys.0 }
    requires second { IsKeyOf index.now keys.1 }
    ensures first { IfOk result (λ left. LaidDown index.now dir.now query.now tasks.0 keys.0 left.0) }
    ensures second { IfOk result (λ left. LaidDown index.now dir.now query.now tasks.1 keys.1 left.1) }
{
    let ((first, second), (task, other)) = (keys, tasks);
    let here = move || -> Result<Left, NoMemory>
        requires { IsKeyOf index.now first }
        ensures { IfOk result (LaidDown index.entry.now dir.entry.now query.entry.now task first) }
    { turn_of(rt, alloc, index, first, dir, query, task) };
    let there = move || -> Result<Left, NoMemory>
        requires { IsKeyOf index.now second }
        ensures { IfOk result (LaidDown index.entry.now dir.entry.now query.entry.now other second) }
    { turn_of(rt, alloc, index, second, dir, query, other) };
    let (first, second) = join(rt, here, there);
    both_ok(first, second)
}

/// Hands a free node slot of the first pass on to the second one, if the first has one.
fn hand_on(index: &SharedIndex, first: PassKey, second: PassKey) -> (PassKey, PassKey, bool)
    requires first { IsKeyOf index.now first }
    requires second { IsKeyOf index.now second }
    ensures handed { HandedOn index.now first second result.0 result.1 result.2 }
    ensures if_free { (result.2 ≡ true) ↔ (0 < length first.view.free.nodes) }
{
    let mut giver = index.attach(first);
    let mut taker = index.attach(second);
    let handed = giver.slots().free_nodes > 0;
    if handed {
        taker.adopt(giver.lend());
    }
    (giver.detach(), taker.detach(), handed)
}

/// Opens an index for the two passes.
fn opened(alloc: Global) -> Result<(SharedIndex, Vec<PassKey>), NoMemory>
    ensures all { IfOk result (λ opened. AreAllKeys opened.0 opened.1.items) }
    ensures fresh { IfOk result (λ opened. AreFresh 0 sizes opened.1.items) }
{
    match SharedIndex::open(alloc, &SIZES) {
        Ok(opened) => Ok(opened),
        Err(OpenError::NoMemory) => Err(NoMemory),
        Err(OpenError::BadSizes) => unreachable!(),
    }
}

/// The items of a list of two.
fn both<T: Drop>(mut items: Vec<T>) -> (T, T)
    requires two { length items.items ≡ 2 }
    ensures { items.items ≡ result.0 ∷ result.1 ∷ [] }
{
    let (Some(second), Some(first)) = (items.pop(), items.pop()) else {
        unreachable!()
    };
    (first, second)
}

/// A turn of each of two passes at once, a slot that goes from one to the other, and a turn of each at once again.
fn all_turns<Rt: Threads + Wait + Sync>(
    rt: &Rt,
    alloc: Global,
    index: &SharedIndex,
    keys: (PassKey, PassKey),
    dir: &Directory,
    query: &ListQuery,
    tasks: (Tasks, Tasks),
) -> Result<Ended, NoMemory>
    requires first { IsKeyOf index.now keys.0 }
    requires second { IsKeyOf index.now keys.1 }
    ensures { IfOk result (BothTook index.now dir.now query.now tasks.0 tasks.1 keys.0 keys.1) }
{
    let (first, second) = tasks;
    let tasks = (first.early, second.early);
    let (early, other) = both_turns(rt, alloc, index, keys, dir, query, tasks)?;
    let (giver, taker, handed) = hand_on(index, early.key, other.key);
    let tasks = (first.late, second.late);
    let (late, last) = both_turns(rt, alloc, index, (giver, taker), dir, query, tasks)?;
    let first = Turns {
        early: early.turn,
        late: late.turn,
    };
    let second = Turns {
        early: other.turn,
        late: last.turn,
    };
    Ok(Ended {
        first,
        second,
        handed,
        keys: (late.key, last.key),
    })
}

/// Closes the index, whose keys are these two, to its history.
fn closed(
    alloc: Global,
    index: SharedIndex,
    keys: (PassKey, PassKey),
) -> Result<Vec<Update>, NoMemory>
    requires all { AreAllKeys index (keys.0 ∷ keys.1 ∷ []) }
    ensures seen { IfOk result (λ history. BeginsWithSeen (keys.0 ∷ keys.1 ∷ []) history.items) }
    ensures clients { IfOk result (λ history. AreMadeBy (keys.0 ∷ keys.1 ∷ []) history.items) }
    ensures places { IfOk result (λ history. StandAtOwnPlaces (keys.0 ∷ keys.1 ∷ []) history.items) }
{
    let Ok(keys) = vec![in alloc; keys.0, keys.1] else {
        drop(index);
        return Err(NoMemory);
    };
    match index.finish(alloc, keys) {
        Ok(history) => Ok(history),
        Err(refused) => {
            drop(refused);
            Err(NoMemory)
        }
    }
}

/// Runs the two threads: a turn of each at once, a slot that goes from one to the other, and a turn of each at once
/// again. Then the index is closed to its history.
pub(crate) fn run<Rt: Threads + Wait + Sync>(
    rt: &Rt,
    alloc: Global,
    dir: &Directory,
    query: &ListQuery,
    first: Tasks,
    second: Tasks,
) -> Result<Ran, NoMemory>
    ensures run { IfOk result (IsRun dir.now query.now first second) }
{
    let (index, keys) = opened(alloc)?;
    let tasks = (first, second);
    let ended = match all_turns(rt, alloc, &index, both(keys), dir, query, tasks) {
        Ok(ended) => ended,
        Err(NoMemory) => {
            drop(index);
            return Err(NoMemory);
        }
    };
    let Ended {
        first,
        second,
        handed,
        keys,
    } = ended;
    let history = closed(alloc, index, keys)?;
    Ok(Ran {
        first,
        second,
        handed,
        history,
    })
}
