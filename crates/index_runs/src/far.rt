// Passes that remove keys whose successors are further down, while readers are held inside snapshots. Each removal
// takes effect, and returns once the snapshots are closed.
ghost use Rattle.std.specs.Prelude.{◌≡◌};
ghost use Rattle.index_runs.specs.Runs.{GoesOn, IsClosed};

use crate::gate::{Gates, stay};
use crate::held::be_held;
use crate::plan::{Asked, Run};
use crate::visits::MOST;
use crate::work::{Event, read, update};
use bucket_terms::KeyPass;
use index_words::Pair;
use shared_index::IndexPass;
use std::alloc::{AllocError, Global};
use std::sync::Wait;

/// The keys of the tree in the order in which they are put: it has five full levels.
const KEYS: [u64; 31] = [
    16, 8, 24, 4, 12, 20, 28, 2, 6, 10, 14, 18, 22, 26, 30, 1, 3, 5, 7, 9, 11, 13, 15, 17, 19, 21,
    23, 25, 27, 29, 31,
];

/// The keys that are removed, one by each pass. Each has two children, and its successor is further down: it is the
/// left child of the node after it. So no two removals wait with a lock of the same node, and none waits with a lock
/// that another one needs.
const REMOVED: [u64; 7] = [16, 8, 24, 4, 12, 20, 28];

/// A key that is neither removed nor at such a node.
const ELSEWHERE: u64 = 1;

/// What a pass does in such a run.
pub(crate) fn remove_or_look_on<R: Wait>(
    rt: &R,
    alloc: Global,
    pass: &mut IndexPass<'_>,
    run: &Run,
    gates: &Gates,
) -> Result<Vec<Event>, AllocError>
    requires { IsClosed pass.old }
    ensures { GoesOn pass.old pass.new }
{
    let client = pass.client();
    if client == 0 {
        plant_and_look_on(rt, alloc, pass, run, gates)
    } else if client < run.passes {
        remove_one(rt, alloc, pass, run, gates)
    } else {
        be_held(rt, alloc, pass, KEYS.len(), gates)
    }
}

/// Removes its key, once the readers are held.
fn remove_one<R: Wait>(
    rt: &R,
    alloc: Global,
    pass: &mut IndexPass<'_>,
    run: &Run,
    gates: &Gates,
) -> Result<Vec<Event>, AllocError>
    requires { IsClosed pass.old }
    ensures { GoesOn pass.old pass.new }
{
    let mut events = Vec::with_capacity(alloc, 1)?;
    gates.come.wait_for(u64::from(run.readers));
    let place = pass.client().wrapping_sub(1) as usize;
    if let Some(key) = REMOVED.get(place) {
        let asked = Asked::Remove { key: *key };
        events.push(update(rt, pass, asked, 1, gates))?;
        gates.back.raise();
    }
    Ok(events)
}

/// Puts all keys. Once all removals have taken effect it makes updates elsewhere, and reports how many removals have
/// returned by then; then it lets the readers go.
fn plant_and_look_on<R: Wait>(
    rt: &R,
    alloc: Global,
    pass: &mut IndexPass<'_>,
    run: &Run,
    gates: &Gates,
) -> Result<Vec<Event>, AllocError>
    requires { IsClosed pass.old }
    ensures { GoesOn pass.old pass.new }
{
    let mut events = Vec::new(alloc);
    plant(rt, pass, gates, &mut events)?;
    gates.done.raise();
    gates.come.wait_for(u64::from(run.readers));
    events.push(look_on(rt, alloc, pass, run)?)?;
    put_elsewhere(rt, pass, run, gates, &mut events)?;
    stay(run.turns);
    events.push(Event::Back(gates.back.raised()))?;
    gates.ended.raise();
    Ok(events)
}

/// Puts all keys.
fn plant<R: Wait>(
    rt: &R,
    pass: &mut IndexPass<'_>,
    gates: &Gates,
    events: &mut Vec<Event>,
) -> Result<(), AllocError>
    requires { IsClosed pass.old }
    ensures { GoesOn pass.old pass.new }
{
    let mut line = 0u32;
    'keys: for key in KEYS.iter() {
        line = line.wrapping_add(1);
        let asked = Asked::Put { key: *key, val: 0 };
        events.push(update(rt, pass, asked, line, gates))?;
    }
    Ok(())
}

/// Lists all pairs again and again, until as many keys are gone as there are passes that remove one: the last listing.
fn look_on<R: Wait>(
    rt: &R,
    alloc: Global,
    pass: &mut IndexPass<'_>,
    run: &Run,
) -> Result<Event, AllocError>
    requires { IsClosed pass.old }
    ensures { GoesOn pass.old pass.new }
{
    let removals = run.passes.saturating_sub(1) as usize;
    let left = KEYS.len().saturating_sub(removals);
    let (mut at, mut pairs) = listed(rt, alloc, pass)?;
    'looks: for _ in 0..MOST {
        if pairs.len() <= left {
            break;
        }
        stay(1);
        (at, pairs) = listed(rt, alloc, pass)?;
    }
    Ok(Event::of_all(at, KEYS.len(), pairs))
}

/// All pairs, in a snapshot of its own, with its place.
fn listed<R: Wait>(
    rt: &R,
    alloc: Global,
    pass: &mut IndexPass<'_>,
) -> Result<(u64, Vec<Pair>), AllocError>
    requires { IsClosed pass.old }
    ensures { GoesOn pass.old pass.new }
{
    let mut pairs = Vec::with_capacity(alloc, KEYS.len())?;
    let at = pass.begin();
    read(rt, pass, 0, KEYS.len(), &mut pairs);
    pass.end();
    Ok((at, pairs))
}

/// Makes updates at a node that no removal has locked.
fn put_elsewhere<R: Wait>(
    rt: &R,
    pass: &mut IndexPass<'_>,
    run: &Run,
    gates: &Gates,
    events: &mut Vec<Event>,
) -> Result<(), AllocError>
    requires { IsClosed pass.old }
    ensures { GoesOn pass.old pass.new }
{
    'updates: for step in 0..run.meanwhile {
        let asked = Asked::Put {
            key: ELSEWHERE,
            val: u64::from(step),
        };
        let line = step.wrapping_add(100);
        events.push(update(rt, pass, asked, line, gates))?;
    }
    Ok(())
}
