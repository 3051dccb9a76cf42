// One pass makes updates while all others are held inside snapshots. A removal that had to wait for these would never
// return, so the keys that it removes then are the least ones, which have no child to their left.
ghost use Rattle.index_runs.specs.Runs.{GoesOn, IsClosed};

use crate::gate::Gates;
use crate::plan::{Asked, Run};
use crate::random::Random;
use crate::work::{Event, first_from, read, update, work};
use bucket_terms::KeyPass;
use shared_index::IndexPass;
use std::alloc::{AllocError, Global};
use std::sync::Wait;

/// What a pass does in such a run. The first one makes its requests, and then updates while the others are held.
pub(crate) fn work_or_be_held<R: Wait>(
    rt: &R,
    alloc: Global,
    pass: &mut IndexPass<'_>,
    run: &Run,
    gates: &Gates,
) -> Result<Vec<Event>, AllocError>
    requires { IsClosed pass.old }
    ensures { GoesOn pass.old pass.new }
{
    if pass.client() == 0 {
        work_meanwhile(rt, alloc, pass, run, gates)
    } else {
        be_held(rt, alloc, pass, run.page as usize, gates)
    }
}

/// Opens a snapshot after the first requests, and reads so many pairs of it once the updates are made.
pub(crate) fn be_held<R: Wait>(
    rt: &R,
    alloc: Global,
    pass: &mut IndexPass<'_>,
    page: usize,
    gates: &Gates,
) -> Result<Vec<Event>, AllocError>
    requires { IsClosed pass.old }
    ensures { GoesOn pass.old pass.new }
{
    let mut events = Vec::with_capacity(alloc, 1)?;
    let mut pairs = Vec::with_capacity(alloc, page)?;
    gates.done.wait_for(1);
    let at = pass.begin();
    gates.come.raise();
    gates.ended.wait_for(1);
    read(rt, pass, 0, page, &mut pairs);
    pass.end();
    gates.gone.raise();
    events.push(Event::of_all(at, page, pairs))?;
    Ok(events)
}

/// Makes its requests, and then updates while the others are held, with a try to settle after each of them, and one
/// after the end of the snapshots.
fn work_meanwhile<R: Wait>(
    rt: &R,
    alloc: Global,
    pass: &mut IndexPass<'_>,
    run: &Run,
    gates: &Gates,
) -> Result<Vec<Event>, AllocError>
    requires { IsClosed pass.old }
    ensures { GoesOn pass.old pass.new }
{
    let readers = u64::from(run.readers);
    let mut events = work(rt, alloc, pass, run, gates)?;
    gates.done.raise();
    gates.come.wait_for(readers);
    update_and_settle(rt, pass, run, gates, &mut events)?;
    gates.ended.raise();
    gates.gone.wait_for(readers);
    events.push(Event::Tried(pass.try_settle()))?;
    Ok(events)
}

/// A random update. A key that is removed is the least one of the map, or one below it, which is not there.
fn asked_meanwhile<R: Wait>(
    rt: &R,
    pass: &mut IndexPass<'_>,
    run: &Run,
    line: u32,
    random: &mut Random,
) -> Asked
    requires { IsClosed pass.old }
    ensures { GoesOn pass.old pass.new }
{
    match run.asked(0, line, random) {
        Asked::Remove { key } => match first_from(rt, pass, 0) {
            Some(least) => Asked::Remove {
                key: least.key.min(key),
            },
            None => Asked::Remove { key },
        },
        asked => asked,
    }
}

/// Makes updates, with a try to settle after each of them.
fn update_and_settle<R: Wait>(
    rt: &R,
    pass: &mut IndexPass<'_>,
    run: &Run,
    gates: &Gates,
    events: &mut Vec<Event>,
) -> Result<(), AllocError>
    requires { IsClosed pass.old }
    ensures { GoesOn pass.old pass.new }
{
    let mut random = run.random(0);
    'updates: for step in 0..run.meanwhile {
        let line = run.requests.wrapping_add(step).wrapping_add(1);
        let asked = asked_meanwhile(rt, pass, run, line, &mut random);
        events.push(update(rt, pass, asked, line, gates))?;
        events.push(Event::Tried(pass.try_settle()))?;
    }
    Ok(())
}
