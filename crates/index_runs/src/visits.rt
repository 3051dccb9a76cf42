// Passes that update through the index, and readers that come and go meanwhile.
ghost use Rattle.index_runs.specs.Runs.{GoesOn, IsClosed};

use crate::gate::{Gates, stay};
use crate::plan::{Asked, Run, Task};
use crate::work::{Event, read, update, work};
use bucket_terms::KeyPass;
use shared_index::IndexPass;
use std::alloc::{AllocError, Global};
use std::sync::Wait;

/// A reader makes at most so many visits, and a pass tries at most so often to settle, so that a run that hangs ends,
/// with an output that its script refuses.
pub(crate) const MOST: u32 = 2_000_000;

/// What a pass does in such a run.
pub(crate) fn work_or_visit<R: Wait>(
    rt: &R,
    alloc: Global,
    pass: &mut IndexPass<'_>,
    run: &Run,
    gates: &Gates,
) -> Result<Vec<Event>, AllocError>
    requires { IsClosed pass.old }
    ensures { GoesOn pass.old pass.new }
{
    if pass.client() < run.passes {
        write(rt, alloc, pass, run, gates)
    } else {
        come_and_go(rt, alloc, pass, run, gates)
    }
}

/// Makes all requests, and the last updates once no reader comes any more, one writer after another.
fn write<R: Wait>(
    rt: &R,
    alloc: Global,
    pass: &mut IndexPass<'_>,
    run: &Run,
    gates: &Gates,
) -> Result<Vec<Event>, AllocError>
    requires { IsClosed pass.old }
    ensures { GoesOn pass.old pass.new }
{
    let number = run.readers.wrapping_add(pass.client());
    let mut events = work(rt, alloc, pass, run, gates)?;
    gates.done.raise();
    gates.done.wait_for(u64::from(run.passes));
    gates.ended.wait_for(u64::from(number));
    match run.task {
        Task::Few => empty(rt, pass, run, gates, &mut events)?,
        _ => go_on(rt, pass, run, gates, &mut events)?,
    }
    gates.ended.raise();
    Ok(events)
}

/// Makes one more update.
fn go_on<R: Wait>(
    rt: &R,
    pass: &mut IndexPass<'_>,
    run: &Run,
    gates: &Gates,
    events: &mut Vec<Event>,
) -> Result<(), AllocError>
    requires { IsClosed pass.old }
    ensures { GoesOn pass.old pass.new }
{
    let line = run.requests.saturating_add(1);
    let client = pass.client();
    let asked = run.asked(client, line, &mut run.random(client));
    events.push(update(rt, pass, asked, line, gates))?;
    Ok(())
}

/// Puts each key and removes it: then the map is empty. In the one bundle that is left the last removal has found only
/// the entry of the put before it and those that the put has kept, which it cuts.
fn empty<R: Wait>(
    rt: &R,
    pass: &mut IndexPass<'_>,
    run: &Run,
    gates: &Gates,
    events: &mut Vec<Event>,
) -> Result<(), AllocError>
    requires { IsClosed pass.old }
    ensures { GoesOn pass.old pass.new }
{
    let mut line = run.requests;
    'keys: for key in 0..run.keys {
        let key = u64::from(key);
        line = line.wrapping_add(1);
        events.push(update(rt, pass, Asked::Put { key, val: 0 }, line, gates))?;
        line = line.wrapping_add(1);
        events.push(update(rt, pass, Asked::Remove { key }, line, gates))?;
    }
    Ok(())
}

/// Comes and goes until all writers have made their requests.
fn come_and_go<R: Wait>(
    rt: &R,
    alloc: Global,
    pass: &mut IndexPass<'_>,
    run: &Run,
    gates: &Gates,
) -> Result<Vec<Event>, AllocError>
    requires { IsClosed pass.old }
    ensures { GoesOn pass.old pass.new }
{
    let mut events = Vec::new(alloc);
    'visits: for _ in 0..MOST {
        if gates.done.raised() >= u64::from(run.passes) {
            break;
        }
        events.push(visit(rt, alloc, pass, run, gates)?)?;
        stay(run.turns);
    }
    gates.ended.raise();
    Ok(events)
}

/// A visit of a reader: it lets others run while its snapshot is open, and then reads all of it.
fn visit<R: Wait>(
    rt: &R,
    alloc: Global,
    pass: &mut IndexPass<'_>,
    run: &Run,
    gates: &Gates,
) -> Result<Event, AllocError>
    requires { IsClosed pass.old }
    ensures { GoesOn pass.old pass.new }
{
    let page = run.keys as usize;
    let mut pairs = Vec::with_capacity(alloc, page)?;
    gates.come.raise();
    let at = pass.begin();
    stay(run.turns);
    read(rt, pass, 0, page, &mut pairs);
    pass.end();
    gates.gone.raise();
    Ok(Event::of_all(at, page, pairs))
}
