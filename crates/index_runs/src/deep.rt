// One pass puts many keys in random order, so that the tree is deep, and then all passes remove.
ghost use Rattle.index_runs.specs.Runs.{GoesOn, IsClosed};

use crate::gate::Gates;
use crate::plan::{Asked, Run};
use crate::random::Random;
use crate::work::{Event, first_from, update};
use bucket_terms::KeyPass;
use shared_index::IndexPass;
use std::alloc::{AllocError, Global};
use std::sync::Wait;

/// What a pass does in such a run.
pub(crate) fn plant_or_remove<R: Wait>(
    rt: &R,
    alloc: Global,
    pass: &mut IndexPass<'_>,
    run: &Run,
    gates: &Gates,
) -> Result<Vec<Event>, AllocError>
    requires { IsClosed pass.old }
    ensures { GoesOn pass.old pass.new }
{
    let client = pass.client();
    let mut events = Vec::new(alloc);
    let mut random = run.random(client);
    if client == 0 {
        plant(rt, pass, run, gates, &mut random, &mut events)?;
        gates.done.raise();
    }
    gates.done.wait_for(1);
    remove_many(rt, pass, run, gates, &mut random, &mut events)?;
    Ok(events)
}

/// Puts as many random keys as there are, some of them more than once.
fn plant<R: Wait>(
    rt: &R,
    pass: &mut IndexPass<'_>,
    run: &Run,
    gates: &Gates,
    random: &mut Random,
    events: &mut Vec<Event>,
) -> Result<(), AllocError>
    requires { IsClosed pass.old }
    ensures { GoesOn pass.old pass.new }
{
    'keys: for line in 1..=run.keys {
        let key = random.below(u64::from(run.keys));
        let asked = Asked::Put { key, val: 0 };
        events.push(update(rt, pass, asked, line, gates))?;
    }
    Ok(())
}

/// Removes keys: the first one from a random key on, or that one itself where none is there.
fn remove_many<R: Wait>(
    rt: &R,
    pass: &mut IndexPass<'_>,
    run: &Run,
    gates: &Gates,
    random: &mut Random,
    events: &mut Vec<Event>,
) -> Result<(), AllocError>
    requires { IsClosed pass.old }
    ensures { GoesOn pass.old pass.new }
{
    'keys: for step in 0..run.requests {
        let from = random.below(u64::from(run.keys));
        let key = match first_from(rt, pass, from) {
            Some(pair) => pair.key,
            None => from,
        };
        let line = run.keys.wrapping_add(step).wrapping_add(1);
        events.push(update(rt, pass, Asked::Remove { key }, line, gates))?;
    }
    Ok(())
}
