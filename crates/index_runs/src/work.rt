// What one pass does, and what it was answered.
ghost use Rattle.std.specs.Prelude.{◌≡◌, IsSome};
ghost use Rattle.shared_index.specs.Shown.{shown};
ghost use Rattle.shared_index.specs.Keys.{home_of_pass};
ghost use Rattle.index_runs.specs.Runs.{GoesOn, IsClosed};

use crate::gate::Gates;
use crate::plan::{Asked, Run, Task};
use crate::random::Random;
use crate::tries::Met;
use bucket_terms::KeyPass;
use index_words::Pair;
use key_map::{Done, New, PassError};
use shared_index::{IndexPass, Settling};
use std::alloc::{AllocError, Global};
use std::sync::Wait;

/// A request of a pass, with its answer.
#[derive(Drop)]
pub(crate) enum Event {
    /// An update was answered. A put of a new key is not made if the key was there, nor a removal if it was not.
    Answered {
        line: u32,
        asked: Asked,
        done: Done,
    },
    /// There was no slot for an update, or no call was left. Of the visits of readers so many had ended before it, and
    /// so many had begun until it was refused: if the two numbers are equal, nobody read at any time of the call.
    Refused {
        line: u32,
        gone: u64,
        come: u64,
    },
    /// The first pairs of the map at a place, from a key on, so many at most.
    Listed {
        at: u64,
        from: u64,
        page: usize,
        pairs: Vec<Pair>,
    },
    /// A try to settle what updates have taken out.
    Tried(Settling),
    /// What the tries that were not made have met.
    Met(Met),
    /// So many removals had returned while readers were held.
    Back(u64),
    /// The free slots of the pass.
    Free {
        nodes: Vec<u32>,
        entries: Vec<u32>,
    },
}

impl Event {
    /// The answer to an update before which so many visits had ended.
    pub(crate) fn of(
        line: u32,
        asked: Asked,
        answer: Result<Done, PassError>,
        gone: u64,
        gates: &Gates,
    ) -> Event {
        match answer {
            Ok(done) => Event::Answered { line, asked, done },
            Err(_) => Event::Refused {
                line,
                gone,
                come: gates.come.raised(),
            },
        }
    }

    /// A listing of the whole map.
    pub(crate) fn of_all(at: u64, page: usize, pairs: Vec<Pair>) -> Event {
        Event::Listed {
            at,
            from: 0,
            page,
            pairs,
        }
    }
}

/// The place of a put of a new key, and whether the key was there.
pub(crate) fn done_of(new: New) -> Done {
    match new {
        New::Made { at } => Done { at, was: false },
        New::Kept { at } => Done { at, was: true },
    }
}

/// Makes all requests of a run. Returns their answers, as far as these are kept.
pub(crate) fn work<R: Wait>(
    rt: &R,
    alloc: Global,
    pass: &mut IndexPass<'_>,
    run: &Run,
    gates: &Gates,
) -> Result<Vec<Event>, AllocError>
    requires { IsClosed pass.old }
    ensures { GoesOn pass.old pass.new }
{
    let mut events = Vec::new(alloc);
    let mut random = run.random(pass.client());
    for line in 1..=run.requests {
        let event = request(rt, alloc, pass, run, gates, &mut random, line)?;
        if !matches!(run.task, Task::Timed) {
            events.push(event)?;
        }
    }
    Ok(events)
}

/// A random request.
fn request<R: Wait>(
    rt: &R,
    alloc: Global,
    pass: &mut IndexPass<'_>,
    run: &Run,
    gates: &Gates,
    random: &mut Random,
    line: u32,
) -> Result<Event, AllocError>
    requires { IsClosed pass.old }
    ensures { GoesOn pass.old pass.new }
{
    let kind = random.below(100);
    let (updates, listings) = (run.updates_of_hundred(), u64::from(run.listings));
    if kind < updates {
        let asked = run.asked(pass.client(), line, random);
        return Ok(update(rt, pass, asked, line, gates));
    }
    let page = if kind - updates < listings {
        run.page
    } else {
        1
    };
    let from = random.below(u64::from(run.keys));
    listing(rt, alloc, pass, from, page as usize)
}

/// Makes an update.
pub(crate) fn update<R: Wait>(
    rt: &R,
    pass: &mut IndexPass<'_>,
    asked: Asked,
    line: u32,
    gates: &Gates,
) -> Event
    requires { IsClosed pass.old }
    ensures { GoesOn pass.old pass.new }
{
    let gone = gates.gone.raised();
    let answer = answer(rt, pass, asked, line);
    Event::of(line, asked, answer, gone, gates)
}

fn answer<R: Wait>(
    rt: &R,
    pass: &mut IndexPass<'_>,
    asked: Asked,
    line: u32,
) -> Result<Done, PassError>
    requires { IsClosed pass.old }
    ensures { GoesOn pass.old pass.new }
{
    pass.gather(rt);
    match asked {
        Asked::Put { key, val } => pass.put(rt, line, key, val),
        Asked::PutNew { key, val } => match pass.put_new(rt, line, key, val) {
            Ok(new) => Ok(done_of(new)),
            Err(error) => Err(error),
        },
        Asked::Remove { key } => pass.remove(rt, line, key),
    }
}

fn listing<R: Wait>(
    rt: &R,
    alloc: Global,
    pass: &mut IndexPass<'_>,
    from: u64,
    page: usize,
) -> Result<Event, AllocError>
    requires { IsClosed pass.old }
    ensures { GoesOn pass.old pass.new }
{
    let mut pairs = Vec::with_capacity(alloc, page)?;
    let at = pass.begin();
    read(rt, pass, from, page, &mut pairs);
    pass.end();
    Ok(Event::Listed {
        at,
        from,
        page,
        pairs,
    })
}

/// The first pair from a key on, in a snapshot of its own.
pub(crate) fn first_from<R: Wait>(rt: &R, pass: &mut IndexPass<'_>, key: u64) -> Option<Pair>
    requires { IsClosed pass.old }
    ensures { GoesOn pass.old pass.new }
{
    pass.begin();
    let found = pass.next_from(rt, key);
    pass.end();
    found
}

// Reads so many pairs of the open snapshot, or all if there are fewer.
pub(crate) fn read<R: Wait>(
    rt: &R,
    pass: &mut IndexPass<'_>,
    from: u64,
    page: usize,
    pairs: &mut Vec<Pair>,
)
    requires open_at { IsSome (shown pass.old).opened }
    ensures same { shown pass.new ≡ shown pass.old }
    ensures home { home_of_pass pass.new ≡ home_of_pass pass.old }
{
    let mut next = Some(from);
    'pairs: for _ in 0..page {
        let Some(key) = next else {
            return;
        };
        let Some(pair) = pass.next_from(rt, key) else {
            return;
        };
        next = pair.key.checked_add(1);
        if pairs.push(pair).is_err() {
            return;
        }
    }
}
