// A run over an index that was used before, and that another pass uses too.
ghost use Rattle.std.specs.Prelude.{◌≡◌, ◌∷◌, [], None, IfOk, IfSome};
ghost use Rattle.bucket_terms.specs.PlainPass.{fresh};
ghost use Rattle.shared_index.specs.Keys.{AreFresh, IsKeyOf};
ghost use Rattle.shared_index.specs.Shown.{shown};
ghost use Rattle.client_threads.specs.Sizes.{CanServe};

use crate::sessions::{one_client, session_of};
use bucket_terms::{KeyPass, Reply};
use client_run::OpenGate;
use client_threads::{RunInput, Runner, Threaded};
use key_map::PassSize;
use shared_index::{PassKey, SharedIndex};
use std::alloc::Global;
use std::sync::Wait;
use std::test::Fail;
use std::thread::Threads;

// The items of a list of two.
fn both<T: Drop>(items: Vec<T>) -> Option<(T, T)>
    ensures { IfSome result (λ two. items.items ≡ two.0 ∷ two.1 ∷ []) }
{
    let mut items = items;
    let second = items.pop()?;
    let first = items.pop()?;
    if !items.is_empty() {
        return None;
    }
    Some((first, second))
}

// An index of two passes of this size, and their keys.
fn two_passes(alloc: Global, size: PassSize) -> Result<(SharedIndex, PassKey, PassKey), Fail>
    ensures first { IfOk result (λ two. IsKeyOf two.0 two.1 × (shown two.1 ≡ fresh 0 size)) }
    ensures second { IfOk result (λ two. IsKeyOf two.0 two.2 × (shown two.2 ≡ fresh 1 size)) }
{
    let Ok((index, keys)) = SharedIndex::open(alloc, &[size, size]) else {
        return Err("no index")?;
    };
    let Some((first, second)) = both(keys) else {
        return Err("no two keys")?;
    };
    Ok((index, first, second))
}

// The place and the value of the one reply of the session's one client, which is run over the pass of this key.
fn found_over<Rt: Threads + Wait + Sync, R: Runner<OpenGate>>(
    rt: &Rt,
    alloc: Global,
    runner: &mut R,
    input: &RunInput<'_, OpenGate>,
    key: PassKey,
    size: PassSize,
) -> Result<(Option<u64>, u64), Fail>
    requires can { CanServe input.now.dir.now input.now.session.now }
    requires of { IsKeyOf input.now.index.now key }
    requires fresh { shown key ≡ fresh 0 size }
{
    let [part] = input.session.clients.as_slice() else {
        return Err("not one client")?;
    };
    if part.writes() > size.calls {
        return Err("too many updates")?;
    }
    let mut keys = Vec::new(alloc);
    keys.push(key)?;
    runner.run_all(rt, alloc, keys, input)?;
    let [placed] = runner.replies(0) else {
        return Err("not one reply")?;
    };
    let Reply::Found { val } = placed.reply else {
        return Err("no value")?;
    };
    Ok((placed.at, val))
}

// The same, if another pass of the index has put a value before and stays.
fn found_beside<P: KeyPass, Rt: Threads + Wait + Sync, R: Runner<OpenGate>>(
    rt: &Rt,
    alloc: Global,
    runner: &mut R,
    other: &mut P,
    index: &SharedIndex,
    key: PassKey,
    size: PassSize,
) -> Result<(Option<u64>, u64), Fail>
    requires closed { (P.view other.old).opened ≡ None }
    requires of { IsKeyOf index.now key }
    requires fresh { shown key ≡ fresh 0 size }
{
    if other.put(rt, 1, 0, 7).is_err() {
        return Err("no put")?;
    }
    let (session, dir) = session_of(alloc, one_client().as_bytes())?;
    let input = RunInput {
        index,
        session: &session,
        dir: &dir,
        gate: &OpenGate,
    };
    found_over(rt, alloc, runner, &input, key, size)
}

// The same, with the keys of both passes and the runner of the program.
fn found_by_threads<Rt: Threads + Wait + Sync>(
    rt: &Rt,
    alloc: Global,
    index: &SharedIndex,
    key: PassKey,
    other: PassKey,
    size: PassSize,
) -> Result<(Option<u64>, u64), Fail>
    requires of { IsKeyOf index.now key }
    requires other { IsKeyOf index.now other }
    requires fresh { shown key ≡ fresh 0 size }
{
    let mut pass = index.attach(other);
    let mut runner = Threaded::new();
    found_beside(rt, alloc, &mut runner, &mut pass, index, key, size)
}

// The same, in an index of two passes.
fn found_in_an_index<Rt: Threads + Wait + Sync>(
    rt: &Rt,
    alloc: Global,
) -> Result<(Option<u64>, u64), Fail> {
    let size = PassSize {
        nodes: 4,
        entries: 16,
        calls: 8,
    };
    let (index, key, other) = two_passes(alloc, size)?;
    found_by_threads(rt, alloc, &index, key, other, size)
}

// Pass 1 puts a value, and the runner has only the key of pass 0. A runner that answers from a replay of its own
// session's updates finds nothing: no change of one line makes such a runner, so this test stands for the wrong body.
#[test]
fn an_index_that_others_use(rt: HostRuntime) -> Result<(), Fail> {
    let found = found_in_an_index(&rt, rt.alloc())?;
    assert_eq!(rt; found, (Some(1), 7));
    Ok(())
}
