// The history of a session: its clients over one shared index, which is then closed.
ghost use Rattle.std.specs.Prelude.{◌≡◌, ◌*◌, ◌<◌, ◌≤◌, IfOk, IfSome, OnOk, length};
ghost use Rattle.std.specs.List.{sum_by};
ghost use Rattle.outside_io.specs.Streams.{one_more};
ghost use Rattle.client_threads.specs.Clients.{RanSession};
ghost use Rattle.client_threads.specs.ClientSlots.{IsNamable};
ghost use Rattle.client_threads.specs.Pools.{named, owned};
ghost use Rattle.client_threads.specs.Runs.{CanRunEach, parts_of};
ghost use Rattle.client_threads.specs.Behind.{RanBehindEach};
ghost use Rattle.client_threads.specs.Sizes.{CanServe, sizes_of};
ghost use Rattle.shared_index.specs.Keys.{AreAllKeys, AreFresh};
ghost use Rattle.request_lines.specs.InputParts.{most_clients};

use crate::node_slots::NodeSlots;
use crate::opening::open_index;
use crate::run_input::{RunInput, Served};
use crate::runner::Runner;
use client_run::Gate;
use key_map::Update;
use key_names::NoMemory;
use shared_index::{PassKey, SharedIndex};
use std::alloc::Global;
use std::sync::Wait;
use std::thread::Threads;

/// Runs the clients over an index of their own, and closes it: the whole history of their updates. Each client has
/// the named number of node slots, or one more than it has PUT, PUTNEW and DELETE lines. If they are pooled,
/// clients hand node slots to one another.
pub fn history_of<G: Gate + Sync, R: Runner<G>, Rt: Threads + Wait + Sync>(
    rt: &Rt,
    alloc: Global,
    served: &Served<'_, G>,
    runner: &mut R,
) -> Result<Vec<Update>, NoMemory>
    requires can { CanServe served.now.dir.now served.now.session.now }
    requires slots { IsNamable (named served.now.slots) }
    ensures ran { IfOk result (λ updates. RanSession served.now.dir.now (named served.now.slots) served.now.session.now.clients updates.items (R.replied runner.new)) }
    ensures runs { OnOk result (R.runs runner.new ≡ one_more (R.runs runner.old)) }
{
    let (index, keys) = open_index(
        alloc,
        served.slots.named(),
        served.session.clients.as_slice(),
    )?;
    history_over(rt, alloc, index, keys, served, runner)
}

/// The same over an index that is open: these are all its keys, one for each client in order, with the slots that are
/// named or that its lines ask for.
pub fn history_over<G: Gate + Sync, R: Runner<G>, Rt: Threads + Wait + Sync>(
    rt: &Rt,
    alloc: Global,
    index: SharedIndex,
    keys: Vec<PassKey>,
    served: &Served<'_, G>,
    runner: &mut R,
) -> Result<Vec<Update>, NoMemory>
    requires can { CanServe served.now.dir.now served.now.session.now }
    requires slots { IsNamable (named served.now.slots) }
    requires all { AreAllKeys index keys.items }
    requires fresh { AreFresh 0 (sizes_of (named served.now.slots) served.now.session.now.clients) keys.items }
    ensures ran { IfOk result (λ updates. RanSession served.now.dir.now (named served.now.slots) served.now.session.now.clients updates.items (R.replied runner.new)) }
    ensures runs { OnOk result (R.runs runner.new ≡ one_more (R.runs runner.old)) }
{
    let input = RunInput {
        index: &index,
        session: served.session,
        dir: served.dir,
        gate: served.gate,
    };
    let keys = run_keys(rt, alloc, served.slots, keys, &input, runner)?;
    match index.finish(alloc, keys) {
        Ok(updates) => Ok(updates),
        Err(_) => Err(NoMemory),
    }
}

// Runs the clients over the passes of these keys. A pool has room for all node slots.
fn run_keys<G: Gate + Sync, R: Runner<G>, Rt: Threads + Wait + Sync>(
    rt: &Rt,
    alloc: Global,
    slots: NodeSlots,
    keys: Vec<PassKey>,
    input: &RunInput<'_, G>,
    runner: &mut R,
) -> Result<Vec<PassKey>, NoMemory>
    requires slots { IsNamable (named slots) }
    requires can { CanRunEach input.now.dir.now input.now.index.now (parts_of input.now.session.now.clients) keys.items }
    requires some { 0 < length keys.items }
    requires few { length keys.items ≤ most_clients }
    requires fits { IfSome (named slots) (λ own. sum_by owned keys.items ≤ own * length keys.items) }
    ensures ran { IfOk result (λ back. RanBehindEach (named slots) input.now.dir.now input.now.index.now (parts_of input.now.session.now.clients) keys.items back.items (R.replied runner.new)) }
    ensures runs { OnOk result (R.runs runner.new ≡ one_more (R.runs runner.old)) }
{
    match slots {
        NodeSlots::Pooled(own) => {
            let room = own * keys.len() as u32;
            runner.run_pool(rt, alloc, keys, input, own, room)
        }
        NodeSlots::AsAsked | NodeSlots::Named(_) => runner.run_all(rt, alloc, keys, input),
    }
}
