// The run of a session: its clients over one shared index, by a runner.
ghost use Rattle.std.specs.Prelude.{◌≡◌, ◌⊎◌, OnOk, IsErrOf};
ghost use Rattle.outside_io.specs.Streams.{one_more};
ghost use Rattle.request_lines.specs.SessionLaws.{HasNames, HasRequests, HasLines, IsSmall};
ghost use Rattle.serve_session.specs.Served.{HoldsOfRun};
ghost use Rattle.serve_session.specs.Taken.{HoldsOfSession, TookBy, TookStart};
ghost use Rattle.client_threads.specs.ClientSlots.{IsNamable};
ghost use Rattle.client_threads.specs.Pools.{named};
ghost use Rattle.client_threads.specs.Sizes.{CanServe};

use crate::writing::{write_last, write_run};
use client_run::Gate;
use client_threads::{NodeSlots, Runner, Served, history_of};
use outside_io::Sink;
use request_lines::Session;
use run_text::Stop;
use std::alloc::Global;
use std::sync::Wait;
use std::thread::Threads;

/// Runs the session and writes its text.
pub(crate) fn run_session<K: Sink, G: Gate + Sync, R: Runner<G>, Rt: Threads + Wait + Sync>(
    rt: &Rt,
    alloc: Global,
    slots: NodeSlots,
    mut session: Session,
    sink: &mut K,
    gate: &G,
    runner: &mut R,
) -> Result<(), Stop>
    requires slots { IsNamable (named slots) }
    requires names { HasNames session }
    requires requests { HasRequests session }
    requires lines { HasLines session }
    requires small { IsSmall session }
    ensures wrote { OnOk result (HoldsOfSession (named slots) session (TookBy K.taken sink.old sink.new R.runs R.replied runner.old runner.new)) }
    ensures start { IsErrOf result Stop.Fault → HoldsOfSession (named slots) session (TookStart K.taken sink.old sink.new) }
    ensures no_memory { IsErrOf result Stop.NoMemory → (sink.new ≡ sink.old) ⊎ HoldsOfSession (named slots) session (TookStart K.taken sink.old sink.new) }
    ensures fault { IsErrOf result Stop.Fault → K.faults sink.new ≡ one_more (K.faults sink.old) }
    ensures quiet { ¬ (IsErrOf result Stop.Fault) → K.faults sink.new ≡ K.faults sink.old }
{
    let dir = session.take_directory();
    if session.clients.is_empty() {
        return write_last(alloc, sink, 0);
    }
    let served = Served {
        session: &session,
        dir: &dir,
        slots,
        gate,
    };
    run_clients(rt, alloc, &served, sink, runner)
}

// Runs the clients and writes the text.
fn run_clients<K: Sink, G: Gate + Sync, R: Runner<G>, Rt: Threads + Wait + Sync>(
    rt: &Rt,
    alloc: Global,
    served: &Served<'_, G>,
    sink: &mut K,
    runner: &mut R,
) -> Result<(), Stop>
    requires slots { IsNamable (named served.now.slots) }
    requires can { CanServe served.now.dir.now served.now.session.now }
    ensures wrote { OnOk result (HoldsOfRun (named served.now.slots) served.now.dir.now served.now.session.now (TookBy K.taken sink.old sink.new R.runs R.replied runner.old runner.new)) }
    ensures start { IsErrOf result Stop.Fault → HoldsOfRun (named served.now.slots) served.now.dir.now served.now.session.now (TookStart K.taken sink.old sink.new) }
    ensures no_memory { IsErrOf result Stop.NoMemory → (sink.new ≡ sink.old) ⊎ HoldsOfRun (named served.now.slots) served.now.dir.now served.now.session.now (TookStart K.taken sink.old sink.new) }
    ensures fault { IsErrOf result Stop.Fault → K.faults sink.new ≡ one_more (K.faults sink.old) }
    ensures quiet { ¬ (IsErrOf result Stop.Fault) → K.faults sink.new ≡ K.faults sink.old }
{
    let updates = history_of(rt, alloc, served, runner)?;
    let records = served.session.records.as_slice();
    let clients = served.session.clients.len() as u32;
    write_run::<K, G, R, Rt>(
        rt, alloc, sink, served.dir, records, clients, runner, &updates,
    )
}
