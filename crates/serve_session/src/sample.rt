// The run of the generated session.
ghost use Rattle.std.specs.Prelude.{◌≡◌, ◌<◌, ◌≤◌, ◌⊎◌, ◌∷◌, [], IfOk, OnOk, IsErrOf};
ghost use Rattle.outside_io.specs.Streams.{one_more, IsTaken, TakesStart};
ghost use Rattle.request_lines.specs.SampleSession.{most_sample_requests};
ghost use Rattle.request_lines.specs.SampleSession as spec;
ghost use Rattle.sample_laws.specs.Sample.{sample_summary};
ghost use Rattle.serve_session.specs.declared.status.Status.TheVariants.{Done as IsDone};
ghost use Rattle.index_words.specs.Sizes.{FitTable};
ghost use Rattle.shared_index.specs.Keys.{AreAllKeys, AreFresh};
ghost use Rattle.serve_session.specs.Sampled.{HoldsOfSampleRun, IsSampleSession, sample_sizes};
ghost use Rattle.serve_session.specs.Served.{HoldsOfSample, IsRunOf, summary_text};

use crate::Status;
use crate::summary::summary_line;
use bucket_terms::Summary;
use client_run::Gate;
use client_threads::{NodeSlots, Runner, Served, history_over, open_sized, summary_of};
use key_map::PassSize;
use key_names::NoMemory;
use outside_io::{Sink, write_all};
use request_lines::{Session, sample_session};
use run_text::Stop;
use shared_index::{PassKey, SharedIndex};
use std::alloc::Global;
use std::sync::Wait;
use std::thread::{Threads, join_mut};

/// Runs the generated session with `n` requests of each client, and writes the line of its summary.
pub(crate) fn serve_sample<K: Sink, G: Gate + Sync, R: Runner<G>, Rt: Threads + Wait + Sync>(
    rt: &Rt,
    alloc: Global,
    n: u32,
    sink: &mut K,
    gate: &G,
    runner: &mut R,
) -> Status
    requires some { 0 < n }
    requires most { n ≤ most_sample_requests }
    ensures done { result ≡ IsDone → IsTaken (K.taken sink.old) (K.taken sink.new) (summary_text (sample_summary n)) }
    ensures runner { result ≡ IsDone → HoldsOfSample n (IsRunOf (R.runs runner.old) (R.runs runner.new) (R.replied runner.new)) }
    ensures write_fault { result ≡ Status.WriteFault → TakesStart (K.taken sink.old) (K.taken sink.new) (summary_text (sample_summary n)) }
    ensures write_fault_only_where_faulted { result ≡ Status.WriteFault → K.faults sink.new ≡ one_more (K.faults sink.old) }
    ensures no_other_write_fault { ¬ (result ≡ Status.WriteFault) → K.faults sink.new ≡ K.faults sink.old }
    ensures no_memory { result ≡ Status.NoMemory → sink.new ≡ sink.old }
    ensures ends { (result ≡ IsDone) ⊎ ((result ≡ Status.WriteFault) ⊎ (result ≡ Status.NoMemory)) }
{
    match run_sample(rt, alloc, n, sink, gate, runner) {
        Ok(()) => Status::Done,
        Err(Stop::Fault) => Status::WriteFault,
        Err(Stop::NoMemory) => Status::NoMemory,
    }
}

// The same, and why it ended early.
#[tactic(auto, using(crate::proofs::Sampled::sampled))]
fn run_sample<K: Sink, G: Gate + Sync, R: Runner<G>, Rt: Threads + Wait + Sync>(
    rt: &Rt,
    alloc: Global,
    n: u32,
    sink: &mut K,
    gate: &G,
    runner: &mut R,
) -> Result<(), Stop>
    requires some { 0 < n }
    requires most { n ≤ most_sample_requests }
    ensures wrote { OnOk result (IsTaken (K.taken sink.old) (K.taken sink.new) (summary_text (sample_summary n))) }
    ensures ran { OnOk result (HoldsOfSample n (IsRunOf (R.runs runner.old) (R.runs runner.new) (R.replied runner.new))) }
    ensures start { IsErrOf result Stop.Fault → TakesStart (K.taken sink.old) (K.taken sink.new) (summary_text (sample_summary n)) }
    ensures no_memory { IsErrOf result Stop.NoMemory → sink.new ≡ sink.old }
    ensures fault { IsErrOf result Stop.Fault → K.faults sink.new ≡ one_more (K.faults sink.old) }
    ensures quiet { ¬ (IsErrOf result Stop.Fault) → K.faults sink.new ≡ K.faults sink.old }
{
    let made = made_beside(rt, alloc, n)?;
    let summary = run_summed(rt, alloc, n, made, gate, runner)?;
    let line = summary_line(alloc, &summary)?;
    write_all(sink, line.bytes())?;
    Ok(())
}

// The generated session, and the index for its clients.
#[derive(Drop)]
struct Made {
    session: Session,
    index: SharedIndex,
    keys: Vec<PassKey>,
}

// The session and its index, which are made concurrently, if a thread can be started.
fn made_beside<Rt: Threads + Sync>(rt: &Rt, alloc: Global, n: u32) -> Result<Made, NoMemory>
    requires some { 0 < n }
    requires most { n ≤ most_sample_requests }
    ensures session { IfOk result (λ made. IsSampleSession n made.session) }
    ensures all { IfOk result (λ made. AreAllKeys made.index made.keys.items) }
    ensures fresh { IfOk result (λ made. AreFresh 0 (sample_sizes n) made.keys.items) }
{
    let sizes = [size_of_pass(n); 4];
    let mut open = || -> Result<(SharedIndex, Vec<PassKey>), NoMemory>
        requires { FitTable sizes }
        ensures { IfOk result (λ opened. AreAllKeys opened.0 opened.1.items × AreFresh 0 sizes opened.1.items) }
    { open_sized(alloc, &sizes) };
    let mut make = || -> Result<Session, NoMemory>
        requires { (0 < n) × (n ≤ most_sample_requests) }
        ensures { IfOk result (IsSampleSession n) }
    { sample_session(alloc, n) };
    let (opened, session) = join_mut(rt, &mut open, &mut make);
    let (index, keys) = opened?;
    let session = session?;
    Ok(Made {
        session,
        index,
        keys,
    })
}

// The size of the pass of each client: a call for each PUT and DELETE, one node slot more, and four entry slots for
// each node slot.
fn size_of_pass(n: u32) -> PassSize
    requires most { n ≤ most_sample_requests }
    ensures sizes { result ∷ result ∷ result ∷ result ∷ [] ≡ sample_sizes n }
    ensures fit { FitTable (sample_sizes n) }
{
    let mut updates: u32 = 0;
    for i in 0..n {
        if i % 4 != 3 {
            updates += 1;
        }
    }
    PassSize {
        nodes: updates + 1,
        entries: 4 * (updates + 1),
        calls: updates,
    }
}

// Runs the generated session: the summary of its run.
fn run_summed<G: Gate + Sync, R: Runner<G>, Rt: Threads + Wait + Sync>(
    rt: &Rt,
    alloc: Global,
    n: u32,
    made: Made,
    gate: &G,
    runner: &mut R,
) -> Result<Summary, NoMemory>
    requires some { 0 < n }
    requires most { n ≤ most_sample_requests }
    requires session { IsSampleSession n made.session }
    requires all { AreAllKeys made.index made.keys.items }
    requires fresh { AreFresh 0 (sample_sizes n) made.keys.items }
    ensures summary { IfOk result (λ summary. summary ≡ sample_summary n) }
    ensures ran { OnOk result (HoldsOfSampleRun n (IsRunOf (R.runs runner.old) (R.runs runner.new) (R.replied runner.new))) }
{
    let Made {
        mut session,
        index,
        keys,
    } = made;
    let dir = session.take_directory();
    let served = Served {
        session: &session,
        dir: &dir,
        slots: NodeSlots::AsAsked,
        gate,
    };
    let updates = history_over(rt, alloc, index, keys, &served, runner)?;
    // The summary is the same in every schedule.
    sample_laws::sample_session();
    summary_of::<G, R>(alloc, session.clients.len() as u32, runner, &updates)
}
