// The text of a run, in its order: the replies client by client, the journal, the number of updates.
ghost use Rattle.std.specs.Prelude.{◌≡◌, ◌<◌, [], All, length, OnOk, IsErrOf};
ghost use Rattle.key_map.specs.declared.update.Update.{Update};
ghost use Rattle.bucket_terms.specs.declared.reply.Placed.{Placed};
ghost use Rattle.outside_io.specs.Streams.{one_more, IsTaken, TakesStart};
ghost use Rattle.answer_text.specs.Lines.{line_of};
ghost use Rattle.answer_text.specs.Shown.{last_data};
ghost use Rattle.answer_text.specs.InRange.{IsReplyOf};
ghost use Rattle.run_text.specs.declared.stop.Stop.{Stop as Ended};
ghost use Rattle.serve_session.specs.Texts.{text_of_run, AddsClients};

use answer_text::last_line;
use bucket_terms::Record;
use client_run::Gate;
use client_threads::Runner;
use key_map::Update;
use key_names::{Directory, NoMemory};
use outside_io::{Sink, write_all};
use run_text::{Pieces, Stop};
use std::alloc::Global;
use std::thread::Threads;

/// Writes the text of a run: the runner's replies, client by client, the journal and the number of updates.
pub(crate) fn write_run<K: Sink, G: Gate + Sync, R: Runner<G>, Rt: Threads + Sync>(
    rt: &Rt,
    alloc: Global,
    sink: &mut K,
    dir: &Directory,
    records: &[Record],
    clients: u32,
    runner: &R,
    updates: &[Update],
) -> Result<(), Stop>
    requires clients { clients ≡ length (R.replied runner.now) }
    requires replies { All (All (λ (p : Placed). IsReplyOf dir.now records.now p.reply)) (R.replied runner.now) }
    requires keys { All (λ (u : Update). u.key < length dir.now) updates.now }
    ensures taken { OnOk result (IsTaken (K.taken sink.old) (K.taken sink.new) (text_of_run dir.now records.now updates.now (R.replied runner.now))) }
    ensures start { (stop : Ended) → IsErrOf result stop → TakesStart (K.taken sink.old) (K.taken sink.new) (text_of_run dir.now records.now updates.now (R.replied runner.now)) }
    ensures fault { IsErrOf result Stop.Fault → K.faults sink.new ≡ one_more (K.faults sink.old) }
    ensures quiet { ¬ (IsErrOf result Stop.Fault) → K.faults sink.new ≡ K.faults sink.old }
{
    let mut pieces = Pieces::new(alloc, dir);
    add_clients::<G, R>(&mut pieces, clients, runner)?;
    pieces.add_journal(updates)?;
    pieces.write(rt, alloc, sink, dir, records)?;
    write_last(alloc, sink, updates.len())
}

// Adds the replies of each client.
fn add_clients<'a, G: Gate + Sync, R: Runner<G>>(
    pieces: &mut Pieces<'a>,
    clients: u32,
    runner: &'a R,
) -> Result<(), NoMemory>
    requires clients { clients ≡ length (R.replied runner.now) }
    ensures { OnOk result (AddsClients pieces.old (R.replied runner.now) pieces.new) }
{
    for client in 0..clients {
        pieces.add_replies(runner.replies(client))?;
    }
    Ok(())
}

/// Writes the last line, which states the number of updates.
pub(crate) fn write_last<K: Sink>(alloc: Global, sink: &mut K, updates: usize) -> Result<(), Stop>
    ensures taken { OnOk result (IsTaken (K.taken sink.old) (K.taken sink.new) (line_of (last_data updates))) }
    ensures start { (stop : Ended) → IsErrOf result stop → TakesStart (K.taken sink.old) (K.taken sink.new) (line_of (last_data updates)) }
    ensures fault { IsErrOf result Stop.Fault → K.faults sink.new ≡ one_more (K.faults sink.old) }
    ensures quiet { ¬ (IsErrOf result Stop.Fault) → K.faults sink.new ≡ K.faults sink.old }
{
    let line = last_line(alloc, updates as u64)?;
    write_all(sink, line.bytes())?;
    Ok(())
}
