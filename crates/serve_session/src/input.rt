// The form `run`: a session is read, its clients are run, and its text is written.
ghost use Rattle.std.specs.Prelude.{◌≡◌, ◌⊎◌, ◌≤◌, ℕ};
ghost use Rattle.outside_io.specs.Streams.{one_more, Gave, IsOver, IsTaken, TakesStart};
ghost use Rattle.request_lines.specs.declared.session_error.InputError.{InputError};
ghost use Rattle.serve_session.specs.declared.status.Status.TheVariants.{Done as IsDone, BadWords as HasBadWords};
ghost use Rattle.request_lines.specs.Input.{most_input_bytes, refusal_of};
ghost use Rattle.serve_session.specs.Served.{HoldsOfInput, WasRefused};
ghost use Rattle.serve_session.specs.Taken.{TookBy, TookStart};
ghost use Rattle.client_threads.specs.ClientSlots.{IsNamable};
ghost use Rattle.client_threads.specs.Pools.{named};

use crate::Status;
use crate::running::run_session;
use client_run::Gate;
use client_threads::{NodeSlots, Runner};
use outside_io::{ReadError, Sink, Source, read_all};
use request_lines::{MAX_INPUT_BYTES, SessionError, read_session_on_threads};
use run_text::Stop;
use std::alloc::Global;
use std::sync::Wait;
use std::thread::Threads;

/// Reads a session, runs its clients and writes its text.
pub(crate) fn serve_input<
    S: Source,
    K: Sink,
    G: Gate + Sync,
    R: Runner<G>,
    Rt: Threads + Wait + Sync,
>(
    rt: &Rt,
    alloc: Global,
    slots: NodeSlots,
    source: &mut S,
    sink: &mut K,
    gate: &G,
    runner: &mut R,
) -> Status
    requires slots { IsNamable (named slots) }
    ensures headline { result ≡ IsDone → HoldsOfInput (named slots) (S.rest source.old) (S.rest source.new) (λ run text. IsTaken (K.taken sink.old) (K.taken sink.new) text) }
    ensures runner { result ≡ IsDone → HoldsOfInput (named slots) (S.rest source.old) (S.rest source.new) (TookBy K.taken sink.old sink.new R.runs R.replied runner.old runner.new) }

    // An end before anything is written.
    ensures reads { ¬ (result ≡ HasBadWords) }
    ensures checks_nothing { (line : ℕ) → ¬ (result ≡ Status.Illegal line) }
    ensures nothing_written { ¬ (result ≡ IsDone) → ¬ (result ≡ Status.WriteFault) → ¬ (result ≡ Status.NoMemory) → sink.new ≡ sink.old }
    ensures bad_input { (e : InputError) → result ≡ Status.BadInput e → WasRefused refusal_of (S.rest source.old) (S.rest source.new) e }
    ensures too_long { result ≡ Status.TooLong → Gave (S.rest source.old) (S.rest source.new) (IsOver most_input_bytes) }

    // Faults and out of memory.
    ensures read_fault { result ≡ Status.ReadFault → Gave (S.rest source.old) (S.rest source.new) (λ n. n ≤ most_input_bytes) }
    ensures read_fault_only_where_faulted { result ≡ Status.ReadFault → S.faults source.new ≡ one_more (S.faults source.old) }
    ensures no_other_read_fault { ¬ (result ≡ Status.ReadFault) → S.faults source.new ≡ S.faults source.old }
    ensures write_fault { result ≡ Status.WriteFault → HoldsOfInput (named slots) (S.rest source.old) (S.rest source.new) (TookStart K.taken sink.old sink.new) }
    ensures write_fault_only_where_faulted { result ≡ Status.WriteFault → K.faults sink.new ≡ one_more (K.faults sink.old) }
    ensures no_other_write_fault { ¬ (result ≡ Status.WriteFault) → K.faults sink.new ≡ K.faults sink.old }
    ensures no_memory_source { result ≡ Status.NoMemory → Gave (S.rest source.old) (S.rest source.new) (λ n. n ≤ most_input_bytes) }
    ensures no_memory { result ≡ Status.NoMemory → (sink.new ≡ sink.old) ⊎ HoldsOfInput (named slots) (S.rest source.old) (S.rest source.new) (TookStart K.taken sink.old sink.new) }
{
    let input = match read_all(alloc, source, MAX_INPUT_BYTES) {
        Ok(input) => input,
        Err(ReadError::Fault) => return Status::ReadFault,
        Err(ReadError::TooLong) => return Status::TooLong,
        Err(ReadError::NoMemory) => return Status::NoMemory,
    };
    let read = read_session_on_threads(rt, alloc, &input);
    // The session has its own texts, and the clients need the memory.
    drop(input);
    let session = match read {
        Ok(session) => session,
        Err(SessionError::Input(error)) => return Status::BadInput(error),
        Err(SessionError::NoMemory) => return Status::NoMemory,
    };
    match run_session(rt, alloc, slots, session, sink, gate, runner) {
        Ok(()) => Status::Done,
        Err(Stop::Fault) => Status::WriteFault,
        Err(Stop::NoMemory) => Status::NoMemory,
    }
}
