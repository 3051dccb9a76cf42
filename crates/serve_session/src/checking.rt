// The check of a written text.
ghost use Rattle.std.specs.Prelude.{◌≡◌, ◌≤◌, ℕ, IfOk, OnOk, IsErrOf};
ghost use Rattle.outside_io.specs.Streams.{one_more, Gave, IsOver, IsTaken, TakesStart};
ghost use Rattle.request_lines.specs.declared.session_error.InputError.{InputError};
ghost use Rattle.request_lines.specs.Input.{most_input_bytes};
ghost use Rattle.request_lines.specs.SessionLaws.{HasNames, HasRecords, HasRequests, HasLines, IsSmall};
ghost use Rattle.replay_check.specs.declared.verdict.Verdict.{Verdict as TheVerdict};
ghost use Rattle.replay_check.specs.declared.verdict.Verdict.TheVariants.{Legal as IsLegal, Wrong as IsWrong};
ghost use Rattle.serve_session.specs.declared.status.Status.TheVariants.{Done as IsDone, BadWords as HasBadWords};
ghost use Rattle.request_lines.specs.CheckInput.{check_refusal};
ghost use Rattle.serve_session.specs.Served.{HasVerdict, WasRefused, verdict_text};
ghost use Rattle.serve_session.specs.Taken.{IsVerdictOf};

use crate::Status;
use crate::verdict::verdict_line;
use key_names::NoMemory;
use outside_io::{ReadError, Sink, Source, read_all, write_all};
use replay_check::{Verdict, check_text};
use request_lines::{CheckInput, MAX_INPUT_BYTES, SessionError, read_check_input};
use run_text::Stop;
use std::alloc::Global;

/// Reads a session and a text, and writes whether the text is that of a legal run of the session, or which of its lines
/// is the first wrong one.
pub(crate) fn serve_check<S: Source, K: Sink>(
    alloc: Global,
    slots: Option<u32>,
    source: &mut S,
    sink: &mut K,
) -> Status
    ensures legal { result ≡ IsDone → HasVerdict slots (S.rest source.old) (S.rest source.new) IsLegal × IsTaken (K.taken sink.old) (K.taken sink.new) (verdict_text IsLegal) }
    ensures wrong { (line : ℕ) → result ≡ Status.Illegal line → HasVerdict slots (S.rest source.old) (S.rest source.new) (IsWrong line) × IsTaken (K.taken sink.old) (K.taken sink.new) (verdict_text (IsWrong line)) }

    // An end before anything is written.
    ensures reads { ¬ (result ≡ HasBadWords) }
    ensures nothing_written { ¬ (result ≡ IsDone) → ((line : ℕ) → ¬ (result ≡ Status.Illegal line)) → ¬ (result ≡ Status.WriteFault) → sink.new ≡ sink.old }
    ensures bad_input { (e : InputError) → result ≡ Status.BadInput e → WasRefused check_refusal (S.rest source.old) (S.rest source.new) e }
    ensures too_long { result ≡ Status.TooLong → Gave (S.rest source.old) (S.rest source.new) (IsOver most_input_bytes) }

    // Faults and out of memory.
    ensures read_fault { result ≡ Status.ReadFault → Gave (S.rest source.old) (S.rest source.new) (λ n. n ≤ most_input_bytes) }
    ensures read_fault_only_where_faulted { result ≡ Status.ReadFault → S.faults source.new ≡ one_more (S.faults source.old) }
    ensures no_other_read_fault { ¬ (result ≡ Status.ReadFault) → S.faults source.new ≡ S.faults source.old }
    ensures write_fault { result ≡ Status.WriteFault → (verdict : TheVerdict) × (HasVerdict slots (S.rest source.old) (S.rest source.new) verdict × TakesStart (K.taken sink.old) (K.taken sink.new) (verdict_text verdict)) }
    ensures write_fault_only_where_faulted { result ≡ Status.WriteFault → K.faults sink.new ≡ one_more (K.faults sink.old) }
    ensures no_other_write_fault { ¬ (result ≡ Status.WriteFault) → K.faults sink.new ≡ K.faults sink.old }
    ensures no_memory_source { result ≡ Status.NoMemory → Gave (S.rest source.old) (S.rest source.new) (λ n. n ≤ most_input_bytes) }
{
    let input = match read_all(alloc, source, MAX_INPUT_BYTES) {
        Ok(input) => input,
        Err(ReadError::Fault) => return Status::ReadFault,
        Err(ReadError::TooLong) => return Status::TooLong,
        Err(ReadError::NoMemory) => return Status::NoMemory,
    };
    let read = match read_check_input(alloc, &input) {
        Ok(read) => read,
        Err(SessionError::Input(error)) => return Status::BadInput(error),
        Err(SessionError::NoMemory) => return Status::NoMemory,
    };
    match verdict_on(alloc, slots, &read) {
        Ok(verdict) => tell(alloc, sink, verdict),
        Err(_) => Status::NoMemory,
    }
}

// The verdict on the text.
fn verdict_on(alloc: Global, slots: Option<u32>, read: &CheckInput<'_>) -> Result<Verdict, NoMemory>
    requires names { HasNames read.now.session }
    requires records { HasRecords read.now.session }
    requires requests { HasRequests read.now.session }
    requires lines { HasLines read.now.session }
    requires small { IsSmall read.now.session }
    ensures { IfOk result (IsVerdictOf slots read.now.session read.now.text.now) }
{
    let dir = read.session.names.directory(alloc)?;
    check_text(alloc, &read.session, &dir, slots, read.text)
}

// Writes the verdict.
fn tell<K: Sink>(alloc: Global, sink: &mut K, verdict: Verdict) -> Status
    ensures legal { result ≡ IsDone → (verdict ≡ IsLegal) × IsTaken (K.taken sink.old) (K.taken sink.new) (verdict_text verdict) }
    ensures wrong { (line : ℕ) → result ≡ Status.Illegal line → (verdict ≡ IsWrong line) × IsTaken (K.taken sink.old) (K.taken sink.new) (verdict_text verdict) }
    ensures told { ¬ (result ≡ HasBadWords) × ((e : InputError) → ¬ (result ≡ Status.BadInput e)) × ¬ (result ≡ Status.TooLong) × ¬ (result ≡ Status.ReadFault) }
    ensures no_memory { result ≡ Status.NoMemory → sink.new ≡ sink.old }
    ensures write_fault { result ≡ Status.WriteFault → TakesStart (K.taken sink.old) (K.taken sink.new) (verdict_text verdict) }
    ensures write_fault_only_where_faulted { result ≡ Status.WriteFault → K.faults sink.new ≡ one_more (K.faults sink.old) }
    ensures no_other_write_fault { ¬ (result ≡ Status.WriteFault) → K.faults sink.new ≡ K.faults sink.old }
{
    match write_verdict(alloc, sink, verdict) {
        Ok(()) => status_of(verdict),
        Err(Stop::Fault) => Status::WriteFault,
        Err(Stop::NoMemory) => Status::NoMemory,
    }
}

fn write_verdict<K: Sink>(alloc: Global, sink: &mut K, verdict: Verdict) -> Result<(), Stop>
    ensures taken { OnOk result (IsTaken (K.taken sink.old) (K.taken sink.new) (verdict_text verdict)) }
    ensures start { IsErrOf result Stop.Fault → TakesStart (K.taken sink.old) (K.taken sink.new) (verdict_text verdict) }
    ensures no_memory { IsErrOf result Stop.NoMemory → sink.new ≡ sink.old }
    ensures fault { IsErrOf result Stop.Fault → K.faults sink.new ≡ one_more (K.faults sink.old) }
    ensures quiet { ¬ (IsErrOf result Stop.Fault) → K.faults sink.new ≡ K.faults sink.old }
{
    let line = verdict_line(alloc, verdict)?;
    write_all(sink, line.bytes())?;
    Ok(())
}

fn status_of(verdict: Verdict) -> Status
    ensures legal { verdict ≡ IsLegal → result ≡ IsDone }
    ensures wrong { (line : ℕ) → verdict ≡ IsWrong line → result ≡ Status.Illegal line }
{
    match verdict {
        Verdict::Legal => Status::Done,
        Verdict::Wrong { line } => Status::Illegal(line),
    }
}
