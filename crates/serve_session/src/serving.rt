// The whole program except the real input and output.
ghost use Rattle.std.specs.Prelude.{◌≡◌, ◌⊎◌, ◌≤◌, ℕ, [], Option};
ghost use Rattle.outside_io.specs.Streams.{one_more, Gave, IsOver, IsTaken, TakesStart};
ghost use Rattle.command_words.specs.Words.{IsRun, IsCheck, IsSample, HasForm};
ghost use Rattle.request_lines.specs.declared.session_error.InputError.{InputError};
ghost use Rattle.serve_session.specs.declared.status.Status.TheVariants.{Done as IsDone, BadWords as HasBadWords};
ghost use Rattle.request_lines.specs.Input.{most_input_bytes, refusal_of};
ghost use Rattle.request_lines.specs.CheckInput.{check_refusal};
ghost use Rattle.sample_laws.specs.Sample.{sample_summary};
ghost use Rattle.serve_session.specs.Served.{HoldsOfInput, HoldsOfSample, HasVerdict, IsRunOf, WasRefused, summary_text, verdict_text};
ghost use Rattle.replay_check.specs.declared.verdict.Verdict.{Verdict};
ghost use Rattle.replay_check.specs.declared.verdict.Verdict.TheVariants.{Legal as IsLegal, Wrong as IsWrong};

use crate::Status;
use crate::checking::serve_check;
use crate::input::serve_input;
use crate::sample::serve_sample;
use client_run::Gate;
use client_threads::{NodeSlots, Runner};
use command_words::{Form, form_of};
use key_names::Text;
use outside_io::{Sink, Source};
use std::alloc::Global;
use std::sync::Wait;
use std::thread::Threads;

/// Does what the arguments ask; they are those after the program's name. The forms `run` read a session, run its
/// clients over one shared index and write its text; the form `sample` runs the generated session and writes its
/// summary. The forms `check` read a session and a written text, and write whether the text is that of a legal run of
/// the session. With `--slots N` each client of the session has N node slots, otherwise one more than it has PUT,
/// PUTNEW and DELETE lines. With `run --pool N` it has N too, and clients hand one another those that they have to
/// spare. The runner runs the clients. The gate is notified of each request before and after it is answered. After
/// `Done` the text of one legal run of the input's session was written, or the line of the summary, or of the verdict
/// that a text is legal, and after `Illegal` that of the verdict which names its first wrong line; after `WriteFault` a
/// start of such a text or line; after `NoMemory` nothing or a start of one. Each other end comes before anything is
/// written.
///
/// ```
/// // with the single argument `run`
/// let mut source = MemSource::new(b"CLIENT\nHEAD a\n".to_vec(alloc)?);
/// let mut sink = MemSink::with_room(alloc, 1000)?;
/// let status = serve(&rt, alloc, &words, &mut source, &mut sink, &OpenGate, &mut Threaded::new());
/// assert_eq!(rt; status, Status::Done);
/// // the sink has taken the lines {"At":0,"Client":0,"Line":2,"Status":404} and {"Updates":0}
/// ```
pub fn serve<S: Source, K: Sink, G: Gate + Sync, R: Runner<G>, Rt: Threads + Wait + Sync>(
    rt: &Rt,
    alloc: Global,
    words: &[Text],
    source: &mut S,
    sink: &mut K,
    gate: &G,
    runner: &mut R,
) -> Status
    // A run that ends: one legal run of the input's session, and exactly its text. The run is the runner's; if there
    // is no client, there are no replies.
    ensures headline { (slots : Option ℕ) → IsRun words.now slots → result ≡ IsDone → HoldsOfInput slots (S.rest source.old) (S.rest source.new) (λ run text. IsTaken (K.taken sink.old) (K.taken sink.new) text) }
    ensures runner { (slots : Option ℕ) → IsRun words.now slots → result ≡ IsDone → HoldsOfInput slots (S.rest source.old) (S.rest source.new) (λ run text. IsTaken (K.taken sink.old) (K.taken sink.new) text × ((run.replies ≡ []) ⊎ IsRunOf (R.runs runner.old) (R.runs runner.new) (R.replied runner.new) run)) }

    // A sample: the line of the summary, which is a function of the number.
    ensures sample { (n : ℕ) → IsSample words.now n → result ≡ IsDone → IsTaken (K.taken sink.old) (K.taken sink.new) (summary_text (sample_summary n)) }
    ensures sample_runner { (n : ℕ) → IsSample words.now n → result ≡ IsDone → HoldsOfSample n (IsRunOf (R.runs runner.old) (R.runs runner.new) (R.replied runner.new)) }
    ensures sample_ends { (n : ℕ) → IsSample words.now n → (result ≡ IsDone) ⊎ ((result ≡ Status.WriteFault) ⊎ (result ≡ Status.NoMemory)) }

    // A check: the line of the verdict, which is that on the text after the input's session.
    ensures check_legal { (slots : Option ℕ) → IsCheck words.now slots → result ≡ IsDone → HasVerdict slots (S.rest source.old) (S.rest source.new) IsLegal × IsTaken (K.taken sink.old) (K.taken sink.new) (verdict_text IsLegal) }
    ensures check_wrong { (slots : Option ℕ) → (line : ℕ) → IsCheck words.now slots → result ≡ Status.Illegal line → HasVerdict slots (S.rest source.old) (S.rest source.new) (IsWrong line) × IsTaken (K.taken sink.old) (K.taken sink.new) (verdict_text (IsWrong line)) }
    ensures wrong_only_where_checked { (line : ℕ) → result ≡ Status.Illegal line → (slots : Option ℕ) × IsCheck words.now slots }

    // An end before anything is written: the arguments, the input or the source are the cause.
    ensures bad_words { result ≡ HasBadWords → ¬ (HasForm words.now) }
    ensures no_form { ¬ (HasForm words.now) → (result ≡ HasBadWords) ⊎ (result ≡ Status.NoMemory) }
    ensures nothing_read { ((slots : Option ℕ) → ¬ (IsRun words.now slots)) → ((slots : Option ℕ) → ¬ (IsCheck words.now slots)) → source.new ≡ source.old }
    ensures nothing_written { ¬ (result ≡ IsDone) → ¬ (result ≡ Status.WriteFault) → ¬ (result ≡ Status.NoMemory) → ((line : ℕ) → ¬ (result ≡ Status.Illegal line)) → sink.new ≡ sink.old }
    ensures nothing_written_without_form { ¬ (HasForm words.now) → sink.new ≡ sink.old }
    ensures bad_input { (slots : Option ℕ) → (e : InputError) → IsRun words.now slots → result ≡ Status.BadInput e → WasRefused refusal_of (S.rest source.old) (S.rest source.new) e }
    ensures check_bad_input { (slots : Option ℕ) → (e : InputError) → IsCheck words.now slots → result ≡ Status.BadInput e → WasRefused check_refusal (S.rest source.old) (S.rest source.new) e }
    ensures too_long { result ≡ Status.TooLong → Gave (S.rest source.old) (S.rest source.new) (IsOver most_input_bytes) }

    // Faults and out of memory: a fault is reported exactly if one was counted, and what was taken is a start of the
    // text.
    ensures read_fault { result ≡ Status.ReadFault → Gave (S.rest source.old) (S.rest source.new) (λ n. n ≤ most_input_bytes) }
    ensures read_fault_only_where_faulted { result ≡ Status.ReadFault → S.faults source.new ≡ one_more (S.faults source.old) }
    ensures no_other_read_fault { ¬ (result ≡ Status.ReadFault) → S.faults source.new ≡ S.faults source.old }
    ensures write_fault { (slots : Option ℕ) → IsRun words.now slots → result ≡ Status.WriteFault → HoldsOfInput slots (S.rest source.old) (S.rest source.new) (λ run text. TakesStart (K.taken sink.old) (K.taken sink.new) text) }
    ensures sample_write_fault { (n : ℕ) → IsSample words.now n → result ≡ Status.WriteFault → TakesStart (K.taken sink.old) (K.taken sink.new) (summary_text (sample_summary n)) }
    ensures check_write_fault { (slots : Option ℕ) → IsCheck words.now slots → result ≡ Status.WriteFault → (verdict : Verdict) × (HasVerdict slots (S.rest source.old) (S.rest source.new) verdict × TakesStart (K.taken sink.old) (K.taken sink.new) (verdict_text verdict)) }
    ensures write_fault_only_where_faulted { result ≡ Status.WriteFault → K.faults sink.new ≡ one_more (K.faults sink.old) }
    ensures no_other_write_fault { ¬ (result ≡ Status.WriteFault) → K.faults sink.new ≡ K.faults sink.old }
    ensures no_memory_source { result ≡ Status.NoMemory → Gave (S.rest source.old) (S.rest source.new) (λ n. n ≤ most_input_bytes) }
    ensures no_memory { (slots : Option ℕ) → IsRun words.now slots → result ≡ Status.NoMemory → (sink.new ≡ sink.old) ⊎ HoldsOfInput slots (S.rest source.old) (S.rest source.new) (λ run text. TakesStart (K.taken sink.old) (K.taken sink.new) text) }
    ensures check_no_memory { (slots : Option ℕ) → IsCheck words.now slots → result ≡ Status.NoMemory → sink.new ≡ sink.old }
    ensures sample_no_memory { (n : ℕ) → IsSample words.now n → result ≡ Status.NoMemory → sink.new ≡ sink.old }
{
    match form_of(alloc, words) {
        Ok(Some(Form::Run { slots })) => {
            let slots = NodeSlots::of_named(slots);
            serve_input(rt, alloc, slots, source, sink, gate, runner)
        }
        Ok(Some(Form::Pool { slots })) => {
            let pooled = NodeSlots::Pooled(slots);
            serve_input(rt, alloc, pooled, source, sink, gate, runner)
        }
        Ok(Some(Form::Check { slots })) => serve_check(alloc, slots, source, sink),
        Ok(Some(Form::Sample(n))) => serve_sample(rt, alloc, n, sink, gate, runner),
        Ok(None) => Status::BadWords,
        Err(_) => Status::NoMemory,
    }
}
