//! The program: reads a session on standard input, answers it, and writes the answers, the journal of updates and their
//! number as lines of JSON; or runs a generated session, and writes a line of numbers; or reads a session and a written
//! text, and writes whether the text is right. `serve` of `serve_session` does all of it, and its clauses say what
//! a run has read and written; here are the real input and output, the arguments of the command line, the runner of the
//! clients, and the exit status.
#![tactic(auto)]

ghost use Rattle.std.specs.Prelude.{◌≡◌, ◌≤◌, [], IfOk, OnErr, OnOk, map, drop, string_bytes};
ghost use Rattle.std.specs.Io.Buffered.{writer_buffer};
ghost use Rattle.std.specs.Process.{exit_status};
ghost use Rattle.std.specs.Vec.Iter.{into_iter_items};
ghost use Rattle.outside_io.specs.Streams.{one_more};
ghost use Rattle.serve_session.specs.Statuses.{exit_code};

use client_run::OpenGate;
use client_threads::Threaded;
use key_names::{NoMemory, Text};
use outside_io::{Failed, StdSink, StdSource};
use serve_session::{Status, serve};
use std::alloc::Global;
use std::process::ExitCode;
use std::rt::Env;
use std::sync::Wait;
use std::thread::Threads;
use std::{env, io, mem};

fn main(rt: HostRuntime) -> ExitCode {
    let mut source = StdSource::new(&rt);
    let mut sink = StdSink::new(&rt);
    match words(&rt) {
        Ok(words) => {
            let status = serve_to_the_end(&rt, &words, &mut source, &mut sink);
            end(&rt, status)
        }
        Err(status) => end(&rt, status),
    }
}

// Serves, and hands on what is still in the output's buffer: after every end but a write fault, nothing is left there.
// A write fault is one that the output has counted, while serving or when the buffer was emptied.
fn serve_to_the_end<Rt: Threads + Wait + Sync + AllocGlobal>(
    rt: &Rt,
    words: &[Text],
    source: &mut StdSource,
    sink: &mut StdSink,
) -> Status
    ensures emptied { ¬ (result ≡ Status.WriteFault) → writer_buffer sink.new.output ≡ [] }
    ensures fault_counted { result ≡ Status.WriteFault → one_more sink.old.faults ≤ sink.new.faults }
    ensures no_other_fault { ¬ (result ≡ Status.WriteFault) → sink.new.faults ≡ sink.old.faults }
{
    let mut runner = Threaded::new();
    let served = serve(rt, rt.alloc(), words, source, sink, &OpenGate, &mut runner);
    // The process ends with this, and its memory is given back whole.
    mem::forget(runner);
    let flushed = sink.flush();
    written(served, flushed)
}

// How serving ended, given whether the output took the last bytes.
fn written(status: Status, flushed: Result<(), Failed>) -> Status
    ensures taken { OnOk flushed (result ≡ status) }
    ensures not_taken { OnErr flushed (result ≡ Status.WriteFault) }
{
    match flushed {
        Ok(()) => status,
        Err(Failed) => Status::WriteFault,
    }
}

// Reports on standard error how serving ended, unless all was done, and gives the exit status.
fn end(rt: &HostRuntime, status: Status) -> ExitCode
    ensures { exit_status result ≡ exit_code status }
{
    if !status.is_done() {
        // If this fails, nobody is left to report it to.
        let _ = eprintln!(rt; "bucketidx: {status}");
    }
    ExitCode::from(status.exit_code())
}

// The arguments after the program's name. One that is not UTF-8 gives `BadWords`.
fn words<R: Env + AllocGlobal>(rt: &R) -> Result<Vec<Text>, Status> {
    let args = match env::args(rt) {
        Ok(args) => args,
        Err(e) if e.kind() == io::ErrorKind::InvalidData => return Err(Status::BadWords),
        Err(_) => return Err(Status::NoMemory),
    };
    match behind_the_name(rt.alloc(), args) {
        Ok(words) => Ok(words),
        Err(_) => Err(Status::NoMemory),
    }
}

// All arguments but the first, which is the program's name.
fn behind_the_name(alloc: Global, args: env::Args) -> Result<Vec<Text>, NoMemory>
    ensures { IfOk result (λ words. words.items ≡ map string_bytes (drop 1 (into_iter_items args))) }
{
    Ok(
        args.skip(1)
            .map(|arg| Text::from_string(arg))
            .collect(alloc)?,
    )
}
