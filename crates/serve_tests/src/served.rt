// The one call of the program of these tests, with its arguments as plain text.
use client_run::Gate;
use client_threads::Runner;
use key_names::Text;
use outside_io::{MemSink, MemSource, Sink, Source};
use serve_session::{Status, serve};
use std::alloc::Global;
use std::sync::Wait;
use std::test::Fail;
use std::thread::Threads;

// How serving these arguments ends.
pub(super) fn served<S: Source, K: Sink, G: Gate + Sync, R: Runner<G>, Rt: Threads + Wait + Sync>(
    rt: &Rt,
    alloc: Global,
    words: &[&str],
    source: &mut S,
    sink: &mut K,
    gate: &G,
    runner: &mut R,
) -> Result<Status, Fail> {
    let words = texts(alloc, words)?;
    Ok(serve(rt, alloc, &words, source, sink, gate, runner))
}

// Room for all that a session of these tests writes.
const AMPLE: usize = 100_000;

// How serving these arguments over this input ends, and whether the text is the wanted one, if one is wanted.
pub(super) fn told<G: Gate + Sync, R: Runner<G>, Rt: Threads + Wait + Sync>(
    rt: &Rt,
    alloc: Global,
    words: &[&str],
    input: &[u8],
    gate: &G,
    runner: &mut R,
    wanted: Option<&str>,
) -> Result<(Status, bool), Fail> {
    let mut source = MemSource::new(input.to_vec(alloc)?);
    let mut sink = MemSink::with_room(alloc, AMPLE)?;
    let status = served(rt, alloc, words, &mut source, &mut sink, gate, runner)?;
    let is_wanted = match wanted {
        Some(text) => sink.taken() == text.as_bytes(),
        None => true,
    };
    Ok((status, is_wanted))
}

fn texts(alloc: Global, words: &[&str]) -> Result<Vec<Text>, Fail> {
    let mut texts = Vec::new(alloc);
    for word in words {
        texts.push(Text::of(alloc, word)?)?;
    }
    Ok(texts)
}
