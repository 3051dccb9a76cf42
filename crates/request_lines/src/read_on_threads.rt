// A session whose lines are read by several threads at once.
ghost use Rattle.std.specs.Prelude.{◌≤◌, ◌<◌, length, IfOk};
ghost use Rattle.request_lines.specs.Input.{most_input_bytes, IsSessionOf};
ghost use Rattle.request_lines.specs.Refusal.{IsRefused};
ghost use Rattle.request_lines.specs.SessionLaws.{HasNames, HasRecords, HasRequests, HasLines, IsSmall};

use crate::blocks::{BLOCK_BYTES, blocks_of};
use crate::read::read_session;
use crate::reader::Reader;
use crate::rounds::take_rounds;
use crate::unsorted::UnsortedSession;
use crate::{Session, SessionError};
use std::alloc::Global;
use std::thread;
use std::thread::Threads;

/// As `read_session`. What the lines of several blocks say is read at once, on as many threads as the machine runs,
/// and is then checked against the limits and kept in order, while the next blocks are read. The names are sorted on
/// threads too. Where a thread cannot be started, the caller does its work; an input of no more bytes than a block has
/// starts no thread.
pub fn read_session_on_threads<Rt: Threads + Sync>(
    rt: &Rt,
    alloc: Global,
    bytes: &[u8],
) -> Result<Session, SessionError>
    requires { length bytes.now ≤ most_input_bytes }
    ensures session { IfOk result (IsSessionOf bytes.now) }
    ensures refused { IsRefused bytes.now result }

    // What the layers above need of every session.
    ensures names { IfOk result HasNames }
    ensures records { IfOk result HasRecords }
    ensures requests { IfOk result HasRequests }
    ensures lines { IfOk result HasLines }
    ensures small { IfOk result IsSmall }
{
    let threads = at_once(rt, bytes.len());
    if threads < 2 {
        return read_session(alloc, bytes);
    }
    Ok(read_rounds(rt, alloc, bytes, threads)?.sorted_on_threads(rt, alloc)?)
}

// Reads the lines of an input, of which at most so many blocks are read at once. The names are still to be sorted.
fn read_rounds<Rt: Threads + Sync>(
    rt: &Rt,
    alloc: Global,
    bytes: &[u8],
    most: usize,
) -> Result<UnsortedSession, SessionError>
    requires small { length bytes.now ≤ most_input_bytes }
    requires some { 0 < most }
    ensures session { IfOk result (IsSessionOf bytes.now) }
    ensures refused { IsRefused bytes.now result }

    // What the layers above need of every session.
    ensures names { IfOk result HasNames }
    ensures records { IfOk result HasRecords }
    ensures requests { IfOk result HasRequests }
    ensures lines { IfOk result HasLines }
    ensures small { IfOk result IsSmall }
{
    let blocks = blocks_of(alloc, bytes)?;
    let mut reader = Reader::new(alloc);
    take_rounds(rt, alloc, &mut reader, &blocks, most)?;
    reader.finish()
}

// How many blocks of an input with so many bytes are read at once.
fn at_once<Rt: Threads>(rt: &Rt, bytes: usize) -> usize {
    match thread::available_parallelism(rt) {
        Ok(threads) if bytes > BLOCK_BYTES => threads.get(),
        _ => 1,
    }
}
