// Each call of a source and of a sink that fails, one at a time, through the top call. Row 1 of tests/program/rows.txt
// has the same session.
ghost use Rattle.std.specs.Prelude.{◌<◌};

use crate::served::served;
use client_run::OpenGate;
use client_threads::Threaded;
use outside_io::{FailingSink, FailingSource, Sink};
use serve_session::Status;
use std::alloc::Global;
use std::sync::Wait;
use std::test::Fail;
use std::thread::Threads;

// The session, and its text. No contract gives them to the tests, so that they are not computed when these are checked.
fn session() -> &'static str {
    "CLIENT\nPUT b 2 e2 20\nPUT a 1 e1 10\nPUT b 3 e3 30\nLIST\n"
}

fn whole_text() -> &'static str {
    "{\"At\":1,\"Client\":0,\"Line\":2,\"Replaced\":false,\"Status\":200}\n\
    {\"At\":2,\"Client\":0,\"Line\":3,\"Replaced\":false,\"Status\":200}\n\
    {\"At\":3,\"Client\":0,\"Line\":4,\"Replaced\":true,\"Status\":200}\n\
    {\"At\":3,\"Client\":0,\"CommonPrefixes\":[],\"Contents\":[{\"ETag\":\"e1\",\"Key\":\"a\",\"LastModified\":10,\"Size\":1},\
    {\"ETag\":\"e3\",\"Key\":\"b\",\"LastModified\":30,\"Size\":3}],\"IsTruncated\":false,\"KeyCount\":2,\"Line\":5,\
    \"MaxKeys\":1000,\"Prefix\":\"\",\"Status\":200}\n\
    {\"At\":1,\"Client\":0,\"Key\":\"b\",\"Line\":2,\"Verb\":\"PUT\"}\n\
    {\"At\":2,\"Client\":0,\"Key\":\"a\",\"Line\":3,\"Verb\":\"PUT\"}\n\
    {\"At\":3,\"Client\":0,\"Key\":\"b\",\"Line\":4,\"Verb\":\"PUT\"}\n\
    {\"Updates\":3}\n"
}

// The first `length` bytes of the text.
fn start_of_text(length: usize) -> Result<&'static [u8], Fail> {
    Ok(whole_text().as_bytes().get(..length).ok_or("a short text")?)
}

const ROOM: usize = 4096;

// How the session ends whose reads, of at most 10 bytes, fail at these calls; it is written into this sink.
fn ended<K: Sink, Rt: Threads + Wait + Sync>(
    rt: &Rt,
    alloc: Global,
    reads: &[u64],
    sink: &mut K,
) -> Result<Status, Fail> {
    let input = session().as_bytes().to_vec(alloc)?;
    let mut source = FailingSource::new(input, 10, reads.to_vec(alloc)?);
    let mut runner = Threaded::new();
    served(
        rt,
        alloc,
        &["run"],
        &mut source,
        sink,
        &OpenGate,
        &mut runner,
    )
}

// Whether the session ends with this status and exactly so many bytes of its text are taken, if this read fails.
fn ends_at_read<Rt: Threads + Wait + Sync>(
    rt: &Rt,
    alloc: Global,
    call: u64,
    wanted: Status,
    taken: usize,
) -> Result<bool, Fail> {
    let mut sink = FailingSink::with_room(alloc, ROOM, Vec::new(alloc))?;
    let status = ended(rt, alloc, &[call], &mut sink)?;
    Ok(status == wanted && sink.taken() == start_of_text(taken)?)
}

// The first read whose fault does not end the session with nothing taken. The 54 bytes of the session are given by six
// reads, the seventh finds the end, and there is no eighth.
fn first_wrong_read<Rt: Threads + Wait + Sync>(
    rt: &Rt,
    alloc: Global,
) -> Result<Option<u64>, Fail> {
    for call in 1..=8 {
        let (wanted, taken) = if call < 8 {
            (Status::ReadFault, 0)
        } else {
            (Status::Done, whole_text().len())
        };
        if !ends_at_read(rt, alloc, call, wanted, taken)? {
            return Ok(Some(call));
        }
    }
    Ok(None)
}

// A sink with a fault at this write, of a whole line or of at most 7 bytes.
fn failing_sink(alloc: Global, in_steps: bool, call: u64) -> Result<FailingSink, Fail> {
    let fails = [call].to_vec(alloc)?;
    if in_steps {
        Ok(FailingSink::with_step(alloc, ROOM, 7, fails)?)
    } else {
        Ok(FailingSink::with_room(alloc, ROOM, fails)?)
    }
}

// Whether the session ends with a write fault and exactly so many bytes of its text are taken, if this write fails.
fn stops_at_write<Rt: Threads + Wait + Sync>(
    rt: &Rt,
    alloc: Global,
    in_steps: bool,
    call: u64,
    taken: usize,
) -> Result<bool, Fail> {
    let mut sink = failing_sink(alloc, in_steps, call)?;
    let status = ended(rt, alloc, &[], &mut sink)?;
    Ok(status == Status::WriteFault && sink.taken() == start_of_text(taken)?)
}

// The first write whose fault does not end the session with exactly the text before it taken.
fn first_wrong_write<Rt: Threads + Wait + Sync>(
    rt: &Rt,
    alloc: Global,
    in_steps: bool,
) -> Result<Option<u64>, Fail> {
    let most = if in_steps { 7 } else { ROOM };
    let mut taken = 0;
    let mut call = 1;
    for line in whole_text().split_inclusive('\n') {
        for piece in line.as_bytes().chunks(most) {
            if !stops_at_write(rt, alloc, in_steps, call, taken)? {
                return Ok(Some(call));
            }
            taken = taken.saturating_add(piece.len());
            call = call.saturating_add(1);
        }
    }
    Ok(None)
}

#[test]
fn a_read_that_fails_is_a_read_fault(rt: HostRuntime) -> Result<(), Fail> {
    assert_eq!(rt; first_wrong_read(&rt, rt.alloc())?, None);
    Ok(())
}

// Each line is offered whole, so a sink without a step has taken the lines before the write that fails.
#[test]
fn a_line_that_fails_is_a_write_fault(rt: HostRuntime) -> Result<(), Fail> {
    assert_eq!(rt; first_wrong_write(&rt, rt.alloc(), false)?, None);
    Ok(())
}

// A sink that takes 7 bytes at a time has taken the steps before the write that fails.
#[test]
fn a_step_that_fails_is_a_write_fault(rt: HostRuntime) -> Result<(), Fail> {
    assert_eq!(rt; first_wrong_write(&rt, rt.alloc(), true)?, None);
    Ok(())
}
