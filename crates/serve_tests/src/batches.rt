// A text of several batches of pieces, written to a sink without a buffer: each line is still a write of its own, also
// where a sheet serves for a second piece.
ghost use Rattle.std.specs.Prelude.{◌≡◌, ◌<◌, ◌≤◌, None, IfOk};

use crate::served::served;
use client_run::OpenGate;
use client_threads::Threaded;
use outside_io::{Failed, MemSource, Sink};
use serve_session::Status;
use std::alloc::Global;
use std::test::Fail;

// How many keys are put, and how often all of them are listed.
const KEYS: u64 = 100;

const LISTINGS: u64 = 200;

// Takes everything, and counts the writes that are one whole line and those that are not.
#[derive(Drop)]
struct LineSink {
    lines: u64,
    others: u64,
}

impl Sink for LineSink {
    ghost taken = { λ _. None };

    ghost faults = { λ _. 0 };

    fn write(&mut self, bytes: &[u8]) -> Result<usize, Failed> {
        let feeds = bytes.iter().filter(|byte| **byte == b'\n').count();
        if feeds == 1 && bytes.last() == Some(&b'\n') {
            self.lines = self.lines.saturating_add(1);
        } else {
            self.others = self.others.saturating_add(1);
        }
        Ok(bytes.len())
    }
}

// A client that puts keys with names of about 1,000 bytes, and lists them again and again: some 21 MB of text. That is
// more pieces than two batches have on a machine that runs up to nine threads.
fn long_session(alloc: Global) -> Result<Vec<u8>, Fail> {
    let mut name = String::new(alloc);
    for _ in 0..1000 {
        name.push('k')?;
    }
    let mut input = b"CLIENT\n".to_vec(alloc)?;
    for number in 0..KEYS {
        let line = format!(in alloc; "PUT {name}{number} 1 e1 1\n")?;
        input.extend_from_slice(line.as_bytes())?;
    }
    for _ in 0..LISTINGS {
        input.extend_from_slice(b"LIST\n")?;
    }
    Ok(input)
}

#[test]
fn each_line_of_a_later_batch_is_one_write(rt: HostRuntime) -> Result<(), Fail> {
    let alloc = rt.alloc();
    let mut source = MemSource::new(long_session(alloc)?);
    let mut sink = LineSink {
        lines: 0,
        others: 0,
    };
    let mut runner = Threaded::new();
    let words = ["run"];
    let status = served(
        &rt,
        alloc,
        &words,
        &mut source,
        &mut sink,
        &OpenGate,
        &mut runner,
    )?;
    assert_eq!(rt; status, Status::Done);
    assert_eq!(rt; sink.others, 0);
    // A line for each request and each update, and the last one.
    assert_eq!(rt; sink.lines, 2 * KEYS + LISTINGS + 1);
    Ok(())
}
