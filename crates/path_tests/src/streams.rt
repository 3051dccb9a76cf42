// Readings and writings of a whole input and output, by rows; tests/program/broken_streams.py breaks the program's own
// streams.
ghost use Rattle.std.specs.Prelude.{Some, ◌<◌};

use outside_io::{
    Failed, FailingSink, FailingSource, MemSink, MemSource, ReadError, Sink, Source, StdSink,
    StdSource, WriteFault, flush_counted, read_all, read_counted, write_all, write_counted,
};
use std::alloc::Global;
use std::io::{BufWriter, Read, Write};
use std::test::Fail;

/// Whether reading gives these bytes, or this error.
fn gives<S: Source>(
    alloc: Global,
    source: &mut S,
    limit: usize,
    wanted: Result<&[u8], ReadError>,
) -> bool {
    match (read_all(alloc, source, limit), wanted) {
        (Ok(bytes), Ok(wanted)) => bytes.as_slice() == wanted,
        (Err(error), Err(wanted)) => error == wanted,
        _ => false,
    }
}

/// Bytes in memory, a limit, and what is read.
const READINGS: [(&[u8], usize, Result<&[u8], ReadError>); 4] = [
    (b"bytes", 5, Ok(b"bytes")),
    (b"bytes", 4, Err(ReadError::TooLong)),
    (b"bytes", 0, Err(ReadError::TooLong)),
    (b"", 0, Ok(b"")),
];

#[test]
fn reads_to_the_end_up_to_the_limit(rt: HostRuntime) -> Result<(), Fail> {
    let alloc = rt.alloc();
    for (bytes, limit, wanted) in READINGS {
        let mut source = MemSource::new(bytes.to_vec(alloc)?);
        assert!(rt; gives(alloc, &mut source, limit, wanted));
    }
    Ok(())
}

/// The reads, of at most two bytes, that fail, and what is read. The fourth read would find the end.
const FAILING_READS: [(&[u64], Result<&[u8], ReadError>); 4] = [
    (&[], Ok(b"bytes")),
    (&[2], Err(ReadError::Fault)),
    (&[4], Err(ReadError::Fault)),
    (&[5], Ok(b"bytes")),
];

#[test]
fn reads_pieces_and_stops_at_a_fault(rt: HostRuntime) -> Result<(), Fail> {
    let alloc = rt.alloc();
    for (fails, wanted) in FAILING_READS {
        let mut source = FailingSource::new(b"bytes".to_vec(alloc)?, 2, fails.to_vec(alloc)?);
        assert!(rt; gives(alloc, &mut source, 100, wanted));
    }
    Ok(())
}

/// A call of a sink, and the answer that it is to have.
#[derive(Clone, Copy)]
enum Call {
    Write(&'static [u8], Result<usize, Failed>),
    WriteAll(&'static [u8], Result<(), WriteFault>),
}

/// Whether each of the calls has its answer.
fn have_answers<K: Sink>(sink: &mut K, calls: &[Call]) -> bool {
    for call in calls {
        let is_right = match *call {
            Call::Write(bytes, answer) => sink.write(bytes) == answer,
            Call::WriteAll(bytes, answer) => write_all(sink, bytes) == answer,
        };
        if !is_right {
            return false;
        }
    }
    true
}

// A piece that does not fit is not begun.
const WHOLE_PIECES: [Call; 3] = [
    Call::WriteAll(b"abc", Ok(())),
    Call::WriteAll(b"de", Err(WriteFault)),
    Call::WriteAll(b"f", Ok(())),
];

#[test]
fn writes_whole_pieces_into_room(rt: HostRuntime) -> Result<(), Fail> {
    let mut sink = MemSink::with_room(rt.alloc(), 4)?;
    assert!(rt; have_answers(&mut sink, &WHOLE_PIECES));
    assert_eq!(rt; sink.taken(), b"abcf".as_slice());
    Ok(())
}

// Without a step a piece is taken whole or not at all.
const FAULT_AND_ROOM: [Call; 5] = [
    Call::Write(b"abc", Ok(3)),
    Call::Write(b"d", Err(Failed)),
    Call::Write(b"de", Err(Failed)),
    Call::Write(b"f", Ok(1)),
    Call::Write(b"", Ok(0)),
];

#[test]
fn a_sink_fails_at_its_writes_and_for_want_of_room(rt: HostRuntime) -> Result<(), Fail> {
    let alloc = rt.alloc();
    let mut sink = FailingSink::with_room(alloc, 4, [2].to_vec(alloc)?)?;
    assert!(rt; have_answers(&mut sink, &FAULT_AND_ROOM));
    assert_eq!(rt; sink.taken(), b"abcf".as_slice());
    Ok(())
}

// A step takes at most three bytes, into room for seven; the fifth write fails.
const STEPS: [Call; 5] = [
    Call::WriteAll(b"abcde", Ok(())),
    Call::Write(b"fgh", Ok(2)),
    Call::Write(b"h", Err(Failed)),
    Call::Write(b"", Err(Failed)),
    Call::Write(b"", Ok(0)),
];

#[test]
fn a_sink_takes_steps(rt: HostRuntime) -> Result<(), Fail> {
    let alloc = rt.alloc();
    let mut sink = FailingSink::with_step(alloc, 7, 3, [5].to_vec(alloc)?)?;
    assert!(rt; have_answers(&mut sink, &STEPS));
    assert_eq!(rt; sink.taken(), b"abcdefg".as_slice());
    Ok(())
}

const A_LINE: [Call; 2] = [Call::WriteAll(b"a line\n", Ok(())), Call::Write(b"", Ok(0))];

#[test]
fn takes_the_standard_streams(rt: HostRuntime) -> Result<(), Fail> {
    let mut sink = StdSink::new(&rt);
    assert!(rt; have_answers(&mut sink, &A_LINE));
    assert_eq!(rt; sink.flush(), Ok(()));
    assert_eq!(rt; StdSource::new(&rt).read(&mut []), Ok(0));
    Ok(())
}

/// A writer that takes one byte at a time, and none once its room is used up.
#[derive(Drop)]
struct ByteWriter {
    bytes: Vec<u8>,
    room: usize,
}

impl Write for ByteWriter {
    ghost contents = { λ w. Some w.bytes.items };

    fn write(&mut self, buf: &[u8]) -> std::io::Result<usize> {
        let Some(first) = buf.first() else {
            return Ok(0);
        };
        if self.bytes.len() < self.room && self.bytes.push(*first).is_ok() {
            return Ok(1);
        }
        Ok(0)
    }

    fn flush(&mut self) -> std::io::Result<()> {
        Ok(())
    }
}

/// The code of the standard output over that writer.
#[derive(Drop)]
struct ByteOutput {
    output: ByteWriter,
    faults: u64,
}

impl Sink for ByteOutput {
    ghost taken = { λ s. Some s.output.bytes.items };

    ghost faults = { λ s. s.faults };

    fn write(&mut self, bytes: &[u8]) -> Result<usize, Failed> {
        write_counted(&mut self.output, &mut self.faults, bytes)
    }
}

// Each short write is reported as short, so all bytes are taken; a writer that takes none has failed, after the start
// of a piece.
const SHORT_WRITES: [Call; 3] = [
    Call::WriteAll(b"abc", Ok(())),
    Call::Write(b"", Ok(0)),
    Call::WriteAll(b"def", Err(WriteFault)),
];

#[test]
fn writes_on_behind_short_writes(rt: HostRuntime) -> Result<(), Fail> {
    let output = ByteWriter {
        bytes: Vec::new(rt.alloc()),
        room: 5,
    };
    let mut sink = ByteOutput { output, faults: 0 };
    assert!(rt; have_answers(&mut sink, &SHORT_WRITES));
    assert_eq!(rt; sink.output.bytes.as_slice(), b"abcde".as_slice());
    assert_eq!(rt; sink.faults, 1);
    Ok(())
}

// A buffer keeps short pieces back until it is flushed. If the writer does not take them, the flush fails.
#[test]
fn hands_on_what_a_buffer_has(rt: HostRuntime) -> Result<(), Fail> {
    let writer = ByteWriter {
        bytes: Vec::new(rt.alloc()),
        room: 5,
    };
    let mut output = BufWriter::new(rt.alloc(), writer)?;
    let mut faults = 0;
    assert_eq!(rt; write_counted(&mut output, &mut faults, b"abc"), Ok(3));
    assert!(rt; output.get_ref().bytes.is_empty());
    assert_eq!(rt; flush_counted(&mut output, &mut faults), Ok(()));
    assert_eq!(rt; output.get_ref().bytes.as_slice(), b"abc".as_slice());
    assert_eq!(rt; write_counted(&mut output, &mut faults, b"def"), Ok(3));
    assert_eq!(rt; flush_counted(&mut output, &mut faults), Err(Failed));
    assert_eq!(rt; output.get_ref().bytes.as_slice(), b"abcde".as_slice());
    assert_eq!(rt; faults, 1);
    Ok(())
}

/// A reader that gives a byte, then fails, then is at its end.
#[derive(Drop)]
struct BrokenReader {
    reads: u8,
}

impl Read for BrokenReader {
    fn read(&mut self, buf: &mut [u8]) -> std::io::Result<usize> {
        self.reads = self.reads.saturating_add(1);
        match (self.reads, buf.first_mut()) {
            (1, Some(first)) => {
                *first = 7;
                Ok(1)
            }
            (2, _) => Err(std::io::Error::from(std::io::ErrorKind::Other)),
            _ => Ok(0),
        }
    }
}

/// Whether three reads have these answers, and so many faults are counted.
fn reads<R: Read>(input: &mut R, wanted: [Result<usize, Failed>; 3], most: u64) -> bool {
    let (mut faults, mut buffer) = (0, [0u8; 4]);
    let answers = [
        read_counted(input, &mut faults, &mut buffer),
        read_counted(input, &mut faults, &mut buffer),
        read_counted(input, &mut faults, &mut buffer),
    ];
    answers == wanted && faults == most
}

// A read that fails is not the end.
#[test]
fn counts_a_failed_read(rt: HostRuntime) -> Result<(), Fail> {
    let mut input = BrokenReader { reads: 0 };
    assert!(rt; reads(&mut input, [Ok(1), Err(Failed), Ok(0)], 1));
    Ok(())
}
