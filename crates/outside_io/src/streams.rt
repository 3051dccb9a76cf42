// Reads and writes of a reader and a writer of the standard library, whose failures are counted.
ghost use Rattle.std.specs.Prelude.{◌≡◌, ◌<◌, ◌≤◌, [], length, IfOk, OnOk, OnErr};
ghost use Rattle.std.specs.Io.Buffered.{writer_buffer, writer_contents};
ghost use Rattle.std.specs.Io.KnownBytes.{Keeps, ReadConsumes, WriteAppends};
ghost use Rattle.outside_io.specs.StandardStreams.{count_after};
ghost use Rattle.outside_io.specs.Streams.{one_more};

use crate::Failed;
use std::io::{BufWriter, Read, Write};

/// Reads once. A failure of the reader is counted, and is no end of its bytes.
pub fn read_counted<R: Read>(
    input: &mut R,
    faults: &mut u64,
    buf: &mut [u8],
) -> Result<usize, Failed>
    ensures bytes { ReadConsumes (R.remaining input.old) (R.remaining input.new) result buf.new }
    ensures room { IfOk result (λ n. n ≤ length buf.new) }
    ensures count { faults.new ≡ count_after faults.old result }
    ensures counted { faults.old ≤ faults.new }
{
    match input.read(buf) {
        Ok(n) => Ok(n),
        Err(_) => {
            *faults = faults.saturating_add(1);
            Err(Failed)
        }
    }
}

/// Writes once. A failure of the writer is counted; to take none of a piece that has some is one.
pub fn write_counted<W: Write>(
    output: &mut W,
    faults: &mut u64,
    bytes: &[u8],
) -> Result<usize, Failed>
    ensures bytes { WriteAppends (W.contents output.old) (W.contents output.new) result bytes.now }
    ensures most { IfOk result (λ n. n ≤ length bytes.now) }
    ensures some { IfOk result (λ n. 0 < length bytes.now → 0 < n) }
    ensures count { faults.new ≡ count_after faults.old result }
    ensures counted { faults.old ≤ faults.new }
{
    if let Ok(n) = output.write(bytes)
        && (n > 0 || bytes.is_empty())
    {
        return Ok(n);
    }
    *faults = faults.saturating_add(1);
    Err(Failed)
}

/// Writes out what a buffer has kept back; after `Ok` nothing is left in it. A failure of the writer is counted.
pub fn flush_counted<W: Write + Drop>(
    output: &mut BufWriter<W>,
    faults: &mut u64,
) -> Result<(), Failed>
    ensures bytes { Keeps (writer_contents W.contents output.old) (writer_contents W.contents output.new) }
    ensures emptied { OnOk result (writer_buffer output.new ≡ []) }
    ensures quiet { OnOk result (faults.new ≡ faults.old) }
    ensures failed { OnErr result (faults.new ≡ one_more faults.old) }
    ensures counted { faults.old ≤ faults.new }
{
    if output.flush().is_ok() {
        return Ok(());
    }
    *faults = faults.saturating_add(1);
    Err(Failed)
}
