// A whole piece of bytes.
ghost use Rattle.std.specs.Prelude.{◌≡◌, ◌≤◌, OnOk, OnErr};
ghost use Rattle.outside_io.specs.Streams.{one_more, IsTaken, TakesStart};

use crate::{Failed, Sink};

/// The sink failed before it had taken all.
#[derive(Clone, Copy, Debug, PartialEq, Eq)]
pub struct WriteFault;

impl From<Failed> for WriteFault {
    fn from(_: Failed) -> Self {
        WriteFault
    }
}

/// Writes all of the bytes, or stops at the first fault. The sink has then taken only the first of them,
/// perhaps none.
pub fn write_all<K: Sink>(sink: &mut K, bytes: &[u8]) -> Result<(), WriteFault>
    ensures all { OnOk result (IsTaken (K.taken sink.old) (K.taken sink.new) bytes.now) }
    ensures start { OnErr result (TakesStart (K.taken sink.old) (K.taken sink.new) bytes.now) }
    ensures quiet { OnOk result (K.faults sink.new ≡ K.faults sink.old) }
    ensures fault_only_where_faulted { OnErr result (K.faults sink.new ≡ one_more (K.faults sink.old)) }
    ensures counted { K.faults sink.old ≤ K.faults sink.new }
{
    let mut done = 0;
    while done < bytes.len() {
        done += sink.write(&bytes[done..])?;
    }
    Ok(())
}
