// A text that is written line by line.
ghost use Rattle.std.specs.Prelude.{◌≡◌, OnOk, OnErr};
ghost use Rattle.outside_io.specs.Streams.{one_more, IsTaken, TakesStart};

use outside_io::{Sink, WriteFault, write_all};

/// Writes the text, one write a line: `ends` has the place after each line. What stands after the last one is written
/// too. A sink with a buffer is handed the whole text at once.
pub(crate) fn write_lines<K: Sink>(
    sink: &mut K,
    text: &[u8],
    ends: &[usize],
) -> Result<(), WriteFault>
    ensures all { OnOk result (IsTaken (K.taken sink.old) (K.taken sink.new) text.now) }
    ensures start { OnErr result (TakesStart (K.taken sink.old) (K.taken sink.new) text.now) }
    ensures quiet { OnOk result (K.faults sink.new ≡ K.faults sink.old) }
    ensures fault_only_where_faulted { OnErr result (K.faults sink.new ≡ one_more (K.faults sink.old)) }
{
    if sink.is_buffered() {
        return write_all(sink, text);
    }
    let mut done = 0;
    for end in ends {
        let (_, left) = text.split_at(done);
        let (line, _) = left.split_at(end.saturating_sub(done).min(left.len()));
        write_all(sink, line)?;
        done += line.len();
    }
    let (_, left) = text.split_at(done);
    write_all(sink, left)
}
