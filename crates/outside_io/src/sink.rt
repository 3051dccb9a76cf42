// Where bytes go.
ghost use Rattle.std.specs.Prelude.{◌≡◌, ◌<◌, ◌≤◌, ℕ, List, Option, length, take, IfOk, OnOk, OnErr};
ghost use Rattle.outside_io.specs.Streams.{one_more, IsTaken};

use crate::Failed;

/// Takes bytes piece by piece, at least one of a piece that has any.
pub trait Sink {
    /// The bytes that were taken so far, if the sink reports them.
    ghost taken: { Self → Option (List ℕ) };

    /// How many writes have failed. The count stays at 2^64 - 1 once it is there.
    ghost faults: { Self → ℕ };

    /// Takes the start of `bytes`, and returns how many it took.
    fn write(&mut self, bytes: &[u8]) -> Result<usize, Failed>
        ensures most { IfOk result (λ n. n ≤ length bytes.now) }
        ensures some { IfOk result (λ n. 0 < length bytes.now → 0 < n) }
        ensures took { IfOk result (λ n. IsTaken (taken self.old) (taken self.new) (take n bytes.now)) }
        ensures quiet { OnOk result (faults self.new ≡ faults self.old) }
        ensures failed { OnErr result (faults self.new ≡ one_more (faults self.old)) }
        ensures unchanged { OnErr result (taken self.new ≡ taken self.old) }
        ensures counted { faults self.old ≤ faults self.new };

    /// Whether it buffers small pieces. Where one line ends and the next begins is not seen after a buffer, so such a
    /// sink is given the lines of a text in one write, which saves a call of the operating system for each long line.
    fn is_buffered(&self) -> bool {
        false
    }
}
