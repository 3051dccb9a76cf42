// Where bytes come from.
ghost use Rattle.std.specs.Prelude.{◌≡◌, ◌≤◌, ℕ, List, Option, length, take, IfOk, OnOk, OnErr};
ghost use Rattle.outside_io.specs.Streams.{one_more, IsRead, EndsExactly};

use crate::Failed;

/// Gives bytes piece by piece. A read of 0 bytes into a buffer with room is the end.
pub trait Source {
    /// The bytes that are left, if the source reports them.
    ghost rest: { Self → Option (List ℕ) };

    /// How many reads have failed. The count stays at 2^64 - 1 once it is there.
    ghost faults: { Self → ℕ };

    /// Fills the start of `buf`, and returns how many bytes it gave.
    fn read(&mut self, buf: &mut [u8]) -> Result<usize, Failed>
        ensures room { IfOk result (λ n. n ≤ length buf.new) }
        ensures given { IfOk result (λ n. IsRead (rest self.old) (rest self.new) (take n buf.new)) }
        ensures end { IfOk result (EndsExactly (rest self.old) (length buf.new)) }
        ensures quiet { OnOk result (faults self.new ≡ faults self.old) }
        ensures failed { OnErr result (faults self.new ≡ one_more (faults self.old)) }
        ensures unchanged { OnErr result (rest self.new ≡ rest self.old) }
        ensures counted { faults self.old ≤ faults self.new };
}
