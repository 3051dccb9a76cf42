// Numbers that look random, and are the same for the same seed.

/// A generator of numbers: three shifts a number (xorshift, by Marsaglia).
#[derive(Clone, Copy, Drop)]
pub(crate) struct Random {
    state: u64,
}

impl Random {
    pub(crate) fn of(seed: u64) -> Random {
        Random {
            state: seed.wrapping_mul(0x9E37_79B9_7F4A_7C15) | 1,
        }
    }

    /// The next number, below the bound; 0 if the bound is 0.
    pub(crate) fn below(&mut self, bound: u64) -> u64 {
        self.state ^= self.state << 13;
        self.state ^= self.state >> 7;
        self.state ^= self.state << 17;
        match bound {
            0 => 0,
            _ => (self.state >> 20) % bound,
        }
    }
}
