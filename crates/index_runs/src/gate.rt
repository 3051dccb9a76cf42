// Gates between threads: numbers that rise, and that others wait for.
use std::sync::atomic::{AtomicU64, Ordering};
use std::thread::yield_now;

/// A thread looks so often before it gives up, so that a run that hangs ends, with an output that its script refuses.
const TURNS: u32 = 20_000_000;

#[derive(Drop)]
pub(crate) struct Gate {
    raised: AtomicU64,
}

impl Gate {
    pub(crate) fn new() -> Gate {
        Gate {
            raised: AtomicU64::new(0),
        }
    }

    /// Raises the number by one.
    pub(crate) fn raise(&self) {
        self.raised.fetch_add(1, Ordering::SeqCst);
    }

    /// The number.
    pub(crate) fn raised(&self) -> u64 {
        self.raised.load(Ordering::SeqCst)
    }

    /// Waits until the number was raised so often. Returns whether it was: there is a bound on turns.
    pub(crate) fn wait_for(&self, number: u64) -> bool {
        for _ in 0..TURNS {
            if self.raised() >= number {
                return true;
            }
            yield_now();
        }
        false
    }
}

/// What the passes of a run report to each other.
#[derive(Drop)]
pub(crate) struct Gates {
    /// Raised by a reader for each of its snapshots: by one that is held once it is open, by all others before that.
    pub(crate) come: Gate,
    /// Raised by a reader that has closed its snapshot.
    pub(crate) gone: Gate,
    /// Raised by each writer that has made its requests.
    pub(crate) done: Gate,
    /// Raised by each reader that makes no more visits, and by each writer that has made its last updates.
    pub(crate) ended: Gate,
    /// Raised by each pass whose removal has returned.
    pub(crate) back: Gate,
}

impl Gates {
    pub(crate) fn new() -> Gates {
        Gates {
            come: Gate::new(),
            gone: Gate::new(),
            done: Gate::new(),
            ended: Gate::new(),
            back: Gate::new(),
        }
    }
}

/// Lets other threads run, so often.
pub(crate) fn stay(turns: u32) {
    for _ in 0..turns {
        yield_now();
    }
}
