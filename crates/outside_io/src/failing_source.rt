// A source that fails at given reads.
ghost use Rattle.std.specs.Prelude.{◌≡◌, ◌<◌, ◌≤◌, ◌↔◌, Some, length, take, min, Contains, IsErr, IfOk};
ghost use Rattle.outside_io.specs.Streams.{one_more, EndsExactly};
ghost use Rattle.outside_io.specs.Failing.{Plan, plan, after_read};

use crate::memory::copy_start;
use crate::{Failed, Source};
use std::marker::Model;

/// Gives at most so many bytes of a list at a time, and fails at the listed reads, counted from 1.
#[derive(Debug, Drop)]
pub struct FailingSource {
    bytes: Vec<u8>,
    given: usize,
    step: usize,
    fails: Vec<u64>,
    reads: u64,
    faults: u64,
}

impl Model for FailingSource {
    ghost use Rattle.std.specs.Prelude.{◌≤◌, ◌<◌, length, drop};
    ghost use Rattle.outside_io.specs.Failing.{Plan, plan};

    ghost Value = { Plan };

    ghost view = { λ s. plan (drop s.given s.bytes.items) s.step s.fails.items s.reads s.faults };

    ghost invariant = { λ s. (s.given ≤ length s.bytes.items) × (0 < s.step) };
}

impl FailingSource {
    pub fn new(bytes: Vec<u8>, step: usize, fails: Vec<u64>) -> FailingSource
        requires { 0 < step }
        ensures { result ≡ plan bytes.items step fails.items 0 0 }
    {
        FailingSource {
            bytes,
            given: 0,
            step,
            fails,
            reads: 0,
            faults: 0,
        }
    }
}

impl Source for FailingSource {
    ghost rest = { λ s. Some s.rest };

    ghost faults = { λ s. s.faults };

    fn read(&mut self, buf: &mut [u8]) -> Result<usize, Failed>
        ensures planned { IsErr result ↔ Contains self.old.fails (one_more self.old.reads) }
        ensures count { IfOk result (λ n. n ≡ min (min (length self.old.rest) (length buf.old)) self.old.step) }
        ensures given { IfOk result (λ n. take n buf.new ≡ take n self.old.rest) }
        ensures next { self.new ≡ after_read self.old result }
        ensures end { IfOk result (EndsExactly (Some self.old.rest) (length buf.new)) }
        ensures counted { self.old.faults ≤ self.new.faults }
    {
        self.reads = self.reads.saturating_add(1);
        if self.fails.contains(&self.reads) {
            self.faults = self.faults.saturating_add(1);
            return Err(Failed);
        }
        let n = copy_start(&self.bytes[self.given..], buf, self.step);
        self.given += n;
        Ok(n)
    }
}
