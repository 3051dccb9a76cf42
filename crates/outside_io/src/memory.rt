// A source and a sink in memory.
ghost use Rattle.std.specs.Prelude.{◌≡◌, ◌≤◌, ◌↔◌, Some, Ok, [], ◌++◌, length, take, drop, min, IfOk, IsOk};
ghost use Rattle.outside_io.specs.Streams.{EndsExactly};
ghost use Rattle.outside_io.specs.Memory.{Store, store, after_write};

use crate::{Failed, Sink, Source};
use key_names::NoMemory;
use std::alloc::Global;
use std::marker::Model;

/// Gives the bytes of a list, as many at a time as fit. It never fails.
#[derive(Debug, Drop)]
pub struct MemSource {
    bytes: Vec<u8>,
    given: usize,
}

impl Model for MemSource {
    ghost use Rattle.std.specs.Prelude.{List, ℕ, ◌≤◌, length, drop};

    // the bytes that are left
    ghost Value = { List ℕ };

    ghost view = { λ s. drop s.given s.bytes.items };

    ghost invariant = { λ s. s.given ≤ length s.bytes.items };
}

impl MemSource {
    pub fn new(bytes: Vec<u8>) -> MemSource
        ensures { result ≡ bytes.items }
    {
        MemSource { bytes, given: 0 }
    }
}

impl Source for MemSource {
    ghost rest = { Some };

    ghost faults = { λ _. 0 };

    fn read(&mut self, buf: &mut [u8]) -> Result<usize, Failed>
        ensures count { result ≡ Ok (min (length self.old) (length buf.old)) }
        ensures room { IfOk result (λ n. n ≤ length buf.new) }
        ensures given { IfOk result (λ n. self.old ≡ take n buf.new ++ self.new) }
        ensures end { IfOk result (EndsExactly (Some self.old) (length buf.new)) }
    {
        let n = copy_start(&self.bytes[self.given..], buf, usize::MAX);
        self.given += n;
        Ok(n)
    }
}

/// Copies the start of `from` to the start of `to`: as much as both hold, and at most `most` bytes.
pub(crate) fn copy_start(from: &[u8], to: &mut [u8], most: usize) -> usize
    ensures count { result ≡ min (min (length from.now) (length to.old)) most }
    ensures copied { take result to.new ≡ take result from.now }
{
    let n = from.len().min(to.len()).min(most);
    to[..n].copy_from_slice(&from[..n]);
    n
}

/// Keeps the bytes of each piece that fits in the room that is left, and fails at any other.
#[derive(Debug, Drop)]
pub struct MemSink {
    bytes: Vec<u8>,
    room: usize,
    faults: u64,
}

impl Model for MemSink {
    ghost use Rattle.std.specs.Prelude.{◌+◌, ◌≤◌, vec_len, vec_capacity};
    ghost use Rattle.outside_io.specs.Memory.{Store, store};

    ghost Value = { Store };

    ghost view = { λ s. store s.bytes.items s.room s.faults };

    ghost invariant = { λ s. vec_len s.bytes + s.room ≤ vec_capacity s.bytes };
}

impl MemSink {
    /// An empty sink with room for so many bytes, whose memory is taken here.
    pub fn with_room(alloc: Global, room: usize) -> Result<MemSink, NoMemory>
        ensures { IfOk result (λ sink. sink ≡ store [] room 0) }
    {
        Ok(MemSink {
            bytes: Vec::with_capacity(alloc, room)?,
            room,
            faults: 0,
        })
    }

    /// The bytes that were taken.
    pub fn taken(&self) -> &[u8]
        ensures { result.now ≡ self.now.taken }
    {
        self.bytes.as_slice()
    }
}

impl Sink for MemSink {
    ghost taken = { λ s. Some s.taken };

    ghost faults = { λ s. s.faults };

    fn write(&mut self, bytes: &[u8]) -> Result<usize, Failed>
        ensures fits { IsOk result ↔ (length bytes.now ≤ self.old.room) }
        ensures whole { IfOk result (λ n. n ≡ length bytes.now) }
        ensures kept { self.new ≡ after_write self.old bytes.now result }
        ensures counted { self.old.faults ≤ self.new.faults }
    {
        if bytes.len() > self.room {
            self.faults = self.faults.saturating_add(1);
            return Err(Failed);
        }
        match self.bytes.extend_from_slice(bytes) {
            Ok(()) => {
                self.room -= bytes.len();
                Ok(bytes.len())
            }
            Err(_) => unreachable!(),
        }
    }
}
