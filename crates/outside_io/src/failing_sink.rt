// A sink that fails at given writes.
ghost use Rattle.std.specs.Prelude.{◌≡◌, ◌<◌, ◌≤◌, ◌↔◌, ◌⊎◌, Some, None, [], length, Contains, IsErr, IfOk, IfSome};
ghost use Rattle.outside_io.specs.Streams.{one_more};
ghost use Rattle.outside_io.specs.Failing.{SinkPlan, sink_plan, let_in, after_piece};

use crate::{Failed, Sink};
use key_names::NoMemory;
use std::alloc::Global;
use std::marker::Model;

/// Keeps bytes in a room of a fixed size, and fails at the listed writes, counted from 1.
#[derive(Debug, Drop)]
pub struct FailingSink {
    bytes: Vec<u8>,
    room: usize,
    step: Option<usize>,
    fails: Vec<u64>,
    writes: u64,
    faults: u64,
}

impl Model for FailingSink {
    ghost use Rattle.std.specs.Prelude.{◌+◌, ◌≤◌, ◌<◌, IfSome, vec_len, vec_capacity};
    ghost use Rattle.outside_io.specs.Failing.{SinkPlan, sink_plan};

    ghost Value = { SinkPlan };

    ghost view = { λ s. sink_plan s.bytes.items s.room s.step s.fails.items s.writes s.faults };

    ghost invariant = { λ s. (vec_len s.bytes + s.room ≤ vec_capacity s.bytes) × IfSome s.step (λ step. 0 < step) };
}

impl FailingSink {
    /// A sink that takes each piece whole, and fails also at one that does not fit in the room that is left.
    /// The memory of the room is taken here.
    pub fn with_room(alloc: Global, room: usize, fails: Vec<u64>) -> Result<FailingSink, NoMemory>
        ensures { IfOk result (λ sink. sink ≡ sink_plan [] room None fails.items 0 0) }
    {
        FailingSink::empty(alloc, room, None, fails)
    }

    /// A sink that takes at most `step` bytes of a piece, and fails also where it is offered a byte and no
    /// room is left. The memory of the room is taken here.
    pub fn with_step(
        alloc: Global,
        room: usize,
        step: usize,
        fails: Vec<u64>,
    ) -> Result<FailingSink, NoMemory>
        requires { 0 < step }
        ensures { IfOk result (λ sink. sink ≡ sink_plan [] room (Some step) fails.items 0 0) }
    {
        FailingSink::empty(alloc, room, Some(step), fails)
    }

    // A sink that has taken nothing yet.
    fn empty(
        alloc: Global,
        room: usize,
        step: Option<usize>,
        fails: Vec<u64>,
    ) -> Result<FailingSink, NoMemory>
        requires { IfSome step (λ most. 0 < most) }
        ensures { IfOk result (λ sink. sink ≡ sink_plan [] room step fails.items 0 0) }
    {
        Ok(FailingSink {
            bytes: Vec::with_capacity(alloc, room)?,
            room,
            step,
            fails,
            writes: 0,
            faults: 0,
        })
    }

    /// The bytes that were taken.
    pub fn taken(&self) -> &[u8]
        ensures { result.now ≡ self.now.taken }
    {
        self.bytes.as_slice()
    }
}

// How many of so many bytes are let in. None if a write of them fails for lack of room.
fn let_in(step: Option<usize>, room: usize, offered: usize) -> Option<usize>
    ensures { result ≡ let_in step room offered }
{
    match step {
        None if offered <= room => Some(offered),
        None => None,
        Some(_) if offered == 0 => Some(0),
        Some(_) if room == 0 => None,
        Some(step) => Some(offered.min(step).min(room)),
    }
}

impl Sink for FailingSink {
    ghost taken = { λ s. Some s.taken };

    ghost faults = { λ s. s.faults };

    fn write(&mut self, bytes: &[u8]) -> Result<usize, Failed>
        ensures planned { IsErr result ↔ (Contains self.old.fails (one_more self.old.writes) ⊎ (let_in self.old.step self.old.room (length bytes.now) ≡ None)) }
        ensures count { IfOk result (λ n. let_in self.old.step self.old.room (length bytes.now) ≡ Some n) }
        ensures most { IfOk result (λ n. n ≤ length bytes.now) }
        ensures some { IfOk result (λ n. 0 < length bytes.now → 0 < n) }
        ensures next { self.new ≡ after_piece self.old bytes.now result }
        ensures counted { self.old.faults ≤ self.new.faults }
    {
        self.writes = self.writes.saturating_add(1);
        let fits = let_in(self.step, self.room, bytes.len());
        match fits {
            Some(n) if !self.fails.contains(&self.writes) => {
                match self.bytes.extend_from_slice(&bytes[..n]) {
                    Ok(()) => {
                        self.room -= n;
                        Ok(n)
                    }
                    Err(_) => unreachable!(),
                }
            }
            _ => {
                self.faults = self.faults.saturating_add(1);
                Err(Failed)
            }
        }
    }
}
