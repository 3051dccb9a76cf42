// What a run is: what its passes do, and the numbers of it.
use crate::random::Random;
use index_words::PassSize;
use std::alloc::{AllocError, Global};

/// What the passes do.
#[derive(Clone, Copy, Drop)]
pub(crate) enum Task {
    /// Each makes its requests.
    Requests,
    /// The same, and nothing of it is kept.
    Timed,
    /// One makes its requests, and then updates while the others are held inside a snapshot.
    Held,
    /// The same, and all updates are puts.
    HeldPuts,
    /// Each request is a single try of a put.
    Tries,
    /// One puts and removes by turns, while readers come and go.
    Visits,
    /// They have few slots, empty the map when all is done, and report which of their slots are free.
    Few,
    /// Some remove a key whose successor is further down, while readers are held inside snapshots.
    Far,
    /// One puts all keys, and then all remove.
    Deep,
    /// Four of them enter and leave sections of the table, and look at each other.
    Sections,
    /// All but one wait for that one, which stops in the middle of an update.
    Waits,
}

impl Task {
    /// The task with the name that the first argument gives.
    pub(crate) fn of(word: &str) -> Option<Task> {
        Some(match word {
            "run" => Task::Requests,
            "time" => Task::Timed,
            "held" => Task::Held,
            "puts" => Task::HeldPuts,
            "tries" => Task::Tries,
            "visits" => Task::Visits,
            "few" => Task::Few,
            "far" => Task::Far,
            "deep" => Task::Deep,
            "sections" => Task::Sections,
            "waits" => Task::Waits,
            _ => return None,
        })
    }
}

/// A run.
#[derive(Clone, Copy, Drop)]
pub(crate) struct Run {
    pub(crate) task: Task,
    /// So many passes make requests, and the ones after them only read.
    pub(crate) passes: u32,
    pub(crate) readers: u32,
    /// The slots of each pass that makes requests.
    pub(crate) nodes: u32,
    pub(crate) entries: u32,
    /// The requests of each of them, with lines from 1 on.
    pub(crate) requests: u32,
    /// Keys are below this number.
    pub(crate) keys: u32,
    /// Of a hundred requests so many are updates, and so many listings; all others look for one key.
    pub(crate) updates: u32,
    pub(crate) listings: u32,
    /// A listing has at most so many pairs.
    pub(crate) page: u32,
    /// So many updates are made while readers are held.
    pub(crate) meanwhile: u32,
    /// So often a pass lets others run, or so many things it does between two meetings.
    pub(crate) turns: u32,
    pub(crate) seed: u32,
}

/// The run that is made without arguments. Any other run has its numbers where they are not named.
pub(crate) const SMALL: Run = Run {
    task: Task::Timed,
    passes: 3,
    readers: 0,
    nodes: 200,
    entries: 1000,
    requests: 300,
    keys: 5,
    updates: 70,
    listings: 10,
    page: 10,
    meanwhile: 0,
    turns: 0,
    seed: 1,
};

/// An update that is asked for.
#[derive(Clone, Copy, Drop)]
pub(crate) enum Asked {
    Put { key: u64, val: u64 },
    PutNew { key: u64, val: u64 },
    Remove { key: u64 },
}

impl Run {
    /// Sets the number of this name. Returns whether there is one.
    pub(crate) fn set(&mut self, name: &str, number: u32) -> bool {
        match name {
            "passes" => self.passes = number,
            "readers" => self.readers = number,
            "nodes" => self.nodes = number,
            "entries" => self.entries = number,
            "requests" => self.requests = number,
            "keys" => self.keys = number,
            "updates" => self.updates = number,
            "listings" => self.listings = number,
            "page" => self.page = number,
            "meanwhile" => self.meanwhile = number,
            "turns" => self.turns = number,
            "seed" => self.seed = number,
            _ => return false,
        }
        true
    }

    /// The size of each pass. A reader makes no update, and has as few slots as a pass may have.
    pub(crate) fn sizes(&self, alloc: Global) -> Result<Vec<PassSize>, AllocError> {
        let mut sizes = Vec::new(alloc);
        let last = self.meanwhile.max(self.keys.saturating_mul(2));
        for _ in 0..self.passes {
            sizes.push(PassSize {
                nodes: self.nodes,
                entries: self.entries,
                calls: self.requests.saturating_add(last),
            })?;
        }
        for _ in 0..self.readers {
            sizes.push(PassSize {
                nodes: 1,
                entries: 4,
                calls: 1,
            })?;
        }
        Ok(sizes)
    }

    /// Of a hundred requests so many are updates: all of them if slots are few.
    pub(crate) fn updates_of_hundred(&self) -> u64 {
        match self.task {
            Task::Few => 100,
            _ => u64::from(self.updates),
        }
    }

    /// The random numbers of a pass.
    pub(crate) fn random(&self, client: u32) -> Random {
        Random::of(u64::from(self.seed).wrapping_add(u64::from(client)))
    }

    /// The update of a line of a pass: a put and a removal by turns, or always a put, or a random one, as the task is.
    pub(crate) fn asked(&self, client: u32, line: u32, random: &mut Random) -> Asked {
        let key = self.key(client, random);
        match self.task {
            Task::Visits if line % 2 == 0 => Asked::Remove { key },
            Task::Visits | Task::HeldPuts => Asked::Put {
                key,
                val: random.below(1_000_000),
            },
            _ => drawn(random, key),
        }
    }

    /// A random key. If slots are few it is one of the pass's own: otherwise removals would soon bring all slots to one
    /// pass, and all others would be refused.
    fn key(&self, client: u32, random: &mut Random) -> u64 {
        match self.task {
            Task::Few => random
                .below(u64::from(self.keys / self.passes.max(1)))
                .wrapping_mul(u64::from(self.passes))
                .wrapping_add(u64::from(client)),
            _ => random.below(u64::from(self.keys)),
        }
    }
}

/// A random update of the key: two puts for each removal, and one of these two is of a new key alone.
fn drawn(random: &mut Random, key: u64) -> Asked {
    if random.below(3) == 0 {
        return Asked::Remove { key };
    }
    let val = random.below(1_000_000);
    if random.below(2) == 0 {
        Asked::PutNew { key, val }
    } else {
        Asked::Put { key, val }
    }
}
