// A gate that sees the requests of the clients, and can hold them.
use crate::served::told;
use bucket_terms::Placed;
use client_run::Gate;
use client_threads::{RunInput, Runner, Threaded};
use key_names::NoMemory;
use serve_session::Status;
use shared_index::PassKey;
use std::alloc::Global;
use std::sync::Wait;
use std::sync::atomic::{AtomicBool, AtomicU32, Ordering};
use std::test::Fail;
use std::thread;
use std::thread::Threads;

// A line of one of two clients, which is held until that line of the other one was answered.
#[derive(Clone, Copy)]
pub(super) struct Held {
    pub(super) line: u32,
    pub(super) until: u32,
}

// Which requests are held, and until when.
#[derive(Clone, Copy)]
pub(super) enum Holds {
    Nothing,
    // Those of client 0, until this line of client 1 was answered.
    FirstClient { until: u32 },
    // Each, until so many have come.
    UntilCome(u32),
    // A line of client 0, and one of client 1.
    Both { first: Held, second: Held },
}

// Counts the requests that come and those that are answered. A request that is held for too many turns goes on.
#[derive(Drop)]
struct Watch {
    come: AtomicU32,
    answered: AtomicU32,
    given_up: AtomicBool,
    // Whether an answer to another line than the one that came last from its client was reported, or a line that came
    // before that was answered, or a client that the session does not have.
    astray: AtomicBool,
    // For each client the line that has come and is not answered, or 0.
    at_work: Vec<AtomicU32>,
    // The last lines of clients 0 and 1 that were answered.
    first_at: AtomicU32,
    second_at: AtomicU32,
    holds: Holds,
}

const MOST_TURNS: u32 = 1_000_000;

impl Watch {
    fn new(alloc: Global, clients: usize, holds: Holds) -> Result<Watch, Fail> {
        let mut at_work = Vec::new(alloc);
        for _ in 0..clients {
            at_work.push(AtomicU32::new(0))?;
        }
        Ok(Watch {
            come: AtomicU32::new(0),
            answered: AtomicU32::new(0),
            given_up: AtomicBool::new(false),
            astray: AtomicBool::new(false),
            at_work,
            first_at: AtomicU32::new(0),
            second_at: AtomicU32::new(0),
            holds,
        })
    }

    fn seen(&self, status: Status, is_wanted: bool) -> Seen {
        Seen {
            status,
            is_wanted,
            given_up: self.given_up.load(Ordering::SeqCst),
            astray: self.astray.load(Ordering::SeqCst),
            come: self.come.load(Ordering::SeqCst),
            answered: self.answered.load(Ordering::SeqCst),
        }
    }

    fn is_held(&self, client: u32, line: u32) -> bool {
        match self.holds {
            Holds::Nothing => false,
            Holds::FirstClient { until } => client == 0 && is_before(&self.second_at, until),
            Holds::UntilCome(count) => self.come.load(Ordering::SeqCst) < count,
            Holds::Both { first, second } => {
                line == first.line && is_before(&self.second_at, first.until)
                    || line == second.line && is_before(&self.first_at, second.until)
            }
        }
    }

    // The client was at work on one line, or on none, and now is on another.
    fn goes_on(&self, client: u32, from: u32, to: u32) {
        let was = match self.at_work.get(client as usize) {
            Some(line) => line.swap(to, Ordering::SeqCst),
            None => u32::MAX,
        };
        if was != from {
            self.astray.store(true, Ordering::SeqCst);
        }
    }
}

// Whether this line of a client, whose last answered line is given, is still to be answered.
fn is_before(answered: &AtomicU32, line: u32) -> bool {
    answered.load(Ordering::SeqCst) < line
}

impl Gate for Watch {
    fn before(&self, client: u32, line: u32) {
        self.goes_on(client, 0, line);
        self.come.fetch_add(1, Ordering::SeqCst);
        for _ in 0..MOST_TURNS {
            if !self.is_held(client, line) {
                return;
            }
            thread::yield_now();
        }
        self.given_up.store(true, Ordering::SeqCst);
    }

    fn after(&self, client: u32, line: u32) {
        self.goes_on(client, line, 0);
        self.answered.fetch_add(1, Ordering::SeqCst);
        match client {
            0 => self.first_at.store(line, Ordering::SeqCst),
            1 => self.second_at.store(line, Ordering::SeqCst),
            _ => {}
        }
    }
}

impl Runner<Watch> for Threaded {
    ghost runs = { λ t. t.runs };

    ghost replied = { λ t. t.replied };

    fn run_all<Rt: Threads + Wait + Sync>(
        &mut self,
        rt: &Rt,
        alloc: Global,
        keys: Vec<PassKey>,
        input: &RunInput<'_, Watch>,
    ) -> Result<Vec<PassKey>, NoMemory> {
        self.run_on_threads(rt, alloc, keys, input)
    }

    fn run_pool<Rt: Threads + Wait + Sync>(
        &mut self,
        rt: &Rt,
        alloc: Global,
        keys: Vec<PassKey>,
        input: &RunInput<'_, Watch>,
        own: u32,
        room: u32,
    ) -> Result<Vec<PassKey>, NoMemory> {
        self.pool_on_threads(rt, alloc, keys, input, own, room)
    }

    fn replies(&self, client: u32) -> &[Placed] {
        self.replies_of(client)
    }
}

// How serving ended, and what the gate saw of it.
#[derive(Clone, Copy, Debug, PartialEq, Eq)]
pub(super) struct Seen {
    status: Status,
    // Whether the text is the wanted one, if one is wanted.
    is_wanted: bool,
    given_up: bool,
    astray: bool,
    come: u32,
    answered: u32,
}

// What is seen if so many requests are answered and nothing is wrong.
pub(super) fn all_right(requests: u32) -> Seen {
    Seen {
        status: Status::Done,
        is_wanted: true,
        given_up: false,
        astray: false,
        come: requests,
        answered: requests,
    }
}

// Serves these arguments over this input, of so many clients, with the program's runner, and with a gate that holds
// these requests.
pub(super) fn watched<Rt: Threads + Wait + Sync>(
    rt: &Rt,
    alloc: Global,
    words: &[&str],
    input: &[u8],
    clients: usize,
    holds: Holds,
    wanted: Option<&str>,
) -> Result<Seen, Fail> {
    let gate = Watch::new(alloc, clients, holds)?;
    let mut runner = Threaded::new();
    let (status, is_wanted) = told(rt, alloc, words, input, &gate, &mut runner, wanted)?;
    Ok(gate.seen(status, is_wanted))
}
