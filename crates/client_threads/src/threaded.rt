// The runner of the program: a thread for each client.
ghost use Rattle.std.specs.Prelude.{◌≡◌, ◌<◌, ◌≤◌, [], length, IfOk, slice_index_or};
ghost use Rattle.std.specs.List.{sum_by};
ghost use Rattle.outside_io.specs.Streams.{one_more};
ghost use Rattle.request_lines.specs.Session.{request_lines};
ghost use Rattle.client_threads.specs.Runs.{CanRunEach, RanOver, RanOverEach, parts_of};
ghost use Rattle.client_threads.specs.Pools.{PooledOverEach, owned};
ghost use Rattle.client_threads.specs.Threads.{CanRunOne, CameOf, RanOne};
ghost use Rattle.bucket_terms.specs.LegalRun.{lines_of};

use crate::parts::{RanPart, take_apart};
use crate::pooled::pool_each;
use crate::room::make_client_room;
use crate::run_input::RunInput;
use crate::runner::Runner;
use bucket_terms::{KeyPass, Placed};
use client_run::{Gate, OpenGate, run_client};
use fork_join::map_vec;
use key_map::Items;
use key_names::NoMemory;
use shared_index::PassKey;
use std::alloc::Global;
use std::marker::Model;
use std::sync::Wait;
use std::thread::Threads;

/// Runs each client on a thread of its own. If a thread cannot be started, its client is run by the thread that was
/// to start it.
///
/// ```
/// let mut runner = Threaded::new();
/// let served = Served { session: &session, dir: &dir, slots: NodeSlots::AsAsked, gate: &OpenGate };
/// let updates = history_of(&rt, alloc, &served, &mut runner)?;
/// // the first client's, one for each of its request lines
/// let replies = runner.replies(0);
/// ```
#[derive(Drop)]
pub struct Threaded {
    runs: u64,
    replies: Option<Items<Items<Placed>>>,
}

impl Model for Threaded {
    ghost use Rattle.client_threads.specs.Threads.{Kept, replies_kept};

    ghost Value = { Kept };

    ghost view = { λ t. record { runs = t.runs; replied = replies_kept t.replies } };
}

impl Threaded {
    /// A runner that has made no run.
    pub fn new() -> Threaded
        ensures runs { result.runs ≡ 0 }
        ensures replied { result.replied ≡ [] }
    {
        Threaded {
            runs: 0,
            replies: None,
        }
    }
}

impl Threaded {
    /// Runs the clients, for any gate, as `Runner::run_all` does for each gate that the trait is implemented for. A
    /// method of a trait cannot lend a value of a type parameter to threads.
    pub fn run_on_threads<G: Gate + Sync, Rt: Threads + Wait + Sync>(
        &mut self,
        rt: &Rt,
        alloc: Global,
        keys: Vec<PassKey>,
        input: &RunInput<'_, G>,
    ) -> Result<Vec<PassKey>, NoMemory>
        requires { CanRunEach input.now.dir.now input.now.index.now (parts_of input.now.session.now.clients) keys.items }
        ensures ran { IfOk result (λ back. RanOverEach input.now.dir.now input.now.index.now (parts_of input.now.session.now.clients) keys.items back.items self.new.replied) }
        ensures runs { self.new.runs ≡ one_more self.old.runs }
        ensures never_fall { self.old.runs ≤ self.new.runs }
    {
        self.count_run();
        let results = run_each(rt, alloc, keys, input)?;
        let (keys, _, replies) = take_apart(alloc, results)?;
        self.keep(replies);
        Ok(keys)
    }

    /// Runs the clients, for any gate, as `Runner::run_pool` does for each gate that the trait is implemented for.
    pub fn pool_on_threads<G: Gate + Sync, Rt: Threads + Wait + Sync>(
        &mut self,
        rt: &Rt,
        alloc: Global,
        keys: Vec<PassKey>,
        input: &RunInput<'_, G>,
        own: u32,
        room: u32,
    ) -> Result<Vec<PassKey>, NoMemory>
        requires can { CanRunEach input.now.dir.now input.now.index.now (parts_of input.now.session.now.clients) keys.items }
        requires some { 0 < length keys.items }
        requires room { 0 < room }
        requires fits { sum_by owned keys.items ≤ room }
        ensures ran { IfOk result (λ back. PooledOverEach own input.now.dir.now input.now.index.now (parts_of input.now.session.now.clients) keys.items back.items self.new.replied) }
        ensures runs { self.new.runs ≡ one_more self.old.runs }
        ensures never_fall { self.old.runs ≤ self.new.runs }
    {
        self.count_run();
        let (keys, replies) = pool_each(rt, alloc, keys, input, own, room)?;
        self.keep(replies);
        Ok(keys)
    }

    // Counts a run.
    fn count_run(&mut self)
        ensures runs { self.new.runs ≡ one_more self.old.runs }
        ensures never_fall { self.old.runs ≤ self.new.runs }
    {
        self.runs = self.runs.saturating_add(1);
    }

    // Keeps the replies of a run.
    fn keep(&mut self, replies: Vec<Items<Placed>>)
        ensures replied { self.new.replied ≡ replies.items }
        ensures runs { self.new.runs ≡ self.old.runs }
    {
        self.replies = Some(Items::from_vec(replies));
    }

    /// The replies of this client in the last run.
    pub fn replies_of(&self, client: u32) -> &[Placed]
        requires { client < length self.now.replied }
        ensures { result.now ≡ slice_index_or self.now.replied client [] }
    {
        match &self.replies {
            Some(lists) => lists.as_slice()[client as usize].as_slice(),
            None => &[],
        }
    }
}

impl Runner<OpenGate> for Threaded {
    ghost runs = { λ t. t.runs };

    ghost replied = { λ t. t.replied };

    fn run_all<Rt: Threads + Wait + Sync>(
        &mut self,
        rt: &Rt,
        alloc: Global,
        keys: Vec<PassKey>,
        input: &RunInput<'_, OpenGate>,
    ) -> Result<Vec<PassKey>, NoMemory> {
        self.run_on_threads(rt, alloc, keys, input)
    }

    fn run_pool<Rt: Threads + Wait + Sync>(
        &mut self,
        rt: &Rt,
        alloc: Global,
        keys: Vec<PassKey>,
        input: &RunInput<'_, OpenGate>,
        own: u32,
        room: u32,
    ) -> Result<Vec<PassKey>, NoMemory> {
        self.pool_on_threads(rt, alloc, keys, input, own, room)
    }

    fn replies(&self, client: u32) -> &[Placed] {
        self.replies_of(client)
    }
}

// Runs the client of each key, each on a thread of its own.
fn run_each<G: Gate + Sync, Rt: Threads + Wait + Sync>(
    rt: &Rt,
    alloc: Global,
    keys: Vec<PassKey>,
    input: &RunInput<'_, G>,
) -> Result<Vec<Result<RanPart<()>, NoMemory>>, NoMemory>
    requires { CanRunEach input.now.dir.now input.now.index.now (parts_of input.now.session.now.clients) keys.items }
    ensures { IfOk result (λ results. CameOf (RanOne input.now.dir.now input.now.index.now (parts_of input.now.session.now.clients)) keys.items results.items) }
{
    let run = |key: PassKey| -> Result<RanPart<()>, NoMemory>
        requires { CanRunOne input.now.dir.now input.now.index.now (parts_of input.now.session.now.clients) key }
        ensures { IfOk result (λ r. RanOver input.entry.now.dir.now input.entry.now.index.now key.number (lines_of (parts_of input.entry.now.session.now.clients) key.number) key r.key r.replies) }
    { run_key(rt, alloc, key, input) };
    Ok(map_vec(rt, keys, &run)?)
}

// Runs the client of the key's number.
fn run_key<G: Gate, Rt: Wait>(
    rt: &Rt,
    alloc: Global,
    key: PassKey,
    input: &RunInput<'_, G>,
) -> Result<RanPart<()>, NoMemory>
    requires { CanRunOne input.now.dir.now input.now.index.now (parts_of input.now.session.now.clients) key }
    ensures { IfOk result (λ r. RanOver input.now.dir.now input.now.index.now key.number (lines_of (parts_of input.now.session.now.clients) key.number) key r.key r.replies) }
{
    let mut pass = input.index.attach(key);
    let parts = input.session.clients.as_slice();
    let part = &parts[pass.client() as usize];
    make_client_room(alloc);
    let replies = run_client(rt, alloc, &mut pass, part, input.dir, input.gate)?;
    Ok(RanPart {
        key: pass.detach(),
        seat: (),
        replies: Items::from_vec(replies),
    })
}
