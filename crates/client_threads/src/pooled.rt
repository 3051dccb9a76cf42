// A run whose clients hand node slots to one another through a depot.
ghost use Rattle.std.specs.Prelude.{◌≡◌, ◌+◌, ◌<◌, ◌≤◌, None, length, IfOk, slice_index_or};
ghost use Rattle.std.specs.List.{sum_by};
ghost use Rattle.key_map.specs.Lists.{Every};
ghost use Rattle.slot_depot.specs.Depots.{AreAllSeats};
ghost use Rattle.table_steps.specs.Passes.{Pass as TheKey};
ghost use Rattle.bucket_terms.specs.Pool.{Traded};
ghost use Rattle.shared_index.specs.Keys.{IsKeyOf, home_of_index, home_of_note, home_of_pass};
ghost use Rattle.shared_index.specs.Shown.{shown};
ghost use Rattle.client_threads.specs.Depots.{AreSeated, CanPoolOne, CanPoolEach, HasAdoptedFirst, IsSeatFor, IsUnwritten, PooledOne, owned_by_job};
ghost use Rattle.client_threads.specs.Pools.{PooledOverEach, owned};
ghost use Rattle.client_threads.specs.Runs.{CanRunEach, parts_of};
ghost use Rattle.client_threads.specs.Threads.{CameOf};

use crate::parts::{RanPart, take_apart};
use crate::room::make_client_room;
use crate::run_input::RunInput;
use bucket_terms::{KeyPass, Placed, PoolPass};
use client_run::{Gate, run_pooled};
use fork_join::map_vec;
use key_map::Items;
use key_names::NoMemory;
use shared_index::{IndexPass, Parcel, PassKey, SharedIndex};
use slot_depot::{Depot, DepotSeat};
use std::alloc::Global;
use std::marker::Model;
use std::sync::Wait;
use std::thread::Threads;

/// Runs the client of each key on a thread of its own, with a depot of this much room, which is enough for all node
/// slots, and closes the depot. The keys come back, and the replies.
pub(crate) fn pool_each<G: Gate + Sync, Rt: Threads + Wait + Sync>(
    rt: &Rt,
    alloc: Global,
    keys: Vec<PassKey>,
    input: &RunInput<'_, G>,
    own: u32,
    room: u32,
) -> Result<(Vec<PassKey>, Vec<Items<Placed>>), NoMemory>
    requires can { CanRunEach input.now.dir.now input.now.index.now (parts_of input.now.session.now.clients) keys.items }
    requires some { 0 < length keys.items }
    requires room { 0 < room }
    requires fits { sum_by owned keys.items ≤ room }
    ensures { IfOk result (λ back. PooledOverEach own input.now.dir.now input.now.index.now (parts_of input.now.session.now.clients) keys.items back.0.items back.1.items) }
{
    let (depot, seats) = open_depot(alloc, input.index, keys.len(), room)?;
    let jobs = seated(alloc, keys, seats)?;
    let results = pool_jobs(rt, alloc, jobs, input, &depot, own)?;
    let (keys, seats, replies) = take_apart(alloc, results)?;
    match depot.close(rt, alloc, seats) {
        Ok(left) => Ok((adopt_left(input.index, keys, left), replies)),
        Err(_) => Err(NoMemory),
    }
}

/// A client's key, and its seat at the depot.
#[derive(Drop)]
struct SeatedKey {
    key: PassKey,
    seat: DepotSeat<Parcel>,
}

impl Model for SeatedKey {
    ghost use Rattle.client_threads.specs.Depots.{SeatedKey};

    ghost Value = { SeatedKey };

    ghost view = { λ j. record { key = j.key; seat = j.seat } };
}

// A depot for the node slots of the index, with this many seats and this much room.
fn open_depot(
    alloc: Global,
    index: &SharedIndex,
    seats: usize,
    room: u32,
) -> Result<(Depot<Parcel>, Vec<DepotSeat<Parcel>>), NoMemory>
    requires seats { 0 < seats }
    requires room { 0 < room }
    ensures all { IfOk result (λ opened. AreAllSeats opened.0 opened.1.items) }
    ensures each { IfOk result (λ opened. Every (IsSeatFor index.now opened.0) opened.1.items) }
    ensures seats { IfOk result (λ opened. length opened.1.items ≡ seats) }
    ensures room { IfOk result (λ opened. opened.0.room ≡ room) }
    ensures unwritten { IfOk result (λ opened. Every IsUnwritten opened.1.items) }
{
    // No depot has more seats than this.
    let Ok(seats) = u32::try_from(seats) else {
        return Err(NoMemory);
    };
    match Depot::open(alloc, seats, room, index) {
        Ok(opened) => Ok(opened),
        Err(_) => Err(NoMemory),
    }
}

// Each key with a seat.
fn seated(
    alloc: Global,
    mut keys: Vec<PassKey>,
    mut seats: Vec<DepotSeat<Parcel>>,
) -> Result<Vec<SeatedKey>, NoMemory>
    requires { length seats.items ≡ length keys.items }
    ensures { IfOk result (λ jobs. AreSeated keys.items seats.items jobs.items) }
{
    let Some(key) = keys.pop() else {
        return Ok(Vec::new(alloc));
    };
    let Some(seat) = seats.pop() else {
        unreachable!()
    };
    let mut jobs = seated(alloc, keys, seats)?;
    jobs.push(SeatedKey { key, seat })?;
    Ok(jobs)
}

// Runs the client of each key at its seat, each on a thread of its own. The depot has room for all their node slots.
fn pool_jobs<G: Gate + Sync, Rt: Threads + Wait + Sync>(
    rt: &Rt,
    alloc: Global,
    jobs: Vec<SeatedKey>,
    input: &RunInput<'_, G>,
    depot: &Depot<Parcel>,
    own: u32,
) -> Result<Vec<Result<RanPart<DepotSeat<Parcel>>, NoMemory>>, NoMemory>
    requires can { CanPoolEach input.now.dir.now input.now.index.now depot.now (parts_of input.now.session.now.clients) jobs.items }
    requires fits { sum_by owned_by_job jobs.items ≤ depot.now.room }
    ensures { IfOk result (λ results. CameOf (PooledOne own input.now.dir.now input.now.index.now (parts_of input.now.session.now.clients)) jobs.items results.items) }
{
    let run = |job: SeatedKey| -> Result<RanPart<DepotSeat<Parcel>>, NoMemory>
        requires { CanPoolOne input.now.dir.now input.now.index.now depot.now (parts_of input.now.session.now.clients) job }
        ensures { IfOk result (PooledOne own input.entry.now.dir.now input.entry.now.index.now (parts_of input.entry.now.session.now.clients) job.key.number job) }
    { pool_job(rt, alloc, job, input, depot, own) };
    Ok(map_vec(rt, jobs, &run)?)
}

// Runs the client of the key's number.
fn pool_job<G: Gate, Rt: Wait>(
    rt: &Rt,
    alloc: Global,
    job: SeatedKey,
    input: &RunInput<'_, G>,
    depot: &Depot<Parcel>,
    own: u32,
) -> Result<RanPart<DepotSeat<Parcel>>, NoMemory>
    requires { CanPoolOne input.now.dir.now input.now.index.now depot.now (parts_of input.now.session.now.clients) job }
    ensures { IfOk result (PooledOne own input.now.dir.now input.now.index.now (parts_of input.now.session.now.clients) job.key.number job) }
{
    let SeatedKey { key, mut seat } = job;
    let mut pass = input.index.attach(key);
    let parts = input.session.clients.as_slice();
    let part = &parts[pass.client() as usize];
    make_client_room(alloc);
    let replies = run_pooled(
        rt, alloc, &mut pass, part, input.dir, input.gate, depot, &mut seat, own,
    )?;
    Ok(RanPart {
        key: pass.detach(),
        seat,
        replies: Items::from_vec(replies),
    })
}

// The pass of the first key adopts what was left in the depot.
fn adopt_left(index: &SharedIndex, mut keys: Vec<PassKey>, left: Vec<Parcel>) -> Vec<PassKey>
    requires some { 0 < length keys.items }
    requires of { (d : TheKey) → IsKeyOf index.now (slice_index_or keys.items 0 d) }
    requires closed { (d : TheKey) → (shown (slice_index_or keys.items 0 d)).opened ≡ None }
    requires left { Every (λ p. home_of_note p ≡ home_of_index index.now) left.items }
    ensures { HasAdoptedFirst index.now keys.items (length left.items) result.items }
{
    let mut pass = index.attach(keys.remove(0));
    adopt_all(&mut pass, left);
    match keys.insert(0, pass.detach()) {
        Ok(()) => keys,
        // There is room for the key that was taken out.
        Err(_) => unreachable!(),
    }
}

// The pass adopts these node slots.
fn adopt_all(pass: &mut IndexPass<'_>, mut left: Vec<Parcel>)
    requires closed { (shown pass.old).opened ≡ None }
    requires left { Every (λ p. home_of_note p ≡ home_of_pass pass.old) left.items }
    ensures traded { Traded (shown pass.old) (shown pass.new) }
    ensures nodes { (shown pass.new).nodes ≡ (shown pass.old).nodes + length left.items }
    ensures home { home_of_pass pass.new ≡ home_of_pass pass.old }
{
    while let Some(parcel) = left.pop() {
        pass.adopt(parcel);
    }
}
