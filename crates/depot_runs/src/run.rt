// A run: threads at one depot, to its close.
ghost use Rattle.std.specs.Prelude.{◌≡◌, ◌<◌, [], map, All, IfOk};
ghost use Rattle.key_map.specs.Lists.{Every};
ghost use Rattle.slot_depot.specs.Depots.{Seated, IsSeatOf, IsSameSeat, AreAllSeats};
ghost use Rattle.depot_runs.specs.Runs.{AreLeft, seat_of};

use crate::token::Token;
use crate::work::{Log, work};
use slot_depot::{Depot, DepotSeat};
use std::alloc::{AllocError, Global};
use std::sync::Wait;
use std::sync::atomic::AtomicU32;
use std::thread::{Threads, map_vec};

/// What a run found: what was done from each seat, and what was left.
#[derive(Drop)]
pub(crate) struct Ran {
    pub(crate) worked: Vec<Log>,
    pub(crate) left: Vec<Token>,
}

/// What a thread leaves: its seat, and what was done from it.
#[derive(Drop)]
pub(crate) struct Worked {
    seat: DepotSeat<Token>,
    log: Result<Log, AllocError>,
}

/// Works at a seat.
fn work_at<R: Wait>(
    rt: &R,
    alloc: Global,
    depot: &Depot<Token>,
    seat: DepotSeat<Token>,
    tags: &AtomicU32,
    parcels: u32,
) -> Worked
    requires of { IsSeatOf depot.now seat }
    requires home { seat.book.terms.home ≡ [] }
    ensures same { IsSameSeat seat result.seat }
{
    let mut seat = seat;
    let log = work(rt, alloc, depot, &mut seat, tags, parcels);
    Worked { seat, log }
}

/// Works at each seat, each on a thread of its own.
fn work_at_each<R: Threads + Wait + Sync>(
    rt: &R,
    alloc: Global,
    depot: &Depot<Token>,
    seats: Vec<DepotSeat<Token>>,
    parcels: u32,
) -> Result<Vec<Worked>, AllocError>
    requires of { All (λ (s : Seated). IsSeatOf depot.now s × (s.book.terms.home ≡ [])) seats.items }
    ensures left { IfOk result (λ left. AreLeft seats.items left.items) }
{
    let tags = AtomicU32::new(0);
    let run = |seat: DepotSeat<Token>| -> Worked
        requires { IsSeatOf depot.now seat × (seat.book.terms.home ≡ []) }
        ensures { IsSameSeat seat result.seat }
    { work_at(rt, alloc, depot, seat, &tags, parcels) };
    map_vec(rt, seats, &run)
}

/// What the threads leave, kept apart: their seats in one list, what was done in another.
fn take_apart(
    alloc: Global,
    mut left: Vec<Worked>,
) -> Result<(Vec<DepotSeat<Token>>, Vec<Log>), AllocError>
    ensures seats { IfOk result (λ p. p.0.items ≡ map seat_of left.items) }
{
    let Some(last) = left.pop() else {
        return Ok((Vec::new(alloc), Vec::new(alloc)));
    };
    let (mut seats, mut logs) = take_apart(alloc, left)?;
    let Worked { seat, log } = last;
    seats.push(seat)?;
    logs.push(log?)?;
    Ok((seats, logs))
}

/// All threads work at once.
fn work_all<R: Threads + Wait + Sync>(
    rt: &R,
    alloc: Global,
    depot: &Depot<Token>,
    seats: Vec<DepotSeat<Token>>,
    parcels: u32,
) -> Result<(Vec<DepotSeat<Token>>, Vec<Log>), AllocError>
    requires all { AreAllSeats depot.now seats.items }
    requires home { Every (λ (s : Seated). s.book.terms.home ≡ []) seats.items }
    ensures all { IfOk result (λ p. AreAllSeats depot.now p.0.items) }
{
    let left = work_at_each(rt, alloc, depot, seats, parcels)?;
    let (back, logs) = take_apart(alloc, left)?;
    Ok((back, logs))
}

/// Opens a depot, works at each of its seats, and closes it.
pub(crate) fn make_run<R: Threads + Wait + Sync>(
    rt: &R,
    alloc: Global,
    seats: u32,
    room: u32,
    parcels: u32,
) -> Result<Ran, AllocError>
    requires seats { 0 < seats }
    requires room { 0 < room }
{
    let Ok((depot, seats)) = Depot::open(alloc, seats, room, &Token { tag: 0 }) else {
        return Err(AllocError);
    };
    let (seats, worked) = work_all(rt, alloc, &depot, seats, parcels)?;
    match depot.close(rt, alloc, seats) {
        Ok(left) => Ok(Ran { worked, left }),
        Err(_) => Err(AllocError),
    }
}
