// What one thread does at its seat.
ghost use Rattle.std.specs.Prelude.{◌≡◌, []};
ghost use Rattle.slot_depot.specs.Depots.{IsSeatOf, IsSameSeat};

use crate::token::Token;
use slot_depot::{Depot, DepotSeat};
use std::alloc::{AllocError, Global};
use std::sync::Wait;
use std::sync::atomic::{AtomicU32, Ordering};

/// The tags that were given from a seat and taken, in order, and how often the depot was found empty and full.
#[derive(Drop)]
pub(crate) struct Log {
    pub(crate) gave: Vec<u32>,
    pub(crate) took: Vec<u32>,
    pub(crate) empties: u64,
    pub(crate) fulls: u64,
}

/// Takes a parcel, if there is one.
fn take<R: Wait>(
    rt: &R,
    depot: &Depot<Token>,
    seat: &mut DepotSeat<Token>,
    log: &mut Log,
) -> Result<(), AllocError>
    requires of { IsSeatOf depot.now seat.old }
    ensures same { IsSameSeat seat.old seat.new }
{
    match depot.take(rt, seat) {
        Some(token) => log.took.push(token.tag)?,
        None => log.empties = log.empties.saturating_add(1),
    }
    Ok(())
}

/// Gives a parcel with this tag. While the depot is full, one is taken.
fn give<R: Wait>(
    rt: &R,
    depot: &Depot<Token>,
    seat: &mut DepotSeat<Token>,
    tag: u32,
    log: &mut Log,
) -> Result<(), AllocError>
    requires of { IsSeatOf depot.now seat.old }
    requires home { seat.old.book.terms.home ≡ [] }
    ensures same { IsSameSeat seat.old seat.new }
{
    log.gave.push(tag)?;
    let mut token = Token { tag };
    for _ in rt.forever() {
        match depot.give(rt, seat, token) {
            Ok(()) => return Ok(()),
            Err(back) => token = back,
        }
        log.fulls = log.fulls.saturating_add(1);
        take(rt, depot, seat, log)?;
    }
    unreachable!()
}

/// Gives parcels with the tags that the seat draws, below `parcels`. Of each 128 of them it takes two after each of
/// the first 64, so that the depot runs empty, and none after the others, so that it runs full.
pub(crate) fn work<R: Wait>(
    rt: &R,
    alloc: Global,
    depot: &Depot<Token>,
    seat: &mut DepotSeat<Token>,
    tags: &AtomicU32,
    parcels: u32,
) -> Result<Log, AllocError>
    requires of { IsSeatOf depot.now seat.old }
    requires home { seat.old.book.terms.home ≡ [] }
    ensures same { IsSameSeat seat.old seat.new }
{
    let mut log = Log {
        gave: Vec::new(alloc),
        took: Vec::new(alloc),
        empties: 0,
        fulls: 0,
    };
    for turn in 0..parcels {
        let tag = tags.fetch_add(1, Ordering::SeqCst);
        if tag >= parcels {
            break;
        }
        give(rt, depot, seat, tag, &mut log)?;
        if turn % 128 < 64 {
            take(rt, depot, seat, &mut log)?;
            take(rt, depot, seat, &mut log)?;
        }
    }
    Ok(log)
}
