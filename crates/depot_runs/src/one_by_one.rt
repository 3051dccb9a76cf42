// A depot with one seat and room for one parcel, on one thread.
ghost use Rattle.std.specs.Prelude.{◌≡◌, []};
ghost use Rattle.slot_depot.specs.Depots.{IsSameSeat, IsSeatOf};

use crate::token::Token;
use slot_depot::{Depot, DepotSeat};
use std::io;
use std::sync::Wait;

/// Gives two parcels, of which the second one comes back, and takes twice, of which the second finds nothing. Each
/// answer is printed.
pub(crate) fn print_one_by_one<R: Wait>(rt: &HostRuntime, wait: &R) -> io::Result<()> {
    let Ok((depot, mut seats)) = Depot::open(rt.alloc(), 1, 1, &Token { tag: 0 }) else {
        return println!(rt; "no memory");
    };
    let Some(mut seat) = seats.pop() else {
        return println!(rt; "no seat");
    };
    give(rt, wait, &depot, &mut seat, 1)?;
    give(rt, wait, &depot, &mut seat, 2)?;
    take(rt, wait, &depot, &mut seat)?;
    take(rt, wait, &depot, &mut seat)
}

fn give<R: Wait>(
    rt: &HostRuntime,
    wait: &R,
    depot: &Depot<Token>,
    seat: &mut DepotSeat<Token>,
    tag: u32,
) -> io::Result<()>
    requires of { IsSeatOf depot.now seat.old }
    requires home { seat.old.book.terms.home ≡ [] }
    ensures same { IsSameSeat seat.old seat.new }
{
    match depot.give(wait, seat, Token { tag }) {
        Ok(()) => println!(rt; "gave {tag}"),
        Err(back) => println!(rt; "{} came back", back.tag),
    }
}

fn take<R: Wait>(
    rt: &HostRuntime,
    wait: &R,
    depot: &Depot<Token>,
    seat: &mut DepotSeat<Token>,
) -> io::Result<()>
    requires of { IsSeatOf depot.now seat.old }
    ensures same { IsSameSeat seat.old seat.new }
{
    match depot.take(wait, seat) {
        Some(token) => println!(rt; "took {}", token.tag),
        None => println!(rt; "found it empty"),
    }
}
