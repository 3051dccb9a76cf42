//! How a depot is closed, which gives the parcels that are left.
ghost use Rattle.std.specs.Prelude.{◌≡◌, ◌<◌, ◌≤◌, ◌+◌, ℕ, List, [], true, length, map, IfOk, IfErr};
ghost use Rattle.std.specs.Vec.{vec_capacity};
ghost use Rattle.key_map.specs.Lists.{count, Every};
ghost use Rattle.crossbeam_queue.specs.Passes.{view, IsPassOf, IsSamePass, ruled_capacity};
ghost use Rattle.slot_depot.specs.declared.book.Terms.{Terms};
ghost use Rattle.slot_depot.specs.Books.{IsBalanced, both_books};
ghost use Rattle.slot_depot.specs.Depots.{Seated, AreAllSeats, StandsForAll, HoldsBooks, gave_by, took_by, queue_id};

use crate::depot::Depot;
use crate::rule::{ParcelPass, ParcelQueue, PutsTogether, Takes};
use crate::seat::DepotSeat;
use bucket_terms::Tagged;
use std::alloc::Global;
use std::sync::Wait;

/// There was no memory for the list of what is left. The depot and its seats are returned as they were.
#[derive(Drop)]
pub struct CloseFault<T: Tagged> {
    pub depot: Depot<T>,
    pub seats: Vec<DepotSeat<T>>,
}

/// Puts the book of a seat together with another one.
fn put_in<T: Tagged>(queue: &ParcelQueue<T>, whole: &mut ParcelPass<T>, seat: DepotSeat<T>)
    requires queue { IsPassOf queue.now whole.old }
    requires opened { (view whole.old).opened ≡ true }
    requires of { seat.id ≡ queue_id queue.now }
    ensures queue { IsPassOf queue.now whole.new }
    ensures book { view whole.new ≡ both_books (view whole.old) seat.book }
    ensures one { seat.book.shares ≡ 1 }
{
    let DepotSeat { pass } = seat;
    queue.absorb::<PutsTogether>(whole, pass);
}

/// Gives up a seat: its pass has its book.
fn give_up<T: Tagged>(queue: &ParcelQueue<T>, seat: DepotSeat<T>) -> ParcelPass<T>
    requires of { seat.id ≡ queue_id queue.now }
    ensures queue { IsPassOf queue.now result }
    ensures book { view result ≡ seat.book }
    ensures one { (seat.book.opened ≡ true) × (seat.book.shares ≡ 1) }
{
    let DepotSeat { pass } = seat;
    pass
}

/// Puts the books of the seats together.
fn put_together<T: Tagged>(queue: &ParcelQueue<T>, seats: Vec<DepotSeat<T>>) -> ParcelPass<T>
    requires some { 0 < length seats.items }
    requires of { Every (λ (s : Seated). s.id ≡ queue_id queue.now) seats.items }
    ensures queue { IsPassOf queue.now result }
    ensures books { (t : Terms) → Every (λ (s : Seated). s.book.terms ≡ t) seats.items → HoldsBooks t seats.items (view result) }
{
    let mut seats = seats;
    let Some(first) = seats.pop() else {
        unreachable!()
    };
    let mut whole = give_up(queue, first);
    while let Some(seat) = seats.pop() {
        put_in(queue, &mut whole, seat);
    }
    whole
}

/// Takes what is left out of a queue whose books are put together.
fn drain<T: Tagged + Drop, Rt: Wait>(
    rt: &Rt,
    queue: &ParcelQueue<T>,
    whole: ParcelPass<T>,
    left: Vec<T>,
) -> Vec<T>
    requires queue { IsPassOf queue.now whole }
    requires all { StandsForAll (view whole) }
    requires terms { (view whole).terms.room ≤ vec_capacity left }
    requires none { left.items ≡ [] }
    ensures balance { (tag : ℕ) → count tag (view whole).gave ≡ count tag (view whole).took + count tag (map T.tag result.items) }
    ensures home { Every (λ parcel. T.home parcel ≡ (view whole).terms.home) result.items }
{
    let mut whole = whole;
    let mut left = left;
    // What is left fits: this look shows it.
    queue.learn_as::<Takes<T>>(&mut whole);
    for _ in rt.forever() {
        match queue.pop_as::<Takes<T>, Rt>(rt, &mut whole) {
            Some(parcel) => left.push_reserved(parcel),
            None => return left,
        }
    }
    unreachable!()
}

impl<T: Tagged + Drop> Depot<T> {
    /// Closes the depot and gives the parcels that are left in it. Each tag stands as often in all that its seats
    /// gave as in all that they took and among the parcels that are left. It may wait, as `take` does.
    ///
    /// # Errors
    /// Only out of memory. The depot and its seats are then returned unchanged.
    pub fn close<Rt: Wait>(
        self,
        rt: &Rt,
        alloc: Global,
        seats: Vec<DepotSeat<T>>,
    ) -> Result<Vec<T>, CloseFault<T>>
        requires all { AreAllSeats self seats.items }
        ensures balance { IfOk result (λ left. IsBalanced (map gave_by seats.items) (map took_by seats.items) (map T.tag left.items)) }
        ensures home { IfOk result (λ left. (home : List ℕ) → Every (λ (s : Seated). s.book.terms.home ≡ home) seats.items → Every (λ parcel. T.home parcel ≡ home) left.items) }
        ensures depot_unchanged { IfErr result (λ fault. fault.depot ≡ self) }
        ensures seats_unchanged { IfErr result (λ fault. fault.seats.items ≡ seats.items) }
    {
        let Ok(left) = Vec::with_capacity(alloc, self.queue.capacity()) else {
            return Err(CloseFault { depot: self, seats });
        };
        let Depot { queue } = self;
        let whole = put_together(&queue, seats);
        Ok(drain(rt, &queue, whole, left))
    }
}
