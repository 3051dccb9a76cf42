//! The depot: how it is opened, and how parcels are given and taken.
ghost use Rattle.std.specs.Prelude.{◌≡◌, ◌<◌, IfOk, IfErr, OnOk, OnErr, MatchOption, IfSome, IfNone};
ghost use Rattle.key_map.specs.Lists.{Every};
ghost use Rattle.slot_depot.specs.Books.{terms_for, with_given, with_taken, with_empty, with_full, HeldParcels};
ghost use Rattle.slot_depot.specs.Depots.{IsSeatOf, AreAllSeats, IsDealt};

use crate::rule::{Gives, ParcelQueue, Takes};
use crate::seat::DepotSeat;
use crate::steps::{deal, note_empty, note_full, open_books};
use bucket_terms::{Homed, Tagged};
use key_map::NoMemory;
use std::alloc::Global;
use std::marker::{Brand, Model};
use std::sync::Wait;

/// A place where the threads of one index leave parcels for one another. Each has a seat of its own. Contracts see
/// which depot it is, and how many parcels it holds at most; its seats say of which index it takes parcels (`terms`).
/// No contract can say what it holds at a moment, since others give and take at any time; `close` says that what its
/// seats have given and taken balances with what it holds.
#[derive(Drop)]
pub struct Depot<T: Tagged> {
    pub(crate) queue: ParcelQueue<T>,
}

impl<T: Tagged> Model for Depot<T> {
    ghost use Rattle.crossbeam_queue.specs.Passes.{ruled_capacity};
    ghost use Rattle.slot_depot.specs.Depots.{Opened, queue_id};

    ghost Value = { Opened };

    ghost view = { λ d. record { id = queue_id d.queue; room = ruled_capacity d.queue } };
}

impl<T: Tagged + Drop> Depot<T> {
    /// Opens a depot for parcels of the index that `like` belongs to, with so many seats, which holds so many
    /// parcels. It is empty. All memory that `give` and `take` use is taken here.
    ///
    /// ```
    /// let (depot, mut seats) = Depot::open(alloc, 2, 8, &pass)?;
    /// ```
    ///
    /// # Errors
    /// Out of memory.
    pub fn open<H: Homed>(
        alloc: Global,
        seats: u32,
        room: u32,
        like: &H,
    ) -> Result<(Depot<T>, Vec<DepotSeat<T>>), NoMemory>
        requires seats { 0 < seats }
        requires room { 0 < room }
        ensures all { IfOk result (λ opened. AreAllSeats opened.0 opened.1.items) }
        ensures fresh { IfOk result (λ opened. Every (IsDealt opened.0.id (terms_for (H.home like.now) room seats)) opened.1.items) }
    {
        let (queue, mut keeper) = ParcelQueue::ruled(alloc, room as usize)?;
        let mut dealt = Vec::with_capacity(alloc, seats as usize)?;
        open_books::<Brand, T, H>(&queue, &mut keeper, seats, room, like);
        for _ in 0..seats {
            dealt.push_reserved(deal(&queue, &mut keeper));
        }
        Ok((Depot { queue }, dealt))
    }

    /// Leaves a parcel for others. It takes no memory, and may wait for another thread that is about to give or take.
    ///
    /// # Errors
    /// The parcel is returned, and `fulls` has then risen by one; the rest of the seat's book is as it was. The code
    /// raises it only after a look of this call that has found the depot full. No clause ties the two together: what
    /// a look finds leaves no trace in the seat's view of the queue, and in a depot of two seats or more `found_full`
    /// holds of every book.
    pub fn give<Rt: Wait>(&self, rt: &Rt, seat: &mut DepotSeat<T>, parcel: T) -> Result<(), T>
        requires seat { IsSeatOf self.now seat.old }
        requires home { T.home parcel ≡ seat.old.book.terms.home }
        ensures seat { seat.new.id ≡ seat.old.id }
        ensures given { OnOk result (seat.new.book ≡ with_given (T.tag parcel) seat.old.book) }
        ensures back { IfErr result (λ returned. returned ≡ parcel) }
        ensures full { OnErr result (seat.new.book ≡ with_full seat.old.book) }
        ensures found_full { OnErr result (HeldParcels T.home T.tag self.now.room seat.old.book) }
    {
        match self
            .queue
            .push_as::<Gives<T>, Rt>(rt, &mut seat.pass, parcel)
        {
            Ok(()) => Ok(()),
            Err(parcel) => {
                note_full(&self.queue, &mut seat.pass);
                Err(parcel)
            }
        }
    }

    /// Takes a parcel that was left, the oldest one. With `None`, `empties` has risen by one, and the rest of the
    /// seat's book is as it was. The code raises it only after a look of this call that has found the depot empty. No
    /// clause ties the two together: what a look finds leaves no trace in the seat's view of the queue, and in a
    /// depot of two seats or more `found_empty` holds of every book. It takes no memory, and may wait for another
    /// thread that is about to give or take.
    pub fn take<Rt: Wait>(&self, rt: &Rt, seat: &mut DepotSeat<T>) -> Option<T>
        requires seat { IsSeatOf self.now seat.old }
        ensures seat { seat.new.id ≡ seat.old.id }
        ensures taken { MatchOption result (seat.new.book ≡ with_empty seat.old.book) (λ parcel. seat.new.book ≡ with_taken (T.tag parcel) seat.old.book) }
        ensures home { IfSome result (λ parcel. T.home parcel ≡ seat.old.book.terms.home) }
        ensures found_empty { IfNone result (HeldParcels T.home T.tag 0 seat.old.book) }
    {
        let taken = self.queue.pop_as::<Takes<T>, Rt>(rt, &mut seat.pass);
        if taken.is_none() {
            note_empty(&self.queue, &mut seat.pass);
        }
        taken
    }
}
