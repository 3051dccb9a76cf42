//! The steps on the books alone: the depot's terms, its seats, and what a look has found.
ghost use Rattle.std.specs.Prelude.{◌≡◌, ◌<◌, ◌-◌, true};
ghost use Rattle.crossbeam_queue.specs.Passes.{view, IsPassOf, IsSamePass, ruled_capacity};
ghost use Rattle.slot_depot.specs.Books.{terms_for, empty_book, unopened, with_empty, with_full, HeldParcels};

use crate::rule::{Deals, NotesEmpty, NotesFull, Opening, Opens, ParcelPass, ParcelQueue};
use crate::seat::DepotSeat;
use bucket_terms::{Homed, Tagged};

/// The first book gets the depot's terms, and stands for all its seats.
pub fn open_books<O: Opening, T: Tagged, H: Homed>(
    queue: &ParcelQueue<T>,
    keeper: &mut ParcelPass<T>,
    seats: u32,
    room: u32,
    like: &H,
)
    requires queue { IsPassOf queue.now keeper.old }
    requires first { view keeper.old ≡ unopened }
    requires opening { O.terms ≡ terms_for (H.home like.now) room seats }
    ensures queue { IsSamePass keeper.old keeper.new }
    ensures book { view keeper.new ≡ empty_book true (terms_for (H.home like.now) room seats) seats }
{
    let _ = queue.another::<Opens<O>>(keeper);
}

/// A seat is dealt out of a book that stands for several.
pub fn deal<T: Tagged>(queue: &ParcelQueue<T>, keeper: &mut ParcelPass<T>) -> DepotSeat<T>
    requires queue { IsPassOf queue.now keeper.old }
    requires several { 0 < (view keeper.old).shares }
    requires book { view keeper.old ≡ empty_book true (view keeper.old).terms (view keeper.old).shares }
    ensures queue { IsSamePass keeper.old keeper.new }
    ensures left { view keeper.new ≡ empty_book true (view keeper.old).terms ((view keeper.old).shares - 1) }
    ensures seat { result.id ≡ keeper.old.table_id }
    ensures fresh { result.book ≡ empty_book true (view keeper.old).terms 1 }
{
    let pass = queue.another::<Deals>(keeper);
    DepotSeat { pass }
}

/// A look has found the depot empty.
pub fn note_empty<T: Tagged>(queue: &ParcelQueue<T>, pass: &mut ParcelPass<T>)
    requires queue { IsPassOf queue.now pass.old }
    requires opened { (view pass.old).opened ≡ true }
    requires found { HeldParcels T.home T.tag 0 (view pass.old) }
    ensures queue { IsSamePass pass.old pass.new }
    ensures book { view pass.new ≡ with_empty (view pass.old) }
{
    let _ = queue.another::<NotesEmpty>(pass);
}

/// A look has found the depot full.
pub fn note_full<T: Tagged>(queue: &ParcelQueue<T>, pass: &mut ParcelPass<T>)
    requires queue { IsPassOf queue.now pass.old }
    requires opened { (view pass.old).opened ≡ true }
    requires found { HeldParcels T.home T.tag (ruled_capacity queue.now) (view pass.old) }
    ensures queue { IsSamePass pass.old pass.new }
    ensures book { view pass.new ≡ with_full (view pass.old) }
{
    let _ = queue.another::<NotesFull>(pass);
}
