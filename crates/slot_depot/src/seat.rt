//! A seat of a depot.

use crate::rule::ParcelPass;
use bucket_terms::Tagged;
use std::marker::Model;

/// One thread's seat at a depot. Contracts see its book: the tags of the parcels that were given from it and taken, in
/// order, and how many looks from it have found the depot empty (`empties`) and full (`fulls`). It has no bytes.
#[derive(Drop)]
pub struct DepotSeat<T: Tagged> {
    pub(crate) pass: ParcelPass<T>,
}

impl<T: Tagged> Model for DepotSeat<T> {
    ghost use Rattle.std.specs.Prelude.{◌≡◌, true, []};
    ghost use Rattle.crossbeam_queue.specs.Passes.{view as book_of};
    ghost use Rattle.slot_depot.specs.Depots.{Seated};

    ghost Value = { Seated };

    ghost view = { λ s. record { id = s.pass.table_id; book = book_of s.pass } };

    ghost invariant = { λ s. (s.pass.me.1 ≡ []) × ((book_of s.pass).opened ≡ true) × ((book_of s.pass).shares ≡ 1) };
}
