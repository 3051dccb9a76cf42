// Two passes of an index that trade node slots through a depot, one after the other on one thread.
ghost use Rattle.std.specs.Prelude.{◌≡◌, ◌∷◌, [], None, IfSome};
ghost use Rattle.slot_depot.specs.Depots.{AreAllSeats, IsSameSeat, IsSeatOf};

use crate::set_up::{both, opened, put, remove, size};
use bucket_terms::{KeyPass, PoolPass, Slots, Tagged};
use client_run::{hand_over, top_up};
use key_map::{Done, PassError};
use slot_depot::{Depot, DepotSeat};
use std::alloc::Global;
use std::sync::Wait;
use std::test::Fail;

// How many node slots each pass keeps.
const OWN: u32 = 2;

/// An update of a key for a request line, and the answer that it is to have.
#[derive(Clone, Copy)]
enum Trade {
    Put(u32, u64, Result<Done, PassError>),
    Remove(u32, u64, Result<Done, PassError>),
}

/// Makes the update. Returns whether it has its answer.
fn has_answer<P: KeyPass, R: Wait>(rt: &R, pass: &mut P, trade: &Trade) -> bool
    requires closed { (P.view pass.old).opened ≡ None }
    ensures closed { (P.view pass.new).opened ≡ None }
    ensures home { P.home pass.new ≡ P.home pass.old }
{
    match *trade {
        Trade::Put(line, key, answer) => put(rt, pass, line, key, 7) == answer,
        Trade::Remove(line, key, answer) => remove(rt, pass, line, key) == answer,
    }
}

/// Makes the update, with a top-up before it and a hand-over after it. Returns whether it has its answer.
fn is_traded<P: PoolPass, R: Wait>(
    rt: &R,
    pass: &mut P,
    depot: &Depot<P::Parcel>,
    seat: &mut DepotSeat<P::Parcel>,
    trade: &Trade,
) -> bool
    requires closed { (P.view pass.old).opened ≡ None }
    requires seat { IsSeatOf depot.now seat.old }
    requires of { seat.old.book.terms.home ≡ P.home pass.old }
    ensures closed { (P.view pass.new).opened ≡ None }
    ensures seat { IsSameSeat seat.old seat.new }
    ensures home { P.home pass.new ≡ P.home pass.old }
{
    top_up(rt, pass, depot, seat);
    let is_right = has_answer(rt, pass, trade);
    hand_over(rt, pass, depot, seat, OWN);
    is_right
}

/// Whether each of two updates of one pass has its answer.
fn are_traded<P: PoolPass, R: Wait>(
    rt: &R,
    pass: &mut P,
    depot: &Depot<P::Parcel>,
    seat: &mut DepotSeat<P::Parcel>,
    trades: [Trade; 2],
) -> bool
    requires closed { (P.view pass.old).opened ≡ None }
    requires seat { IsSeatOf depot.now seat.old }
    requires of { seat.old.book.terms.home ≡ P.home pass.old }
    ensures closed { (P.view pass.new).opened ≡ None }
    ensures seat { IsSameSeat seat.old seat.new }
    ensures home { P.home pass.new ≡ P.home pass.old }
{
    let [first, second] = trades;
    let is_first_right = is_traded(rt, pass, depot, seat, &first);
    is_traded(rt, pass, depot, seat, &second) && is_first_right
}

/// A depot of two seats, for parcels of the index of this pass.
fn depot_of_two<P: PoolPass>(
    alloc: Global,
    like: &P,
) -> Option<(Depot<P::Parcel>, DepotSeat<P::Parcel>, DepotSeat<P::Parcel>)>
    ensures all { IfSome result (λ o. AreAllSeats o.0 (o.1 ∷ o.2 ∷ [])) }
    ensures first { IfSome result (λ o. IsSeatOf o.0 o.1 × (o.1.book.terms.home ≡ P.home like.now)) }
    ensures second { IfSome result (λ o. IsSeatOf o.0 o.2 × (o.2.book.terms.home ≡ P.home like.now)) }
{
    let Ok((depot, seats)) = Depot::open(alloc, 2, 4, like) else {
        return None;
    };
    match both(seats) {
        Some((first, second)) => Some((depot, first, second)),
        None => None,
    }
}

/// How many parcels are left in a depot of two seats.
fn left_in<T: Tagged + Drop, R: Wait>(
    rt: &R,
    alloc: Global,
    depot: Depot<T>,
    first: DepotSeat<T>,
    second: DepotSeat<T>,
) -> Option<usize>
    requires all { AreAllSeats depot (first ∷ second ∷ []) }
{
    let Ok(seats) = vec![in alloc; first, second] else {
        return None;
    };
    match depot.close(rt, alloc, seats) {
        Ok(left) => Some(left.len()),
        Err(_) => None,
    }
}

const OWN_SLOTS: [Trade; 2] = [
    Trade::Put(1, 1, Ok(Done { at: 1, was: false })),
    Trade::Put(2, 2, Ok(Done { at: 2, was: false })),
];

const REMOVAL: Trade = Trade::Remove(1, 1, Ok(Done { at: 3, was: true }));

const OTHERS_SLOT: [Trade; 2] = [
    Trade::Put(3, 3, Ok(Done { at: 4, was: false })),
    Trade::Put(4, 4, Err(PassError::NoSlot)),
];

/// The puts of pass 0 before and after a removal of pass 1: whether the updates have their answers, and how many
/// parcels the depot has left.
fn traded<P: PoolPass, R: Wait>(
    rt: &R,
    alloc: Global,
    zero: &mut P,
    one: &mut P,
) -> Option<(bool, usize)>
    requires zero { (P.view zero.old).opened ≡ None }
    requires one { (P.view one.old).opened ≡ None }
    requires home { P.home one.old ≡ P.home zero.old }
{
    let (depot, mut left, mut right) = depot_of_two(alloc, zero)?;
    let own_slots = are_traded(rt, zero, &depot, &mut left, OWN_SLOTS);
    let removal = is_traded(rt, one, &depot, &mut right, &REMOVAL);
    let others_slot = are_traded(rt, zero, &depot, &mut left, OTHERS_SLOT);
    let count = left_in(rt, alloc, depot, left, right)?;
    Some((own_slots && removal && others_slot, count))
}

/// The same, of the passes of an index.
fn traded_by_both<R: Wait>(rt: &R, alloc: Global) -> Option<(bool, usize)> {
    let (index, first, second) = opened(alloc, &[size(OWN, 8, 8); 2])?;
    let mut zero = index.attach(first);
    let mut one = index.attach(second);
    traded(rt, alloc, &mut zero, &mut one)
}

// The slot of the key that pass 1 takes out goes to a put of pass 0, which has used its own. The next put finds none.
#[test]
fn a_slot_that_came_free_goes_to_a_put(rt: HostRuntime) -> Result<(), Fail> {
    assert_eq!(rt; traded_by_both(&rt, rt.alloc()), Some((true, 0)));
    Ok(())
}

/// Lends a node slot and gives it to the depot. Returns whether the depot took it; if not, the pass has the slot back.
fn given<P: PoolPass, R: Wait>(
    rt: &R,
    pass: &mut P,
    depot: &Depot<P::Parcel>,
    seat: &mut DepotSeat<P::Parcel>,
) -> Option<bool>
    requires closed { (P.view pass.old).opened ≡ None }
    requires seat { IsSeatOf depot.now seat.old }
    requires of { seat.old.book.terms.home ≡ P.home pass.old }
    ensures closed { (P.view pass.new).opened ≡ None }
    ensures seat { IsSameSeat seat.old seat.new }
    ensures home { P.home pass.new ≡ P.home pass.old }
{
    if pass.slots().free_nodes == 0 {
        return None;
    }
    let parcel = pass.lend();
    match depot.give(rt, seat, parcel) {
        Ok(()) => Some(true),
        Err(parcel) => {
            pass.adopt(parcel);
            Some(false)
        }
    }
}

/// Gives two node slots to a depot that has room for one. Returns whether it takes only the first, and the pass then
/// owns the other one.
fn keeps_the_second<P: PoolPass, R: Wait>(rt: &R, alloc: Global, pass: &mut P) -> Option<bool>
    requires { (P.view pass.old).opened ≡ None }
{
    let Ok((depot, mut seats)) = Depot::open(alloc, 1, 1, pass) else {
        return None;
    };
    let mut seat = seats.pop()?;
    let first = given(rt, pass, &depot, &mut seat);
    let second = given(rt, pass, &depot, &mut seat);
    let slots = Slots {
        nodes: 1,
        entries: 8,
        free_nodes: 1,
    };
    Some(first == Some(true) && second == Some(false) && pass.slots() == slots)
}

/// The same, of pass 0 of an index.
fn first_keeps_the_second<R: Wait>(rt: &R, alloc: Global) -> Option<bool> {
    let (index, first, _second) = opened(alloc, &[size(OWN, 8, 8); 2])?;
    keeps_the_second(rt, alloc, &mut index.attach(first))
}

#[test]
fn a_full_depot_hands_a_parcel_back(rt: HostRuntime) -> Result<(), Fail> {
    assert_eq!(rt; first_keeps_the_second(&rt, rt.alloc()), Some(true));
    Ok(())
}
