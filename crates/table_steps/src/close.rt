//! How a table is closed.
ghost use Rattle.std.specs.Prelude.{◌≡◌, ℕ, ◌<◌, ◌≤◌, List, IfOk, IfErr, length, map, None, Some};
ghost use Rattle.key_map.specs.declared.update.Update.{Update as MadeUpdate};
ghost use Rattle.key_map.specs.History.{own_places};
ghost use Rattle.key_map.specs.Lists.{Every};
ghost use Rattle.core_invariant.specs.Histories.{update_at};
ghost use Rattle.table_rule.specs.Homes.{IsOf};
ghost use Rattle.table_steps.specs.Closes.{AreAllKeys, BeginsWithSeen, AreMadeBy, StandAtOwnPlaces, EachPlace, IsLastPlace, IsRightAt, StaysRight};
ghost use Rattle.table_steps.specs.declared.own_updates.OwnUpdate.{OwnUpdate as Made};
ghost use Rattle.table_steps.specs.Passes.{Pass, IsPassOf, Extends};

use crate::own_updates::OwnUpdate;
use crate::pass::PassKey;
use crate::table::SharedTable;
use index_words::{Change, Update};
use std::alloc::{AllocError, Global};
use table_rule::TableSeat;

/// There was no memory for the history. The table and the keys come back as they were.
#[derive(Drop)]
pub struct CloseError {
    pub table: SharedTable,
    pub keys: Vec<PassKey>,
}

/// A place of the history that is not filled yet.
const UNFILLED: Update = Update {
    client: 0,
    line: 0,
    key: 0,
    change: Change::Remove,
};

/// Room for this many updates.
fn unfilled(alloc: Global, count: usize) -> Result<Vec<Update>, AllocError>
    ensures { IfOk result (λ updates. length updates.items ≡ count) }
{
    vec![in alloc; UNFILLED; count]
}

/// The last of the places of these updates and of this one.
fn later(updates: &[OwnUpdate], last: u64) -> u64
    ensures old { last ≤ result }
    ensures above { Every (λ (u : Made). u.at ≤ result) updates.now }
    ensures least { (limit : ℕ) → last ≤ limit → Every (λ (u : Made). u.at ≤ limit) updates.now → result ≤ limit }
{
    let mut last = last;
    for own in updates {
        if own.at > last {
            last = own.at;
        }
    }
    last
}

/// The last place at which one of these keys has an update.
fn last_place(keys: &[PassKey]) -> u64
    ensures { IsLastPlace keys.now result }
{
    match keys {
        [] => 0,
        [key, rest @ ..] => later(key.kept.updates.as_slice(), last_place(rest)),
    }
}

/// Puts the updates of a pass at their places.
fn put_at_places(updates: &[OwnUpdate], history: &mut [Update])
    requires places { Every (λ (u : Made). (0 < u.at) × (u.at ≤ length history.old)) updates.now }
    ensures length { length history.new ≡ length history.old }
    ensures right { (all : List MadeUpdate) → Every (λ (u : Made). update_at all u.at ≡ Some u.update) updates.now → StaysRight all history.old history.new }
    ensures filled { (all : List MadeUpdate) → Every (λ (u : Made). update_at all u.at ≡ Some u.update) updates.now → Every (λ (u : Made). IsRightAt all history.new u.at) updates.now }
{
    for own in updates {
        history[(own.at - 1) as usize] = own.update;
    }
}

impl SharedTable {
    /// Makes a key hear what a seat has seen, and puts the key's updates at their places.
    fn take_in(&self, whole: &mut TableSeat, key: PassKey, history: &mut [Update])
        requires of { IsPassOf self.now key }
        requires whole_of { IsOf self.now whole.old }
        requires free { whole.old.view.number ≡ None }
        requires seen { Extends key.view.history.seen whole.old.view.history.seen }
        requires places { Every (λ at. at ≤ length history.old) key.view.history.mine }
        ensures same { whole.new ≡ whole.old }
        ensures own { key.view.history.mine ≡ own_places key.number whole.old.view.history.seen }
        ensures length { length history.new ≡ length history.old }
        ensures right { StaysRight whole.old.view.history.seen history.old history.new }
        ensures filled { Every (IsRightAt whole.old.view.history.seen history.new) key.view.history.mine }
    {
        let copy = self.ruled.split(whole);
        copy.facts();
        let PassKey { mut seat, kept, .. } = key;
        seat.facts();
        self.absorb(&mut seat, copy);
        seat.facts();
        put_at_places(kept.updates.as_slice(), history);
    }

    /// Makes a seat hear what each of the keys has seen, then each of the keys what the seat has seen, and puts the
    /// updates of the keys at their places.
    fn gather(&self, whole: &mut TableSeat, keys: Vec<PassKey>, history: &mut [Update])
        requires of { Every (IsPassOf self.now) keys.items }
        requires whole_of { IsOf self.now whole.old }
        requires free { whole.old.view.number ≡ None }
        requires places { EachPlace (λ at. at ≤ length history.old) keys.items }
        ensures whole_of { IsOf self.now whole.new }
        ensures free { whole.new.view.number ≡ None }
        ensures more { Extends whole.old.view.history.seen whole.new.view.history.seen }
        ensures seen { BeginsWithSeen keys.items whole.new.view.history.seen }
        ensures own { StandAtOwnPlaces keys.items whole.new.view.history.seen }
        ensures length { length history.new ≡ length history.old }
        ensures right { StaysRight whole.new.view.history.seen history.old history.new }
        ensures filled { EachPlace (IsRightAt whole.new.view.history.seen history.new) keys.items }
    {
        let mut keys = keys;
        if let Some(mut key) = keys.pop() {
            let note = self.ruled.split(&mut key.seat);
            note.facts();
            whole.facts();
            self.absorb(whole, note);
            self.gather(whole, keys, history);
            self.take_in(whole, key, history);
        }
    }

    /// Puts the whole history into a list whose length is the last place of the keys.
    fn fill(&self, keys: Vec<PassKey>, history: &mut [Update])
        requires all { AreAllKeys self.now keys.items }
        requires last { IsLastPlace keys.items (length history.old) }
        ensures length { length history.new ≡ length history.old }
        ensures history { AreMadeBy keys.items history.new }
        ensures seen { BeginsWithSeen keys.items history.new }
        ensures places { StandAtOwnPlaces keys.items history.new }
    {
        let mut keys = keys;
        match keys.pop() {
            None => {}
            Some(mut key) => {
                let mut whole = self.ruled.split(&mut key.seat);
                self.gather(&mut whole, keys, history);
                whole.facts();
                self.take_in(&mut whole, key, history);
            }
        }
    }

    /// Closes the table: the answer is the whole history. Each of its updates was made by one of the keys, it begins
    /// with what each key has seen, and the updates of each key stand at the key's own places. The memory for it is
    /// taken before anything is joined.
    pub fn close(self, alloc: Global, keys: Vec<PassKey>) -> Result<Vec<Update>, CloseError>
        requires all { AreAllKeys self keys.items }
        ensures history { IfOk result (λ updates. AreMadeBy keys.items updates.items) }
        ensures seen { IfOk result (λ updates. BeginsWithSeen keys.items updates.items) }
        ensures places { IfOk result (λ updates. StandAtOwnPlaces keys.items updates.items) }
        ensures table_unchanged { IfErr result (λ e. e.table ≡ self) }
        ensures keys_unchanged { IfErr result (λ e. e.keys.items ≡ keys.items) }
    {
        let last = last_place(keys.as_slice());
        match unfilled(alloc, last as usize) {
            Ok(mut history) => {
                self.fill(keys, history.as_mut_slice());
                Ok(history)
            }
            Err(_) => Err(CloseError { table: self, keys }),
        }
    }
}
