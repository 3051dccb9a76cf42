// The map as one sorted list of pairs.
ghost use Rattle.std.specs.Prelude.{◌≡◌, ◌+◌, ◌<◌, ◌≤◌, [], length, vec_len, vec_capacity, insert, slice_get, IfOk, MatchResult, true, false, nat_lt};
ghost use Rattle.std.specs.List.{prefix_len};
ghost use Rattle.key_map.specs.Map.{IsMap, pair, map_has, map_put, map_remove, first_from};
ghost use Rattle.key_map.specs.History.{after, updated};
ghost use Rattle.key_map.specs.PlainMap.{roomy};

use crate::{Change, NoMemory, Pair, Update};
use std::alloc::Global;
use std::marker::Model;

/// A map kept as one sorted list of pairs, with memory reserved for a number of pairs. It is a program for the map's
/// definition: for one caller, for small inputs and for comparison. A put costs a look-up by binary search and a move
/// of the pairs after it.
#[derive(Drop)]
pub struct PlainMap {
    pairs: Vec<Pair>,
}

impl Model for PlainMap {
    ghost use Rattle.std.specs.Prelude.{vec_capacity};
    ghost use Rattle.key_map.specs.Map.{IsMap};
    ghost use Rattle.key_map.specs.PlainMap.{RoomyMap, roomy};

    ghost Value = { RoomyMap };

    ghost view = { λ m. roomy m.pairs.items (vec_capacity m.pairs) };

    ghost invariant = { λ m. IsMap m.pairs.items };
}

impl PlainMap {
    /// An empty map with memory for `room` pairs.
    pub fn with_room(alloc: Global, room: usize) -> Result<PlainMap, NoMemory>
        ensures empty { IfOk result (λ m. m ≡ roomy [] room) }
    {
        Ok(PlainMap {
            pairs: Vec::with_capacity(alloc, room)?,
        })
    }

    /// The map after these updates, in order, from the empty map.
    pub fn replayed(alloc: Global, updates: &[Update]) -> Result<PlainMap, NoMemory>
        ensures map { IfOk result (λ m. m.pairs ≡ after updates.now (length updates.now)) }
    {
        let mut map = PlainMap::with_room(alloc, updates.len())?;
        for update in updates {
            map.apply(update);
        }
        Ok(map)
    }

    /// The pairs, by ascending keys.
    pub fn pairs(&self) -> &[Pair]
        ensures pairs { result.now ≡ self.now.pairs }
        ensures rising { IsMap result.now }
    {
        &self.pairs
    }

    /// The first pair whose key is at least `key`.
    pub fn first_from(&self, key: u64) -> Option<Pair>
        ensures first { result ≡ first_from key self.now.pairs }
    {
        first_from(&self.pairs, key)
    }

    /// Whether the key is present.
    pub fn has(&self, key: u64) -> bool
        ensures { result ≡ map_has key self.now.pairs }
    {
        look_up(&self.pairs, key).is_ok()
    }

    /// Inserts the pair, or replaces the key's value. Returns whether the key was present.
    pub fn put(&mut self, key: u64, val: u64) -> bool
        requires { length self.old.pairs < self.old.room }
        ensures was { result ≡ map_has key self.old.pairs }
        ensures map { self.new ≡ roomy (map_put key val self.old.pairs) self.old.room }
        ensures size { length self.new.pairs ≤ length self.old.pairs + 1 }
    {
        put_in_room(&mut self.pairs, Pair { key, val })
    }

    /// Removes the key. Returns whether it was present.
    pub fn remove(&mut self, key: u64) -> bool
        ensures was { result ≡ map_has key self.old.pairs }
        ensures map { self.new ≡ roomy (map_remove key self.old.pairs) self.old.room }
        ensures size { length self.new.pairs ≤ length self.old.pairs }
    {
        remove_from(&mut self.pairs, key)
    }

    // Makes the change of the update.
    fn apply(&mut self, update: &Update)
        requires { length self.old.pairs < self.old.room }
        ensures map { self.new ≡ roomy (updated self.old.pairs update.now) self.old.room }
        ensures size { length self.new.pairs ≤ length self.old.pairs + 1 }
    {
        match update.change {
            Change::Put(val) => self.put(update.key, val),
            Change::Remove => self.remove(update.key),
        };
    }
}

/// The first pair of a sorted list whose key is at least `key`.
pub fn first_from(pairs: &[Pair], key: u64) -> Option<Pair>
    requires { IsMap pairs.now }
    ensures first { result ≡ first_from key pairs.now }
{
    pair_at(pairs, place_of(pairs, key))
}

fn put_in_room(pairs: &mut Vec<Pair>, pair: Pair) -> bool
    requires map { IsMap pairs.old.items }
    requires room { vec_len pairs.old < vec_capacity pairs.old }
    ensures was { result ≡ map_has pair.key pairs.old.items }
    ensures items { pairs.new.items ≡ map_put pair.key pair.val pairs.old.items }
    ensures capacity { vec_capacity pairs.new ≡ vec_capacity pairs.old }
{
    match look_up(pairs, pair.key) {
        Ok(place) => {
            pairs[place] = pair;
            true
        }
        Err(place) => {
            insert_in_room(pairs, place, pair);
            false
        }
    }
}

fn remove_from(pairs: &mut Vec<Pair>, key: u64) -> bool
    requires { IsMap pairs.old.items }
    ensures was { result ≡ map_has key pairs.old.items }
    ensures items { pairs.new.items ≡ map_remove key pairs.old.items }
    ensures capacity { vec_capacity pairs.new ≡ vec_capacity pairs.old }
{
    match look_up(pairs, key) {
        Ok(place) => {
            pairs.remove(place);
            true
        }
        Err(_) => false,
    }
}

// The place of the key, or else the place at which it would be inserted.
fn look_up(pairs: &[Pair], key: u64) -> Result<usize, usize>
    requires { IsMap pairs.now }
    ensures found { MatchResult result
        (λ i. (i < length pairs.now) × (map_has key pairs.now ≡ true))
        (λ i. (i ≤ length pairs.now) × (map_has key pairs.now ≡ false)) }
    ensures place { MatchResult result
        (λ i. i ≡ prefix_len (λ p. nat_lt p.key key) pairs.now)
        (λ i. i ≡ prefix_len (λ p. nat_lt p.key key) pairs.now) }
{
    let place = place_of(pairs, key);
    match pairs.get(place) {
        Some(pair) if pair.key == key => Ok(place),
        _ => Err(place),
    }
}

// How many pairs have a key below `key`: they are the first ones.
fn place_of(pairs: &[Pair], key: u64) -> usize
    requires { IsMap pairs.now }
    ensures bound { result ≤ length pairs.now }
    ensures front { result ≡ prefix_len (λ p. nat_lt p.key key) pairs.now }
{
    pairs.partition_point(|pair| pair.key < key)
}

fn pair_at(pairs: &[Pair], place: usize) -> Option<Pair>
    ensures { result ≡ slice_get pairs.now place }
{
    pairs.get(place).copied()
}

// Inserts where there is memory left, so it cannot fail.
fn insert_in_room(pairs: &mut Vec<Pair>, place: usize, pair: Pair)
    requires within { place ≤ vec_len pairs.old }
    requires room { vec_len pairs.old < vec_capacity pairs.old }
    ensures items { pairs.new.items ≡ insert pairs.old.items place pair }
    ensures capacity { vec_capacity pairs.new ≡ vec_capacity pairs.old }
{
    let _ = pairs.insert(place, pair);
}
