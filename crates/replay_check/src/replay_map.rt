// The map that advances along a history.
ghost use Rattle.std.specs.Prelude.{◌≡◌, [], length, IfOk, OnOk};
ghost use Rattle.key_map.specs.Map.{IsMap, first_from, map_get, map_has, map_put, map_remove};
ghost use Rattle.key_map.specs.History.{updated};

use key_map::{Change, Pair, Update};
use key_names::NoMemory;
use std::alloc::Global;
use std::collections::BTreeMap;
use std::marker::Model;

/// A map from keys to values. An update, a look and a step of a listing each take one path down a tree, however many
/// keys there are.
#[derive(Drop)]
pub(crate) struct ReplayMap {
    values: BTreeMap<u64, u64>,
}

impl Model for ReplayMap {
    ghost use Rattle.std.specs.Prelude.{List};
    ghost use Rattle.key_map.specs.declared.pair.Pair.{Pair as AnyPair};
    ghost use Rattle.key_map.specs.Map.{IsMap};
    ghost use Rattle.replay_check.specs.TreePairs.{pairs_of};

    ghost Value = { List AnyPair };

    ghost view = { λ m. pairs_of m.values.entries };

    ghost invariant = { λ m. IsMap (pairs_of m.values.entries) };
}

impl ReplayMap {
    /// The empty map.
    pub(crate) fn new(alloc: Global) -> ReplayMap
        ensures { result ≡ [] }
    {
        ReplayMap {
            values: BTreeMap::new(alloc),
        }
    }

    /// How many keys there are. They rise in every map.
    pub(crate) fn len(&self) -> usize
        ensures len { result ≡ length self.now }
        ensures rising { IsMap self.now }
    {
        self.values.len()
    }

    /// The value of the key, if it is there.
    pub(crate) fn get(&self, key: u64) -> Option<u64>
        ensures { result ≡ map_get key self.now }
    {
        self.values.get(&key).copied()
    }

    /// Whether the key is there.
    pub(crate) fn has(&self, key: u64) -> bool
        ensures { result ≡ map_has key self.now }
    {
        self.values.contains_key(&key)
    }

    /// The first pair whose key is at least `key`.
    pub(crate) fn first_from(&self, key: u64) -> Option<Pair>
        ensures { result ≡ first_from key self.now }
    {
        match self.values.range(key..).next() {
            Some((key, val)) => Some(Pair {
                key: *key,
                val: *val,
            }),
            None => None,
        }
    }

    /// Makes the update's change. Returns whether its key was there.
    pub(crate) fn apply(&mut self, update: &Update) -> Result<bool, NoMemory>
        ensures was { IfOk result (λ was. was ≡ map_has update.now.key self.old) }
        ensures map { OnOk result (self.new ≡ updated self.old update.now) }
    {
        match update.change {
            Change::Put(val) => self.put(update.key, val),
            Change::Remove => Ok(self.remove(update.key)),
        }
    }

    fn put(&mut self, key: u64, val: u64) -> Result<bool, NoMemory>
        ensures was { IfOk result (λ was. was ≡ map_has key self.old) }
        ensures map { OnOk result (self.new ≡ map_put key val self.old) }
    {
        let before = self.values.insert(key, val)?;
        Ok(before.is_some())
    }

    fn remove(&mut self, key: u64) -> bool
        ensures was { result ≡ map_has key self.old }
        ensures map { self.new ≡ map_remove key self.old }
    {
        self.values.remove(&key).is_some()
    }
}
