//! A pass of the index keeps the clauses of a pass. Besides them its contracts say which step of the call gives each
//! place: the raise of an update of its own, or a load of the stamp.
ghost use Rattle.std.specs.Prelude.{◌≡◌, ◌↔◌, None, IfOk, OnErr, IsErrOf};
ghost use Rattle.bucket_terms.specs.Gathering.{Gathered};
ghost use Rattle.bucket_terms.specs.PassView.{MadePut, AnsweredPutNew, AnsweredRemoval, Began, IsOutOfSlots};
ghost use Rattle.table_steps.specs.Stamps.{IsFoundAt};
ghost use Rattle.tree_update.specs.Calls.{IsPlaceOfPut, IsPlaceOfNew, IsPlaceOfRemoval};
ghost use Rattle.shared_index.specs.Keys.{home_of_pass};
ghost use Rattle.shared_index.specs.Shown.{shown};

use crate::facts::own_facts;
use crate::pass::IndexPass;
use bucket_terms::{Homed, KeyPass};
use index_words::Pair;
use key_map::{Done, New, PassError};
use std::sync::Wait;

impl<'t> Homed for IndexPass<'t> {
    ghost use Rattle.shared_index.specs.Keys.{home_of_pass};

    ghost home = { home_of_pass };
}

impl<'t> KeyPass for IndexPass<'t> {
    ghost use Rattle.shared_index.specs.Shown.{shown};
    ghost use Rattle.shared_index.specs.Keys.{home_of_pass};

    ghost view = { shown };

    fn put<Rt: Wait>(&mut self, rt: &Rt, line: u32, key: u64, val: u64) -> Result<Done, PassError>
        requires closed { (shown self.old).opened ≡ None }
        ensures made { IfOk result (MadePut (shown self.old) (shown self.new) line key val) }
        ensures place { IfOk result (λ done. IsPlaceOfPut self.old line key val done self.new.view) }
        ensures spent { IsErrOf result PassError.Spent ↔ ((shown self.old).left ≡ 0) }
        ensures no_slot { IsErrOf result PassError.NoSlot ↔ IsOutOfSlots (shown self.old) }
        ensures unchanged { OnErr result (shown self.new ≡ shown self.old) }
        ensures waits { self.new.view.counts.waits ≡ self.old.view.counts.waits }
        ensures home { home_of_pass self.new ≡ home_of_pass self.old }
    {
        let answer = tree_update::put(&mut self.pass, rt, line, key, val);
        own_facts(&self.pass);
        answer
    }

    fn put_new<Rt: Wait>(
        &mut self,
        rt: &Rt,
        line: u32,
        key: u64,
        val: u64,
    ) -> Result<New, PassError>
        requires closed { (shown self.old).opened ≡ None }
        ensures answered { IfOk result (AnsweredPutNew (shown self.old) (shown self.new) line key val) }
        ensures place { IfOk result (λ answer. IsPlaceOfNew self.old line key val answer self.new.view) }
        ensures spent { IsErrOf result PassError.Spent ↔ ((shown self.old).left ≡ 0) }
        ensures no_slot { IsErrOf result PassError.NoSlot ↔ IsOutOfSlots (shown self.old) }
        ensures unchanged { OnErr result (shown self.new ≡ shown self.old) }
        ensures home { home_of_pass self.new ≡ home_of_pass self.old }
    {
        let answer = tree_update::put_new(&mut self.pass, rt, line, key, val);
        own_facts(&self.pass);
        answer
    }

    /// It may wait where `put` does, and in one more case: if the node of the key has two children and its successor
    /// hangs further down, it returns only once each other pass was outside a section since the removal took effect. So
    /// it does not return while another pass keeps a snapshot open; reads, and updates at other nodes, go on meanwhile.
    fn remove<Rt: Wait>(&mut self, rt: &Rt, line: u32, key: u64) -> Result<Done, PassError>
        requires closed { (shown self.old).opened ≡ None }
        ensures made { IfOk result (AnsweredRemoval (shown self.old) (shown self.new) line key) }
        ensures place { IfOk result (λ done. IsPlaceOfRemoval self.old line key done self.new.view) }
        ensures spent { IsErrOf result PassError.Spent ↔ ((shown self.old).left ≡ 0) }
        ensures no_slot { IsErrOf result PassError.NoSlot ↔ IsOutOfSlots (shown self.old) }
        ensures unchanged { OnErr result (shown self.new ≡ shown self.old) }
        ensures home { home_of_pass self.new ≡ home_of_pass self.old }
    {
        let answer = tree_update::remove(&mut self.pass, rt, line, key);
        own_facts(&self.pass);
        answer
    }

    /// A pass that owns a node, and fewer than four entries, cuts old entries that nobody reads until it owns enough.
    /// While others read them it waits, for a bounded time, and once for each of their numbers.
    fn gather<Rt: Wait>(&mut self, _rt: &Rt)
        requires closed { (shown self.old).opened ≡ None }
        ensures gathered { Gathered (shown self.old) (shown self.new) }
        ensures home { home_of_pass self.new ≡ home_of_pass self.old }
    {
        let vain = tree_update::gather(&mut self.pass, self.vain);
        own_facts(&self.pass);
        self.vain = vain;
    }

    fn begin(&mut self) -> u64
        requires closed { (shown self.old).opened ≡ None }
        ensures began { Began (shown self.old) (shown self.new) result }
        ensures event { IsFoundAt self.old 1 result self.new.view }
        ensures home { home_of_pass self.new ≡ home_of_pass self.old }
    {
        let at = snapshot_read::begin(&mut self.pass);
        own_facts(&self.pass);
        self.way.forget();
        at
    }

    fn next_from<Rt: Wait>(&mut self, rt: &Rt, key: u64) -> Option<Pair> {
        snapshot_read::next_on(&mut self.pass, rt, &mut self.way, key)
    }

    fn value_of<Rt: Wait>(&mut self, rt: &Rt, key: u64) -> Option<u64> {
        match snapshot_read::next_from(&mut self.pass, rt, key) {
            Some(pair) if pair.key == key => Some(pair.val),
            _ => None,
        }
    }

    fn end(&mut self) {
        snapshot_read::end(&mut self.pass);
    }

    fn client(&self) -> u32 {
        own_facts(&self.pass);
        self.pass.client()
    }
}
