// A pass over one sorted list: the trait's meaning as a program, for one caller.
ghost use Rattle.std.specs.Prelude.{◌≡◌, ◌<◌, ◌≤◌, ◌↔◌, [], None, All, IfOk, OnOk, OnErr, IsErrOf, IsTrue};
ghost use Rattle.key_map.specs.declared.update.Update.{Update};
ghost use Rattle.bucket_terms.specs.PassView.{MadePut, AnsweredPutNew, AnsweredRemoval, IsOutOfSlots};
ghost use Rattle.bucket_terms.specs.PlainPass.{fresh, KeepsLooks, LooksOnceIfAbsent, LooksOnceIfKept};

use crate::{Homed, KeyPass};
use key_map::{Change, Done, New, Pair, PassError, PassSize, PlainMap, Update};
use key_names::NoMemory;
use std::alloc::Global;
use std::marker::Model;
use std::sync::Wait;

/// A map for one caller, kept as one sorted list, that counts slots as a pass of the shared index does. It belongs to
/// no index. An update costs a binary search and a move of the pairs after its place.
#[derive(Drop)]
pub struct PlainPass {
    number: u32,
    nodes: u64,
    entries: u32,
    left: u32,
    map: PlainMap,
    updates: Vec<Update>,
    looks: u64,
    found: u64,
    opened: Option<u64>,
}

impl Model for PlainPass {
    ghost use Rattle.bucket_terms.specs.PassView.{PassView};

    ghost Value = { PassView };

    ghost use Rattle.bucket_terms.specs.PlainInside.{view_of, IsPlainPass};

    ghost view = { view_of };

    ghost invariant = { IsPlainPass };
}

impl PlainPass {
    /// A pass with an empty history and this number. All memory of its later calls is taken here: for
    /// `size.calls` pairs and as many updates.
    pub fn new(alloc: Global, number: u32, size: PassSize) -> Result<PlainPass, NoMemory>
        ensures fresh { IfOk result (λ pass. pass ≡ fresh number size) }
    {
        let room = size.calls as usize;
        let Ok(map) = PlainMap::with_room(alloc, room) else {
            return Err(NoMemory);
        };
        Ok(PlainPass {
            number,
            nodes: u64::from(size.nodes),
            entries: size.entries,
            left: size.calls,
            map,
            updates: Vec::with_capacity(alloc, room)?,
            looks: 0,
            found: 0,
            opened: None,
        })
    }

    /// The updates that were made, in order.
    pub fn updates(&self) -> &[Update]
        ensures seen { result.now ≡ self.now.seen }
        ensures own { All (λ (u : Update). u.client ≡ self.now.number) result.now }
    {
        &self.updates
    }
}

impl Homed for PlainPass {
    ghost use Rattle.std.specs.Prelude.{[]};

    ghost home = { λ _. [] };
}

impl KeyPass for PlainPass {
    ghost view = { λ pass. pass };

    fn put<Rt: Wait>(&mut self, _rt: &Rt, line: u32, key: u64, val: u64) -> Result<Done, PassError>
        requires { self.old.opened ≡ None }
        ensures made { IfOk result (MadePut self.old self.new line key val) }
        ensures spent { IsErrOf result PassError.Spent ↔ (self.old.left ≡ 0) }
        ensures no_slot { IsErrOf result PassError.NoSlot ↔ IsOutOfSlots self.old }
        ensures unchanged { OnErr result (self.new ≡ self.old) }
        ensures entries { self.new.entries ≡ self.old.entries }
        ensures looks { OnOk result (KeepsLooks self.old self.new) }
    {
        if self.left == 0 {
            return Err(PassError::Spent);
        }
        if !suffices(self.nodes, self.entries) {
            return Err(PassError::NoSlot);
        }
        let was = self.map.put(key, val);
        self.updates.push_reserved(Update {
            client: self.number,
            line,
            key,
            change: Change::Put(val),
        });
        self.left -= 1;
        self.nodes -= u64::from(!was);
        Ok(Done {
            at: self.updates.len() as u64,
            was,
        })
    }

    fn put_new<Rt: Wait>(
        &mut self,
        _rt: &Rt,
        line: u32,
        key: u64,
        val: u64,
    ) -> Result<New, PassError>
        requires { self.old.opened ≡ None }
        ensures answered { IfOk result (AnsweredPutNew self.old self.new line key val) }
        ensures spent { IsErrOf result PassError.Spent ↔ (self.old.left ≡ 0) }
        ensures no_slot { IsErrOf result PassError.NoSlot ↔ IsOutOfSlots self.old }
        ensures unchanged { OnErr result (self.new ≡ self.old) }
        ensures entries { self.new.entries ≡ self.old.entries }
        ensures looks { IfOk result (LooksOnceIfKept self.old self.new) }
    {
        if self.left == 0 {
            return Err(PassError::Spent);
        }
        if !suffices(self.nodes, self.entries) {
            return Err(PassError::NoSlot);
        }
        if self.map.has(key) {
            let here = self.updates.len() as u64;
            self.looks = self.looks.saturating_add(1);
            self.found = here;
            return Ok(New::Kept { at: here });
        }
        self.map.put(key, val);
        self.updates.push_reserved(Update {
            client: self.number,
            line,
            key,
            change: Change::Put(val),
        });
        self.left -= 1;
        self.nodes -= 1;
        Ok(New::Made {
            at: self.updates.len() as u64,
        })
    }

    fn remove<Rt: Wait>(&mut self, _rt: &Rt, line: u32, key: u64) -> Result<Done, PassError>
        requires { self.old.opened ≡ None }
        ensures made { IfOk result (AnsweredRemoval self.old self.new line key) }
        ensures spent { IsErrOf result PassError.Spent ↔ (self.old.left ≡ 0) }
        ensures no_slot { IsErrOf result PassError.NoSlot ↔ IsOutOfSlots self.old }
        ensures unchanged { OnErr result (self.new ≡ self.old) }
        ensures entries { self.new.entries ≡ self.old.entries }
        ensures looks { IfOk result (LooksOnceIfAbsent self.old self.new) }
    {
        if self.left == 0 {
            return Err(PassError::Spent);
        }
        if !suffices(self.nodes, self.entries) {
            return Err(PassError::NoSlot);
        }
        if !self.map.remove(key) {
            self.found = self.updates.len() as u64;
            self.looks = self.looks.saturating_add(1);
            return Ok(Done {
                at: self.found,
                was: false,
            });
        }
        self.updates.push_reserved(Update {
            client: self.number,
            line,
            key,
            change: Change::Remove,
        });
        self.left -= 1;
        self.nodes += 1;
        Ok(Done {
            at: self.updates.len() as u64,
            was: true,
        })
    }

    fn begin(&mut self) -> u64 {
        let at = self.updates.len() as u64;
        self.looks = self.looks.saturating_add(1);
        self.found = at;
        self.opened = Some(at);
        at
    }

    fn next_from<Rt: Wait>(&mut self, _rt: &Rt, key: u64) -> Option<Pair> {
        self.map.first_from(key)
    }

    fn end(&mut self) {
        self.opened = None;
    }

    fn client(&self) -> u32 {
        self.number
    }
}

// Whether these slots suffice for any update: it takes at most one node slot and four entry slots.
fn suffices(nodes: u64, entries: u32) -> bool
    ensures { IsTrue result ↔ ((0 < nodes) × (4 ≤ entries)) }
{
    nodes >= 1 && entries >= 4
}
