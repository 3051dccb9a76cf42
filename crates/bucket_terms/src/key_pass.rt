// One caller's way to the map. A pass is used by one caller at a time. Other passes of the same index may
// change the map between two of its calls and during them; an open snapshot stays as it is.
ghost use Rattle.std.specs.Prelude.{◌≡◌, ◌↔◌, ℕ, None, Some, IsSome, IfOk, OnErr, IsErrOf};
ghost use Rattle.key_map.specs.Map.{first_from, value_at};
ghost use Rattle.key_map.specs.History.{after};
ghost use Rattle.bucket_terms.specs.Gathering.{Gathered};
ghost use Rattle.bucket_terms.specs.PassView.{PassView, MadePut, AnsweredPutNew, AnsweredRemoval, Began, KnowsOwn, IsOutOfSlots};

use crate::homed::Homed;
use key_map::{Done, New, Pair, PassError};
use std::sync::Wait;

/// A pass to an ordered map from ranks to values, of which every update has a number.
/// A call that takes `rt` may wait for another pass; no call takes memory.
pub trait KeyPass: Homed {
    /// What its caller knows of the pass.
    ghost view: { Self → PassView };

    /// Puts the key with this value, for the request line `line`.
    fn put<Rt: Wait>(&mut self, rt: &Rt, line: u32, key: u64, val: u64) -> Result<Done, PassError>
        requires { (view self.old).opened ≡ None }
        ensures made { IfOk result (MadePut (view self.old) (view self.new) line key val) }
        ensures spent { IsErrOf result PassError.Spent ↔ ((view self.old).left ≡ 0) }
        ensures no_slot { IsErrOf result PassError.NoSlot ↔ IsOutOfSlots (view self.old) }
        ensures unchanged { OnErr result (view self.new ≡ view self.old) }
        ensures home { Self.home self.new ≡ Self.home self.old };

    /// Puts the key with this value where it is not there, for the request line `line`. Where it is there, no update is
    /// made: the answer is that of a snapshot. The conditions on slots are the same then.
    fn put_new<Rt: Wait>(
        &mut self,
        rt: &Rt,
        line: u32,
        key: u64,
        val: u64,
    ) -> Result<New, PassError>
        requires { (view self.old).opened ≡ None }
        ensures answered { IfOk result (AnsweredPutNew (view self.old) (view self.new) line key val) }
        ensures spent { IsErrOf result PassError.Spent ↔ ((view self.old).left ≡ 0) }
        ensures no_slot { IsErrOf result PassError.NoSlot ↔ IsOutOfSlots (view self.old) }
        ensures unchanged { OnErr result (view self.new ≡ view self.old) }
        ensures home { Self.home self.new ≡ Self.home self.old };

    /// Takes the key out, for the request line `line`. Where it is not there, no update is made: the answer is
    /// that of a snapshot. The conditions on slots are the same then.
    /// A removal may wait for other passes until each has left the section in which it is.
    fn remove<Rt: Wait>(&mut self, rt: &Rt, line: u32, key: u64) -> Result<Done, PassError>
        requires { (view self.old).opened ≡ None }
        ensures made { IfOk result (AnsweredRemoval (view self.old) (view self.new) line key) }
        ensures spent { IsErrOf result PassError.Spent ↔ ((view self.old).left ≡ 0) }
        ensures no_slot { IsErrOf result PassError.NoSlot ↔ IsOutOfSlots (view self.old) }
        ensures unchanged { OnErr result (view self.new ≡ view self.old) }
        ensures home { Self.home self.new ≡ Self.home self.old };

    /// Gets entry slots for the next update, where the pass lacks some and can get them: it makes no update, and
    /// fixes no place. A pass that gets none this way need not define this call: it then does nothing.
    fn gather<Rt: Wait>(&mut self, _rt: &Rt)
        requires { (view self.old).opened ≡ None }
        ensures gathered { Gathered (view self.old) (view self.new) }
        ensures home { Self.home self.new ≡ Self.home self.old }
    {}

    /// Opens a snapshot and returns its place.
    fn begin(&mut self) -> u64
        requires { (view self.old).opened ≡ None }
        ensures began { Began (view self.old) (view self.new) result }
        ensures home { Self.home self.new ≡ Self.home self.old };

    /// The first pair of the open snapshot whose key is at least `key`.
    fn next_from<Rt: Wait>(&mut self, rt: &Rt, key: u64) -> Option<Pair>
        requires { IsSome (view self.old).opened }
        ensures first { (at : ℕ) → (view self.old).opened ≡ Some at → result ≡ first_from key (after (view self.old).seen at) }
        ensures same { view self.new ≡ view self.old }
        ensures home { Self.home self.new ≡ Self.home self.old };

    /// The value that the key has in the open snapshot. None where the key is not there.
    fn value_of<Rt: Wait>(&mut self, rt: &Rt, key: u64) -> Option<u64>
        requires { IsSome (view self.old).opened }
        ensures value { (at : ℕ) → (view self.old).opened ≡ Some at → result ≡ value_at key (first_from key (after (view self.old).seen at)) }
        ensures same { view self.new ≡ view self.old }
        ensures home { Self.home self.new ≡ Self.home self.old }
    {
        match self.next_from(rt, key) {
            Some(pair) if pair.key == key => Some(pair.val),
            _ => None,
        }
    }

    /// Closes the snapshot.
    fn end(&mut self)
        requires { IsSome (view self.old).opened }
        ensures closed { view self.new ≡ record (view self.old) { opened = None } }
        ensures home { Self.home self.new ≡ Self.home self.old };

    /// The number of the pass. A caller learns here too that the pass knows its own updates.
    fn client(&self) -> u32
        ensures number { result ≡ (view self.now).number }
        ensures mine { KnowsOwn (view self.now) };
}
