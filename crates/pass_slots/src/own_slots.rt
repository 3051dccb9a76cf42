//! The slots of one kind that a pass owns.
ghost use Rattle.std.specs.Prelude.{◌≡◌, ◌≤◌, ◌<◌, ◌+◌, ◌++◌, ◌∷◌, [], length, take, drop, reverse, ◌==◌, IfOk, Some};
ghost use Rattle.std.specs.List.{slice_get};
ghost use Rattle.std.specs.VecDeque.{deque_len, deque_capacity};
ghost use Rattle.key_map.specs.Lists.{count};
ghost use Rattle.core_events.specs.UpdateMoves.{without};
ghost use Rattle.pass_slots.specs.Owned.{slot_count};

use index_words::NoMemory;
use std::alloc::Global;
use std::collections::VecDeque;
use std::marker::Model;

/// The slots of one kind that a pass owns: the free ones, those of the batch, and the retired ones. One list has them
/// all, with room for as many as the pass may ever own, so none of the calls takes memory.
///
/// The list is a ring. Retired slots are added at its front, and free ones are added and taken at its back, so the
/// unused room lies between the two. A batch lies between the retired slots and the free ones: to become it, the
/// retired slots stay where they are.
#[derive(Drop)]
pub struct OwnSlots {
    slots: VecDeque<u32>,
    /// How many slots are retired. The slot that was retired last is the first of the list.
    retired: usize,
    /// How many slots the batch has. They follow the retired ones, in the same order.
    batch: usize,
    /// How many slots there is room for.
    room: u32,
}

impl Model for OwnSlots {
    ghost use Rattle.std.specs.Prelude.{◌≤◌, ◌+◌, length};
    ghost use Rattle.std.specs.VecDeque.{deque_capacity};
    ghost use Rattle.pass_slots.specs.Owned.{SlotParts, parts_of};

    ghost Value = { SlotParts };

    ghost view = { λ s. parts_of s.retired s.batch s.room s.slots.items };

    ghost invariant = { λ s. (s.room ≤ deque_capacity s.slots) × (s.retired + s.batch ≤ length s.slots.items) × (length s.slots.items ≤ s.room) };
}

/// The place of a slot in a list, not among the first `start`. It is looked for from the end.
#[inline(always)]
fn last_place(slots: &VecDeque<u32>, start: usize, slot: u32) -> usize
    requires there { 0 < count slot (drop start slots.now.items) }
    ensures place { slice_get slots.now.items result ≡ Some slot }
    ensures after { start ≤ result }
{
    for i in 0..slots.len() - start {
        let at = slots.len() - 1 - i;
        if slots[at] == slot {
            return at;
        }
    }
    unreachable!()
}

/// Puts the first `count` slots of a list in the opposite order.
fn reverse_first(slots: &mut VecDeque<u32>, count: usize)
    requires { count ≤ deque_len slots.old }
    ensures items { slots.new.items ≡ reverse (take count slots.old.items) ++ drop count slots.old.items }
    ensures capacity { deque_capacity slots.new ≡ deque_capacity slots.old }
{
    for i in 0..count / 2 {
        slots.swap(i, count - 1 - i);
    }
}

/// Takes out the slot at this place. At the last place no other slot is moved.
#[inline(always)]
#[tactic(auto, using(crate::proofs::Ends::taken_last))]
fn remove_at(slots: &mut VecDeque<u32>, at: usize)
    requires there { at < deque_len slots.old }
    ensures items { slots.new.items ≡ take at slots.old.items ++ drop (at + 1) slots.old.items }
    ensures len { deque_len slots.new + 1 ≡ deque_len slots.old }
    ensures capacity { deque_capacity slots.new ≡ deque_capacity slots.old }
{
    if at + 1 == slots.len() {
        slots.pop_back();
    } else {
        slots.remove(at);
    }
}

impl OwnSlots {
    /// No slots, and room for so many. It takes all memory that the lists will use.
    pub fn with_room(alloc: Global, room: u32) -> Result<OwnSlots, NoMemory>
        ensures free { IfOk result (λ s. s.free ≡ []) }
        ensures batch { IfOk result (λ s. s.batch ≡ []) }
        ensures retired { IfOk result (λ s. s.retired ≡ []) }
        ensures room { IfOk result (λ s. room ≤ s.room) }
    {
        let slots = VecDeque::with_capacity(alloc, room as usize)?;
        Ok(OwnSlots {
            slots,
            retired: 0,
            batch: 0,
            room,
        })
    }

    /// Adds a free slot, where no batch waits and nothing is retired.
    pub fn add_free(&mut self, slot: u32)
        requires room { length self.old.free < self.old.room }
        requires batch { self.old.batch ≡ [] }
        requires retired { self.old.retired ≡ [] }
        ensures free { self.new.free ≡ self.old.free ++ slot ∷ [] }
        ensures batch { self.new.batch ≡ [] }
        ensures retired { self.new.retired ≡ [] }
        ensures room { self.new.room ≡ self.old.room }
    {
        self.slots.push_back_reserved(slot);
    }

    /// Adds a free slot, after the others.
    pub fn regain(&mut self, slot: u32)
        requires { slot_count self.old < self.old.room }
        ensures free { self.new.free ≡ self.old.free ++ slot ∷ [] }
        ensures batch { self.new.batch ≡ self.old.batch }
        ensures retired { self.new.retired ≡ self.old.retired }
        ensures room { self.new.room ≡ self.old.room }
    {
        self.slots.push_back_reserved(slot);
    }

    /// Takes a slot out of the free ones. It is looked for from the end of the list, so the slots that are taken
    /// should be the last ones.
    #[inline(always)]
    pub fn take(&mut self, slot: u32)
        requires { count slot self.old.free ≡ 1 }
        ensures free { self.new.free ≡ without slot self.old.free }
        ensures batch { self.new.batch ≡ self.old.batch }
        ensures retired { self.new.retired ≡ self.old.retired }
        ensures room { self.new.room ≡ self.old.room }
    {
        let at = last_place(&self.slots, self.retired + self.batch, slot);
        remove_at(&mut self.slots, at);
    }

    /// How many free slots there are.
    pub fn free_count(&self) -> usize
        ensures { result ≡ length self.now.free }
    {
        self.slots.len() - self.retired - self.batch
    }

    /// How many slots there are together.
    pub fn owned_count(&self) -> usize
        ensures { result ≡ slot_count self.now }
    {
        self.slots.len()
    }

    /// The free slot at this place of the list. None after the last one.
    pub fn free_at(&self, place: usize) -> Option<u32>
        ensures { result ≡ slice_get self.now.free place }
    {
        if self.free_count() <= place {
            return None;
        }
        Some(self.slots[self.retired + self.batch + place])
    }

    /// Adds a retired slot.
    pub fn retire(&mut self, slot: u32)
        requires { slot_count self.old < self.old.room }
        ensures free { self.new.free ≡ self.old.free }
        ensures batch { self.new.batch ≡ self.old.batch }
        ensures retired { self.new.retired ≡ self.old.retired ++ slot ∷ [] }
        ensures room { self.new.room ≡ self.old.room }
    {
        self.slots.push_front_reserved(slot);
        self.retired += 1;
    }

    /// Whether no slot is in the batch.
    pub fn is_batch_empty(&self) -> bool
        ensures { result ≡ (length self.now.batch == 0) }
    {
        self.batch == 0
    }

    /// Whether no slot is retired.
    pub fn is_retired_empty(&self) -> bool
        ensures { result ≡ (length self.now.retired == 0) }
    {
        self.retired == 0
    }

    /// The retired slots become the batch, where none waits.
    pub fn take_batch(&mut self)
        requires { self.old.batch ≡ [] }
        ensures free { self.new.free ≡ self.old.free }
        ensures batch { self.new.batch ≡ self.old.retired }
        ensures retired { self.new.retired ≡ [] }
        ensures room { self.new.room ≡ self.old.room }
    {
        self.batch = self.retired;
        self.retired = 0;
    }

    /// The slots of the batch become free, after the others, in the order in which they were retired. The work grows with
    /// the batch and the retired slots, not with the free ones.
    ///
    /// In the ring the batch stands between the retired slots and the free ones, both in the opposite order. The first
    /// reversal puts the batch first and in order, the turn of the ring moves it to the end, and the second reversal
    /// restores the order of the retired slots.
    pub fn free_batch(&mut self)
        ensures free { self.new.free ≡ self.old.free ++ self.old.batch }
        ensures batch { self.new.batch ≡ [] }
        ensures retired { self.new.retired ≡ self.old.retired }
        ensures room { self.new.room ≡ self.old.room }
    {
        if self.batch == 0 {
            return;
        }
        reverse_first(&mut self.slots, self.retired + self.batch);
        self.slots.rotate_left(self.batch);
        reverse_first(&mut self.slots, self.retired);
        self.batch = 0;
    }
}
