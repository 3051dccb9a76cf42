//! The slots of a pass, and its looks at other sections.
ghost use Rattle.std.specs.Prelude.{◌≡◌, ◌≤◌, ◌<◌, ◌++◌, ◌∷◌, ◌⊎◌, [], length, Some, IfOk, ◌&&◌, not, true};
ghost use Rattle.std.specs.List.{slice_get};
ghost use Rattle.index_words.specs.declared.view.View.{View};
ghost use Rattle.index_words.specs.Views.{no_looks};
ghost use Rattle.key_map.specs.Lists.{count, has};
ghost use Rattle.core_events.specs.UpdateMoves.{without, without_all, listed_entry};
ghost use Rattle.core_grace.specs.Batches.{batch_taken, settled, looked, is_empty};
ghost use Rattle.pass_slots.specs.Owned.{KeepsSlots, KeepsLooks, HasRoomOf, IsIdle, Shown, kept_of, node_count, entry_count, taken_from};

use crate::own_slots::OwnSlots;
use crate::slot_lists::SlotLists;
use crate::waits::Waits;
use index_words::NoMemory;
use std::alloc::Global;
use std::marker::Model;

/// The slots of a pass, and its looks at other sections. Contracts see the lists as a view has them.
///
/// The lists lie in memory of their own. So a call that is given them has no reference into what else a pass keeps, and
/// the compiler may keep that in registers from one step to the next.
#[derive(Drop)]
pub struct PassSlots {
    lists: Box<SlotLists>,
    /// Where it is true no slot waits, and no look was made since the last batch became free.
    /// An enter is its store and this one test, put in its caller's place. With five tests and a call a step took 1.6
    /// times as long as a bare atomic operation, with one test 1.2 times.
    idle: bool,
}

impl Model for PassSlots {
    ghost use Rattle.std.specs.Prelude.{◌≡◌, true};
    ghost use Rattle.pass_slots.specs.Owned.{KeptSlots, IsIdle, kept_of};

    ghost Value = { KeptSlots };

    ghost view = { λ s. kept_of s.lists.value.nodes s.lists.value.entries s.lists.value.waits };

    ghost invariant = { λ s. s.idle ≡ true → IsIdle (kept_of s.lists.value.nodes s.lists.value.entries s.lists.value.waits) };
}

impl PassSlots {
    /// The slots of these lists, with no looks.
    pub fn new(alloc: Global, nodes: OwnSlots, entries: OwnSlots) -> Result<PassSlots, NoMemory>
        ensures { IfOk result (λ s. (w : Shown) × (s ≡ kept_of nodes entries w) × KeepsLooks no_looks w) }
    {
        let lists = SlotLists {
            nodes,
            entries,
            waits: Waits::none(),
        };
        let lists = Box::new(alloc, lists)?;
        Ok(PassSlots { lists, idle: false })
    }

    /// Whether neither a batch waits nor a slot is retired.
    pub fn is_settled(&self) -> bool
        ensures { result ≡ (is_empty self.now.batch && is_empty self.now.retired) }
    {
        self.lists.is_settled()
    }

    /// How many free nodes there are.
    pub fn free_nodes(&self) -> usize
        ensures { result ≡ length self.now.free.nodes }
    {
        self.lists.nodes.free_count()
    }

    /// How many free entries there are.
    pub fn free_entries(&self) -> usize
        ensures { result ≡ length self.now.free.entries }
    {
        self.lists.entries.free_count()
    }

    /// How many nodes there are together: free ones, those of the batch, and retired ones.
    pub fn owned_nodes(&self) -> usize
        ensures { result ≡ node_count self.now }
    {
        self.lists.nodes.owned_count()
    }

    /// How many entries there are together: free ones, those of the batch, and retired ones.
    pub fn owned_entries(&self) -> usize
        ensures { result ≡ entry_count self.now }
    {
        self.lists.entries.owned_count()
    }

    /// The free node at this place of the list. None after the last one.
    pub fn free_node(&self, place: usize) -> Option<u32>
        ensures { result ≡ slice_get self.now.free.nodes place }
    {
        self.lists.nodes.free_at(place)
    }

    /// The free entry at this place of the list. None after the last one.
    pub fn free_entry(&self, place: usize) -> Option<u32>
        ensures { result ≡ slice_get self.now.free.entries place }
    {
        self.lists.entries.free_at(place)
    }

    /// Takes a node out of the free ones.
    pub fn take_node(&mut self, node: u32)
        requires { count node self.old.free.nodes ≡ 1 }
        ensures { self.new ≡ record self.old { free = record self.old.free { nodes = without node self.old.free.nodes } } }
    {
        self.lists.nodes.take(node);
    }

    /// Adds a free node.
    pub fn regain_node(&mut self, node: u32)
        requires { node_count self.old < self.old.node_room }
        ensures { self.new ≡ record self.old { free = record self.old.free { nodes = self.old.free.nodes ++ node ∷ [] } } }
    {
        self.lists.nodes.regain(node);
    }

    /// Takes a node out of the free ones, where it is not 0.
    fn take_given_node(&mut self, node: u32)
        requires { (node ≡ 0) ⊎ (count node self.old.free.nodes ≡ 1) }
        ensures { self.new ≡ record self.old { free = record self.old.free { nodes = without_all (listed_entry node) self.old.free.nodes } } }
    {
        if node != 0 {
            self.take_node(node);
        }
    }

    /// Takes an entry out of the free ones, where it is not 0.
    fn take_given_entry(&mut self, entry: u32)
        requires { (entry ≡ 0) ⊎ (count entry self.old.free.entries ≡ 1) }
        ensures { self.new ≡ record self.old { free = record self.old.free { entries = without_all (listed_entry entry) self.old.free.entries } } }
    {
        if entry != 0 {
            self.take_entry(entry);
        }
    }

    /// Takes a node out of the free ones, and two entries, each where it is not 0.
    pub fn take_new(&mut self, node: u32, left: u32, right: u32)
        requires node { (node ≡ 0) ⊎ (count node self.old.free.nodes ≡ 1) }
        requires left { (left ≡ 0) ⊎ (count left self.old.free.entries ≡ 1) }
        requires right { (right ≡ 0) ⊎ (count right self.old.free.entries ≡ 1) }
        requires apart { left ≡ right → left ≡ 0 }
        ensures { self.new ≡ record self.old { free = taken_from (listed_entry node) (listed_entry left ++ listed_entry right) self.old.free } }
    {
        self.take_given_node(node);
        self.take_given_entry(left);
        self.take_given_entry(right);
    }

    /// Takes an entry out of the free ones.
    pub fn take_entry(&mut self, entry: u32)
        requires { count entry self.old.free.entries ≡ 1 }
        ensures { self.new ≡ record self.old { free = record self.old.free { entries = without entry self.old.free.entries } } }
    {
        self.lists.entries.take(entry);
    }

    /// Adds a retired node.
    pub fn retire_node(&mut self, node: u32)
        requires { node_count self.old < self.old.node_room }
        ensures { self.new ≡ record self.old { retired = record self.old.retired { nodes = self.old.retired.nodes ++ node ∷ [] } } }
    {
        self.idle = false;
        self.lists.nodes.retire(node);
    }

    /// Adds a retired entry.
    pub fn retire_entry(&mut self, entry: u32)
        requires { entry_count self.old < self.old.entry_room }
        ensures { self.new ≡ record self.old { retired = record self.old.retired { entries = self.old.retired.entries ++ entry ∷ [] } } }
    {
        self.idle = false;
        self.lists.entries.retire(entry);
    }

    /// Whether a batch waits.
    pub fn has_batch(&self) -> bool
        ensures { result ≡ not (is_empty self.now.batch) }
    {
        !(self.lists.nodes.is_batch_empty() && self.lists.entries.is_batch_empty())
    }

    /// Whether the batch that waits has passed this pass. Where none waits, the one that would be taken now has passed
    /// none.
    pub fn was_passed(&self, pass: u32) -> bool
        requires { pass < 32 }
        ensures { (v : View) → KeepsSlots v self.now → result ≡ has pass (batch_taken v).grace.passed }
    {
        self.has_batch() && self.lists.waits.was_passed(pass)
    }

    /// What an enter does: the retired slots become the batch where none waits, and it becomes free where each other
    /// pass was passed.
    pub fn enter(&mut self, passes: u32, number: u32)
        requires { passes ≤ 32 }
        ensures keeps { (v : View) → KeepsSlots v self.old → v.number ≡ Some number → KeepsSlots (settled passes (batch_taken v)) self.new }
        ensures room { HasRoomOf self.old self.new }
    {
        if !self.idle {
            self.idle = self.lists.enter(passes, number);
        }
    }

    /// What a look does that found `word` as the section word of `pass`.
    pub fn look(&mut self, passes: u32, number: u32, pass: u32, word: u64)
        requires few { passes ≤ 32 }
        requires there { pass < 32 }
        ensures keeps { (v : View) → KeepsSlots v self.old → v.number ≡ Some number → KeepsSlots (looked passes v pass word) self.new }
        ensures room { HasRoomOf self.old self.new }
    {
        self.idle = false;
        self.lists.look(passes, number, pass, word);
    }
}
