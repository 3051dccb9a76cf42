//! The way of a search down the open snapshot's tree, from which later searches of the same snapshot go on.
ghost use Rattle.std.specs.Prelude.{◌≡◌, ℕ, ◌<◌, nat_eq, length, true};
ghost use Rattle.index_words.specs.declared.view.View.{View};
ghost use Rattle.key_map.specs.Lists.{Every};
ghost use Rattle.snapshot_read.specs.Ways.{Covers, IsOnWay, IsKeptWay, IsTaken, root, right_of};

use crate::hints::Hints;
use core_trees::Link;
use index_words::{Pair, Side};
use std::alloc::Global;
use std::marker::Model;
use table_steps::TablePass;

/// How many searches are kept at most.
const STEPS: usize = 32;

/// How far a search has come.
#[derive(Clone, Copy)]
pub struct Search {
    /// The link at which it goes on.
    pub(crate) at: Link,
    /// The keys of the tree that hangs there are at least `low`, and below the key of `best`.
    pub(crate) low: u64,
    /// The pair that is the answer if that tree has none.
    pub(crate) best: Option<Pair>,
}

impl Search {
    /// Where each search may begin.
    pub(crate) fn root() -> Search
        ensures { result ≡ root }
    {
        Search {
            at: Link {
                node: 0,
                side: Side::Right,
            },
            low: 0,
            best: None,
        }
    }

    /// Where a search goes on to the right of a node with this key.
    pub(crate) fn right_of(node: u32, key: u64, best: Option<Pair>) -> Search
        requires { key < 18446744073709551615 }
        ensures { result ≡ right_of node key best }
    {
        Search {
            at: Link {
                node,
                side: Side::Right,
            },
            low: key + 1,
            best,
        }
    }

    /// Whether it begins at the root.
    pub(crate) fn is_at_root(&self) -> bool
        ensures { result ≡ nat_eq self.now.at.node 0 }
    {
        self.at.node == 0
    }

    /// Whether the first pair from the key on may be looked for here.
    pub(crate) fn covers(&self, key: u64) -> bool
        ensures { result ≡ true → Covers key self.now }
    {
        let below = match self.best {
            Some(pair) => key <= pair.key,
            None => true,
        };
        self.low <= key && below
    }
}

/// The searches that go on where one search of the open snapshot has not looked: to the right of the nodes at which it
/// went to the left. They are for one snapshot, and take no memory. Hints of the nodes of keys stay from one snapshot
/// to the next; contracts do not see them.
#[derive(Drop)]
pub struct Way {
    steps: [Search; 32],
    count: usize,
    /// No part of the value.
    pub(crate) hints: Hints,
}

impl Model for Way {
    ghost use Rattle.std.specs.Prelude.{ℕ, List, ◌≤◌, take};
    ghost use Rattle.snapshot_read.specs.declared.kept_way.Search.{Search};

    ghost Value = { List Search };

    ghost view = { λ w. take w.count w.steps };

    ghost invariant = { λ w. w.count ≤ 32 };
}

impl Way {
    /// A way on which nothing is kept.
    pub fn new() -> Way
        ensures { (v : View) → IsKeptWay v result }
    {
        Way {
            steps: [Search::root(); STEPS],
            count: 0,
            hints: Hints::none(),
        }
    }

    /// A way on which nothing is kept, with room for hints of the nodes of the keys below a bound, 4 bytes each: long
    /// listings load ahead by them. They are kept once a search has met a key from `many` on, since a tree of few keys
    /// mostly stays in the cache. Without memory for the room there are no hints; later calls take no memory.
    pub fn hinting(alloc: Global, bound: u32, many: u32) -> Way
        ensures { (v : View) → IsKeptWay v result }
    {
        Way {
            steps: [Search::root(); STEPS],
            count: 0,
            hints: Hints::below(alloc, bound, many),
        }
    }

    /// Forgets all searches that are kept.
    pub fn forget(&mut self)
        ensures { (v : View) → IsKeptWay v self.new }
    {
        self.count = 0;
    }

    /// Keeps a search. If there is no room, all others are forgotten.
    pub(crate) fn keep(&mut self, search: Search)
        ensures { (v : View) (t : ℕ) → Every (IsOnWay v t) self.old → IsOnWay v t search → Every (IsOnWay v t) self.new }
    {
        if self.count == STEPS {
            self.count = 0;
        }
        self.steps[self.count] = search;
        self.count += 1;
    }

    /// Keeps the search that goes on to the right of a node with this key, which a search for `asked` has met. It is
    /// not kept if no key is higher.
    pub(crate) fn keep_right(
        &mut self,
        pass: &mut TablePass<'_>,
        asked: u64,
        node: u32,
        key: u64,
        best: Option<Pair>,
    )
        ensures same { pass.new ≡ pass.old }
        ensures kept { (v : View) (t : ℕ) → Every (IsOnWay v t) self.old → IsOnWay v t (right_of node key best) → Every (IsOnWay v t) self.new }
    {
        if key < self.hints.from {
            self.keep(Search::right_of(node, key, best));
        } else {
            self.note_and_keep(pass, asked, node, key, best);
        }
    }

    /// The same where hints are kept, or no key is higher. It is apart, so that searches without hints are as quick as
    /// before.
    #[inline(never)]
    fn note_and_keep(
        &mut self,
        pass: &mut TablePass<'_>,
        asked: u64,
        node: u32,
        key: u64,
        best: Option<Pair>,
    )
        ensures same { pass.new ≡ pass.old }
        ensures kept { (v : View) (t : ℕ) → Every (IsOnWay v t) self.old → IsOnWay v t (right_of node key best) → Every (IsOnWay v t) self.new }
    {
        self.hints.meet(pass, asked, key, node);
        if key != u64::MAX {
            self.keep(Search::right_of(node, key, best));
        }
    }

    /// Takes the search that was kept last.
    fn pop(&mut self) -> Option<Search>
        ensures { IsTaken self.old result self.new }
    {
        if self.count == 0 {
            return None;
        }
        self.count -= 1;
        Some(self.steps[self.count])
    }

    /// Takes a search that goes on for this key: the last one kept that covers it, or else the one that begins at the
    /// root. Those kept later are forgotten.
    pub(crate) fn take(&mut self, key: u64) -> Search
        ensures covers { Covers key result }
        ensures kept { (v : View) (t : ℕ) → Every (IsOnWay v t) self.old → Every (IsOnWay v t) self.new }
        ensures way { (v : View) (t : ℕ) → Every (IsOnWay v t) self.old → IsOnWay v t result }
    {
        for _ in 0..STEPS {
            let Some(search) = self.pop() else {
                return Search::root();
            };
            if search.covers(key) {
                return search;
            }
        }
        Search::root()
    }
}
