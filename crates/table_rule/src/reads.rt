//! Loads that are no events of the pure machine: they change nothing, neither a word nor what a seat knows.
ghost use Rattle.std.specs.Prelude.{◌≡◌, true};
ghost use Rattle.index_words.specs.Words.{is_there};
ghost use Rattle.table_rule.specs.Homes.{IsOf};
ghost use Rattle.table_rule.specs.Running.{HoldsAt};

use crate::ruled::{RuledTable, TableSeat};
use atomic_table::Play;
use index_words::{Field, Side, View, Word};

/// A load that changes nothing and is no event: it tells what some table that meets the rule with the seat's view holds
/// at the word.
pub struct Tells;

impl Play<u8, View> for Tells {
    ghost use Rattle.std.specs.Prelude.{◌≡◌};
    ghost use Rattle.table_rule.specs.Running.{Holds};

    ghost then = { λ s m n w. (w ≡ m) × Holds m.0.layout m.0 s.word n };
}

impl RuledTable {
    /// Loads a word again of which the seat knows what it holds: what the rule says of the word and the seat's view is
    /// true of the number found.
    pub fn read(&self, seat: &mut TableSeat, word: Word) -> u64
        requires of { IsOf self.now seat.old }
        requires there { is_there self.now.layout word ≡ true }
        ensures same { seat.new ≡ seat.old }
        ensures holds { HoldsAt self.now.layout seat.old.view word result }
    {
        let at = self.layout.address(word) as usize;
        self.table.shared.load::<Tells>(&mut seat.seat, at)
    }

    /// Loads what holds a node's plain links into the processor's cache. A node's key and its links lie apart in
    /// memory, so a search that loads the key finds the links in the cache then. Where there is no such node it does
    /// nothing. Nothing is known from it.
    pub fn fetch_links(&self, node: u32) {
        self.glance(Word::Node(Field::Link(Side::Right), node));
    }

    /// Loads the key of the node to which a plain link leads into the processor's cache, where there is one. Nothing is
    /// known from it: it need not be the child that a bundle has.
    #[inline(always)]
    pub fn fetch_child(&self, node: u32, side: Side) {
        if let Some(child) = self.glance(Word::Node(Field::Link(side), node))
            && let Ok(child) = u32::try_from(child)
        {
            self.glance(Word::Node(Field::Key, child));
        }
    }

    // What stands in the word, if there is such a word.
    #[inline(always)]
    fn glance(&self, word: Word) -> Option<u64> {
        if !self.layout.is_there(word) {
            return None;
        }
        let at = self.layout.address(word) as usize;
        Some(self.table.shared.peek(at))
    }
}
