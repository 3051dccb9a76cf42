//! The turns of a search: the nodes at which it last went on to the left and to the right. The keys where it goes on
//! are strictly between theirs.
ghost use Rattle.std.specs.Prelude.{◌≡◌};
ghost use Rattle.core_events.specs.Searches.{turn_key};
ghost use Rattle.core_updates.specs.Plans.{link_of};
ghost use Rattle.update_search.specs.Turns.{no_turns, beyond, turned_at, side_to};

use core_trees::{Link, ROOT};
use index_words::{Side, Turn};

/// The last turns of a search. A turn that was not made yet sets no bound.
#[derive(Clone, Copy, Debug, PartialEq, Eq)]
pub struct Turns {
    /// The node at which the search last went on to the left: the keys are below its key.
    pub left: Option<Turn>,
    /// The node at which the search last went on to the right: the keys are above its key.
    pub right: Option<Turn>,
}

/// The link at which the plain tree hangs.
pub(crate) const TOP: Link = Link {
    node: ROOT,
    side: Side::Right,
};

impl Turns {
    /// No turn was made.
    pub(crate) fn none() -> Turns
        ensures { result ≡ no_turns }
    {
        Turns {
            left: None,
            right: None,
        }
    }

    /// The turn beyond which the key does not lie, if there is one.
    pub(crate) fn crossed_by(&self, key: u64) -> Option<Turn>
        ensures { result ≡ beyond self.now key }
    {
        if let Some(turn) = self.left
            && turn.key <= key
        {
            return Some(turn);
        }
        if let Some(turn) = self.right
            && key <= turn.key
        {
            return Some(turn);
        }
        None
    }

    /// The key of the last turn to the left, if there is one.
    pub(crate) fn left_key(&self) -> Option<u64>
        ensures { result ≡ turn_key self.now.left }
    {
        let turn = self.left?;
        Some(turn.key)
    }

    /// The turns after one to this side, at a node with this key.
    pub fn with(&self, side: Side, turn: Turn) -> Turns
        ensures { result ≡ turned_at side turn self.now }
    {
        match side {
            Side::Left => Turns {
                left: Some(turn),
                right: self.right,
            },
            Side::Right => Turns {
                left: self.left,
                right: Some(turn),
            },
        }
    }
}

/// The side to which a search for the key goes on at a node with another key.
pub(crate) fn side_to(key: u64, here: u64) -> Side
    ensures { result ≡ side_to key here }
{
    if key < here { Side::Left } else { Side::Right }
}

/// A link of the node.
pub(crate) fn link(node: u32, side: Side) -> Link
    ensures { result ≡ link_of node side }
{
    Link { node, side }
}
