// What a seat has read in its section.
use crate::side::Side;
use crate::word::Word;
use key_map::Items;
use std::alloc::Global;

/// A node of the tree at the section number.
#[derive(Clone, Copy, Debug, PartialEq, Eq)]
pub struct TreeNode {
    pub slot: u32,
    pub key: u64,
    pub val: u64,
    /// The children's slots, 0 for none.
    pub left: u32,
    pub right: u32,
}

/// Where a seat stands.
#[derive(Clone, Copy, Debug, PartialEq, Eq)]
pub enum Place {
    /// Nowhere yet. A search on plain links begins at the root.
    Nowhere,
    /// At an entry of a bundle, as a word was found to name it, with the stamp word if it was loaded. 0 is after the
    /// last entry.
    Entry {
        node: u32,
        side: Side,
        entry: u64,
        stamp: Option<u64>,
    },
    /// At a node that a search on plain links has reached, as a word was found to name it, with its key if that was
    /// loaded.
    Node {
        node: u64,
        key: Option<u64>,
    },
    /// At a null link at which a search on plain links ended.
    Gap {
        node: u32,
        side: Side,
    },
}

/// How a link was found.
#[derive(Clone, Copy, Debug, PartialEq, Eq)]
pub enum LinkSource {
    /// Through the link's bundle: the entry that selected it, 0 if none did.
    Bundle {
        entry: u64,
    },
    /// As a plain link: its tag if that was loaded, and the keys of the two turns: `above` that of the left turn and
    /// `below` that of the right turn.
    Plain {
        tag: Option<u64>,
        above: Option<u64>,
        below: Option<u64>,
    },
}

/// A link that a seat remembers.
#[derive(Clone, Copy, Debug, PartialEq, Eq)]
pub struct Link {
    pub node: u32,
    pub side: Side,
    /// The child's slot as it was found, 0 for none.
    pub child: u64,
    pub source: LinkSource,
}

/// A node at which a search on plain links last turned.
#[derive(Clone, Copy, Debug, PartialEq, Eq)]
pub struct Turn {
    pub node: u32,
    pub key: u64,
}

/// A word into which a seat has put a value: one of a free slot of its own, or of an entry that it has had
/// pending since.
#[derive(Clone, Copy, Debug, PartialEq, Eq)]
pub struct Filled {
    pub word: Word,
    pub value: u64,
}

/// What a seat has read in its section.
#[derive(Drop)]
pub struct Reading {
    /// The number at which it reads bundles, if it has one.
    pub section: Option<u64>,
    /// The number of the open snapshot, if there is one.
    pub opened: Option<u64>,
    /// The tree at the section number, in the order of the keys. Empty without a section number.
    pub tree: Items<TreeNode>,
    pub place: Place,
    /// The number of the entry that it has just left on its way along a bundle, if that was loaded.
    pub above: Option<u64>,
    pub links: Items<Link>,
    /// The node at which the search last turned left, and the one at which it last turned right.
    pub left_turn: Option<Turn>,
    pub right_turn: Option<Turn>,
    /// The least number that a pruner has found announced; its own section number counts too.
    pub least: Option<u64>,
    /// The passes at whose announcements it has looked.
    pub looked: Items<u32>,
    /// What it has put into the words of its free slots, each word with the last value.
    pub filled: Items<Filled>,
}

impl Reading {
    ghost use Rattle.std.specs.Prelude.{◌≡◌};
    ghost use Rattle.index_words.specs.Views.{no_reading};

    /// Nothing read. It takes no memory.
    pub fn none(alloc: Global) -> Reading
        ensures { result ≡ no_reading }
    {
        Reading {
            section: None,
            opened: None,
            tree: Items::new(alloc),
            place: Place::Nowhere,
            above: None,
            links: Items::new(alloc),
            left_turn: None,
            right_turn: None,
            least: None,
            looked: Items::new(alloc),
            filled: Items::new(alloc),
        }
    }
}
