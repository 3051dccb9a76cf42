// What a view knows of the history.
use key_map::{Items, Update};
use std::alloc::Global;

/// A place of an update that a joined view had made.
#[derive(Clone, Copy, Debug, PartialEq, Eq)]
pub struct EndedPlace {
    /// The number of the joined view.
    pub pass: u32,
    /// The place, counted from 1.
    pub at: u64,
}

/// What a view knows of the history.
#[derive(Drop)]
pub struct SeenHistory {
    /// The first updates of the history, as far as the view knows them.
    pub seen: Items<Update>,
    /// The updates that the view joined last knew of: a beginning of `seen`.
    pub told: Items<Update>,
    /// The places of its own updates, counted from 1 and rising.
    pub mine: Items<u64>,
    /// The numbers of the views that were joined into this one, directly or through others.
    pub ended: Items<u32>,
    /// The places of their updates.
    pub ended_places: Items<EndedPlace>,
    /// How many updates it may still make.
    pub left: u32,
    /// The number that its last fixed load of the stamp gave.
    pub found: u64,
    /// How many loads of the stamp fixed a place.
    pub looks: u64,
}

/// How often a step found what another seat had done.
#[derive(Clone, Copy, Debug, PartialEq, Eq)]
pub struct Counts {
    /// A lock word named another pass.
    pub busy: u64,
    /// An entry of another seat had no stamp yet.
    pub waits: u64,
    /// A mark, a head, a link or a tag had changed.
    pub moves: u64,
}

impl SeenHistory {
    ghost use Rattle.std.specs.Prelude.{◌≡◌};
    ghost use Rattle.index_words.specs.Views.{no_history};

    /// Nothing known, and no update that may be made. It takes no memory.
    pub fn none(alloc: Global) -> SeenHistory
        ensures { result ≡ no_history }
    {
        SeenHistory {
            seen: Items::new(alloc),
            told: Items::new(alloc),
            mine: Items::new(alloc),
            ended: Items::new(alloc),
            ended_places: Items::new(alloc),
            left: 0,
            found: 0,
            looks: 0,
        }
    }
}

impl Counts {
    ghost use Rattle.std.specs.Prelude.{◌≡◌};
    ghost use Rattle.index_words.specs.Views.{no_counts};

    pub fn none() -> Counts
        ensures { result ≡ no_counts }
    {
        Counts {
            busy: 0,
            waits: 0,
            moves: 0,
        }
    }
}
