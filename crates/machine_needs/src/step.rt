// The step that an allowed event makes, and what it stores.
ghost use Rattle.std.specs.Prelude.{◌≡◌};
ghost use Rattle.machine_needs.specs.StepParts.{store_parts};

use index_words::{Side, Update, Word};

/// What an allowed event does, with what its kind needs. An event is read once, when its needs are tested, and all that
/// follows works on the step.
#[derive(Clone, Copy)]
pub enum Step {
    /// Makes a seat without a number, with so many of the free nodes, 0 or 1.
    Split { nodes: u64 },
    /// Takes the other seat in.
    Join { other: u64 },
    /// Loads the stamp, and fixes a place if `fixes` says so.
    LoadStamp { fixes: bool },
    /// Adds one to the stamp, for this update.
    Raise { update: Update },
    /// Stores the value if the lock word is 0.
    TryLock { node: u32, value: u64 },
    /// Ends a bundle after this entry, and retires the entries that stood there.
    Cut { entry: u32 },
    /// Loads a word, and changes the view of its seat alone.
    Load(Load),
    /// Stores a word, and changes the view of its seat alone.
    Store(Store),
}

/// The words that are loaded, except the stamp.
#[derive(Clone, Copy)]
pub enum Load {
    /// The section word of another pass.
    Section { pass: u32 },
    /// The announcement of another pass.
    Announced { pass: u32 },
    Head { node: u32, side: Side },
    /// The stamp of an entry.
    Number { entry: u32 },
    Child { entry: u32 },
    Next { entry: u32 },
    Mark { node: u32 },
    Key { node: u32 },
    Val { node: u32 },
    /// A plain link.
    Link { node: u32, side: Side },
    /// A plain link's tag.
    Tag { node: u32, side: Side },
}

/// The words that are stored, except locks that are tried.
#[derive(Clone, Copy)]
pub enum Store {
    /// The own section word, which is odd then.
    Enter { pass: u32, value: u64 },
    /// The own section word, which is even then.
    Leave { pass: u32, value: u64 },
    /// The own announcement: a number plus 1, or 0 if it is taken back.
    Announce { pass: u32, value: u64 },
    /// A word of an own free slot.
    Fill { word: Word, value: u64 },
    /// The head of a bundle: the entry.
    Prepare { node: u32, side: Side, entry: u32 },
    /// The stamp of a pending entry: the number of the raise.
    Finalise { entry: u32, number: u64 },
    /// The lock of a node: 0.
    Unlock { node: u32 },
    /// The mark of a node: 1.
    Mark { node: u32 },
    /// A plain link: the child to which the update is still to set it.
    Link { node: u32, side: Side, child: u64 },
    /// A plain link's tag: one more than before.
    Tag { node: u32, side: Side, tag: u64 },
}

impl Store {
    /// What is stored.
    pub fn value(self) -> u64
        ensures { result ≡ (store_parts self).value }
    {
        match self {
            Store::Enter { value, .. } | Store::Leave { value, .. } => value,
            Store::Announce { value, .. } | Store::Fill { value, .. } => value,
            Store::Prepare { entry, .. } => u64::from(entry),
            Store::Finalise { number, .. } => number,
            Store::Unlock { .. } => 0,
            Store::Mark { .. } => 1,
            Store::Link { child, .. } => child,
            Store::Tag { tag, .. } => tag,
        }
    }
}
