// What a seat of the table knows and owns.
mod history;
mod reading;
mod slots;
mod update;

use crate::layout::Layout;
pub use history::{Counts, EndedPlace, SeenHistory};
use key_map::Items;
pub use reading::{Filled, Link, LinkSource, Place, Reading, TreeNode, Turn};
pub use slots::{Looks, SectionFound, Slots};
use std::alloc::Global;
pub use update::{
    Held, HeldNext, HeldNode, HeldSide, LoadedHead, OwedTag, Unlinking, UnsetLink, Updating,
};

/// What a seat knows and owns: plain data, which only the seat's own steps change. It is the view of a seat of the pure
/// machine and, as ghost data, of a seat of the running table.
#[derive(Drop)]
pub struct View {
    /// The table's layout.
    pub layout: Layout,
    /// The pass's number. None for the table's first view and for a view that was split off.
    pub number: Option<u32>,
    /// Whether the seat was joined into another one. Nothing is said of such a view.
    pub joined: bool,
    /// The numbers that it still has to give, while the table is opened.
    pub to_give: Items<u32>,
    /// What its own section word holds, and 0 without a number.
    pub section_word: u64,
    /// What its own announcement holds, and 0 without a number.
    pub announced: u64,
    /// The updates that it knows of, and those that it made.
    pub history: SeenHistory,
    /// How often a step found what another seat had done.
    pub counts: Counts,
    /// What it has read in its section.
    pub reading: Reading,
    /// The nodes that it locked, with what it has loaded of each.
    pub held: Held,
    /// The update that it is making.
    pub update: Updating,
    /// Its free slots.
    pub free: Slots,
    /// The slots that its updates took out, until they are taken as a batch.
    pub retired: Slots,
    /// The slots that wait for the end of a grace period.
    pub batch: Slots,
    /// What it has found in other sections since the batch was taken.
    pub grace: Looks,
    /// The slots that it has had since the table was opened, except those of which it has filled a word and those that
    /// came back to it. As long as one of them is free, its words are 0, except for the lock.
    pub unused: Slots,
}

impl View {
    ghost use Rattle.std.specs.Prelude.{◌≡◌};
    ghost use Rattle.index_words.specs.Views.{empty_view, spent_view};

    /// A view without a number that knows and owns nothing. It takes no memory.
    pub fn empty(alloc: Global, layout: Layout) -> View
        ensures { result ≡ empty_view layout }
    {
        View {
            layout,
            number: None,
            joined: false,
            to_give: Items::new(alloc),
            section_word: 0,
            announced: 0,
            history: SeenHistory::none(alloc),
            counts: Counts::none(),
            reading: Reading::none(alloc),
            held: Held::none(alloc),
            update: Updating::none(alloc),
            free: Slots::none(alloc),
            retired: Slots::none(alloc),
            batch: Slots::none(alloc),
            grace: Looks::none(alloc),
            unused: Slots::none(alloc),
        }
    }

    /// What is left of a view that was joined into another one. It takes no memory.
    pub fn spent(alloc: Global) -> View
        ensures { result ≡ spent_view }
    {
        let layout = Layout {
            passes: 0,
            nodes: 0,
            entries: 0,
            calls: 0,
        };
        let mut view = View::empty(alloc, layout);
        view.joined = true;
        view
    }
}
