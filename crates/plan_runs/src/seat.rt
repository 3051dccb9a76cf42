// What a pass is asked for, and the steps by which it does it.
use crate::machine::Stop;
use core_trees::Link;
use core_updates::{Front, Plan, PlanSlots};
use index_words::{Counts, Side, Turn, Update, Word};

#[derive(Clone, Copy)]
pub(crate) enum Request {
    Put { key: u64, val: u64 },
    Remove { key: u64 },
    /// Opens a snapshot, which stays open until it is closed.
    Open,
    /// Looks a key up in the open snapshot.
    Get { key: u64 },
    Close,
}

/// A step of a pass. Most make one event; a step that has more to do puts the rest in front of the steps that are left.
#[derive(Clone, Copy)]
pub(crate) enum Step {
    /// Looks at the section of a pass, until there are free slots enough, for so many rounds.
    Settle { pass: u32, rounds: u32 },
    Enter,
    Leave,
    /// Loads the stamp; with `fix` it opens a snapshot.
    LoadStamp { fix: bool },
    /// Announces how many updates the pass has seen.
    Announce,
    /// Takes the announcement back.
    TakeBack,
    Search(SearchStep),
    Walk(WalkStep),
    Update(UpdateStep),
    Prune(PruneStep),
    Plain(PlainStep),
    /// Reports how a try has ended.
    Tell(Outcome),
}

/// A step along a link's bundle, or down the tree.
#[derive(Clone, Copy)]
pub(crate) enum WalkStep {
    Head(Link),
    Number,
    Next,
    Child,
    /// At the child of the link, looks for the key.
    Arrive { at: Link, key: u64 },
    Key { node: u32, key: u64 },
    Val { node: u32, key: u64 },
}

/// A step of a search on plain links, for the key of the update or for the successor of its node.
#[derive(Clone, Copy)]
pub(crate) enum SearchStep {
    /// Goes on by the link, where the search stands.
    Link(Link),
    /// Looks at the key of the node to which the link has led.
    Key { at: Link, node: u32 },
    /// The search has ended at the link, which is null.
    Tag(Link),
    /// Steps to the right of the node of a removal.
    Right { at: Link, node: u32 },
    /// The key of the node does not lie beyond the turn: one of the two was taken out.
    Odd { node: u32, turn: u32 },
    OddLock { node: u32, turn: u32 },
    OddMark { node: u32, turn: u32 },
}

/// A step of an update, under its locks or on the way to them.
#[derive(Clone, Copy)]
pub(crate) enum UpdateStep {
    Lock(u32),
    /// Checks whether the locked node is unmarked.
    Unmarked(u32),
    /// Checks whether the link still leads to the child that the search has found.
    Leads { at: Link, child: u32 },
    /// Checks whether the null link still has the tag that the search has found.
    SameTag(Gap),
    /// Loads a word of a locked node's pair, or one of its links.
    Learn(Word),
    /// Makes the plan from what is known.
    Plan(Aim),
    /// Loads the newest entry of each bundle in front of which the plan puts one.
    Head(usize),
    Number,
    FillNode(usize),
    FillFresh { side: Side, place: usize },
    FillFront { front: usize, place: usize },
    Prepare(usize),
    Raise,
    Finalise,
    Mark(usize),
    Unlock,
}

/// A null link at which a search has ended, with its tag.
#[derive(Clone, Copy)]
pub(crate) struct Gap {
    pub(crate) at: Link,
    pub(crate) tag: u64,
}

/// A node that a search has found, and the link to it.
#[derive(Clone, Copy)]
pub(crate) struct Found {
    pub(crate) at: Link,
    pub(crate) node: u32,
}

/// What a try is to do, as its searches have found it.
#[derive(Clone, Copy)]
pub(crate) enum Aim {
    Grow(Link),
    Replace(Found),
    Remove(Found),
    /// A removal of a node with two children, and its successor.
    Join { removed: Found, next: Found },
}

/// A step of an update that has written its numbers: it cuts the bundles of the links that it changed.
#[derive(Clone, Copy)]
pub(crate) enum PruneStep {
    /// Looks at the announcement of a pass, and of those after it.
    Look(u32),
    /// Walks along the bundle of a link that the plan changes.
    Bundle(usize),
    Number,
    Next,
    Cut(u32),
}

/// A step of an update that has marked what it took out, at a place of the plan's links.
#[derive(Clone, Copy)]
pub(crate) enum PlainStep {
    /// Sets the plain link, and those after it.
    Link(usize),
    /// Loads its tag if a removal has made it null, and the tags of those after it.
    Tag(usize),
    /// Raises the tag that was loaded.
    Raise(Link),
    /// Looks at the section of a pass and of those after it, until the successor may be unlinked.
    Wait(u32),
    /// Marks the successor.
    Last,
    /// Sets the link to the successor.
    Unlink,
    /// Raises the tag of that link if it is null.
    LastTag,
}

/// How a try has ended.
#[derive(Clone, Copy, Debug, PartialEq, Eq)]
pub(crate) enum Outcome {
    /// The update was made.
    Done,
    /// There was no key to remove.
    Absent,
    /// A lock was held by another pass.
    Busy,
    /// A node was marked, or a link or its tag was another one.
    Moved,
    /// The search has not found the key of a removal, and a snapshot has it.
    Late,
    /// Too few slots are free.
    NoSlot,
}

#[derive(Clone, Copy)]
pub(crate) enum Report {
    Raised {
        at: u64,
        key: u64,
        /// The value of a put.
        val: Option<u64>,
        was: bool,
    },
    /// A bundle ends with `entry`, and `next` stood after it.
    Cut {
        entry: u32,
        next: u64,
    },
    Tried {
        outcome: Outcome,
        /// The number at which the pass read.
        at: u64,
        counts: Counts,
    },
    Found {
        at: u64,
        key: u64,
        val: Option<u64>,
        counts: Counts,
    },
}

#[derive(Drop)]
pub(crate) struct Seat {
    pub(crate) number: u32,
    pub(crate) requests: Vec<Request>,
    /// The place of the request that it is at.
    pub(crate) at: usize,
    /// The steps that are left, the next one last.
    pub(crate) steps: Vec<Step>,
    pub(crate) update: Option<Update>,
    /// The last turns of its search.
    pub(crate) left: Option<Turn>,
    pub(crate) right: Option<Turn>,
    /// The node that it is to remove, while it searches for the successor.
    pub(crate) removed: Option<Found>,
    /// Whether it looks in a snapshot for the key of a removal, which may be absent.
    pub(crate) checks: bool,
    pub(crate) plan: Option<Plan>,
    pub(crate) slots: PlanSlots,
}

impl Seat {
    /// Puts these steps, in their order, in front of those that are left.
    pub(crate) fn then(&mut self, steps: &[Step]) -> Result<(), Stop> {
        for step in steps.iter().rev() {
            self.steps.push(*step)?;
        }
        Ok(())
    }

    /// The entries that the plan puts in front of bundles, one after another.
    pub(crate) fn front(&self, place: usize) -> Option<Front> {
        let plan = self.plan?;
        match place {
            0 => Some(plan.front(&self.slots)),
            1 => plan.next_front(&self.slots),
            _ => None,
        }
    }

    /// Gives up: what is locked is unlocked, and the section is left.
    pub(crate) fn give_up(&mut self, outcome: Outcome) -> Result<(), Stop> {
        self.steps.clear();
        self.then(&[
            Step::Update(UpdateStep::Unlock),
            Step::Tell(outcome),
            Step::Leave,
            Step::TakeBack,
        ])
    }
}
