// The atomic steps of seats.
use index_words::Update;

/// A kind of atomic step.
#[derive(Clone, Copy, Debug, PartialEq, Eq)]
pub enum Kind {
    /// Makes a seat, only at opening: `State::start` does it, and it is never allowed as an event.
    MakeSeat,
    /// Makes a seat without a number that has seen what this one has. Its value is how many free nodes move to it, 0 or
    /// 1. Its word is the stamp.
    SplitSeat,
    /// Takes in what another seat knows and owns, and ends that seat. Its value is the other seat. Its word
    /// is the stamp.
    JoinSeat,
    /// Enters a section: stores its own section word plus 1.
    Enter,
    /// Leaves a section: stores its own section word plus 1, or minus 1 at the last word of all.
    Leave,
    /// Loads the section word of another pass, for retired slots or at the wait of a removal.
    LookSec,
    /// Stores to a word of a free slot of its own, but not to its lock.
    Fill,
    /// Loads the stamp: the number at which the seat reads from then on, if it has announced. Its value is 1 if it
    /// fixes a place, otherwise 0.
    LoadStamp,
    /// Loads the head of a reachable node's bundle, and stands at the entry found.
    LoadHead,
    /// Loads the stamp of the entry at which the seat stands.
    LoadTs,
    /// Loads the child of that entry.
    LoadPtr,
    /// Loads the next of that entry, and stands at the entry found.
    LoadNext,
    /// Stores a free entry of its own as the head of a bundle of a locked node. It is pending from then on.
    Prepare,
    /// Adds one to the stamp: the update takes effect, and its pending entries have that number.
    Raise,
    /// Stores the number of the raise as the stamp of a pending entry.
    Finalise,
    /// Tries to lock the root, or a node that the seat's search has reached: stores the pass's number plus 1 if the
    /// lock word is found 0.
    TryLock,
    /// Releases a lock: stores 0.
    Unlock,
    /// Loads a mark.
    LoadMark,
    /// Marks a locked node that the update took out: stores 1.
    Mark,
    /// Loads a key or a value.
    LoadKeyOrVal,
    /// Stores its own announcement: inside a section, before there is a section number, how many updates the seat has
    /// seen, plus 1. Outside of a section it stores 0.
    Announce,
    /// Loads the announcement of another pass, so that nothing is cut that this pass may read.
    LookAnn,
    /// Stores 0 as the next of the entry that the least number selects at a locked node: the bundle ends with it, and
    /// the entries after it are retired.
    Cut,
    /// Loads a plain link of a node that the seat has locked, or at which its search stands.
    LoadLink,
    /// Stores a plain link of a locked node, which the update still has to set.
    SetLink,
    /// Loads the tag of a plain link of any node.
    LoadTag,
    /// Stores the tag of a plain link that a removal has made null: one more than before.
    SetTag,
}

/// One atomic step of one seat.
#[derive(Clone, Copy, Debug, PartialEq, Eq)]
pub struct Event {
    /// The seat that steps. Pass `i` is seat `i`. The emptied first view is the seat after the last pass, and split
    /// seats follow in the order in which they are made.
    pub seat: u32,
    pub kind: Kind,
    /// The number of the word that is loaded or stored.
    pub word: u64,
    /// What is stored, or would be stored by a try of a lock that finds it held. The number of nodes at a split, the
    /// other seat at a join, 1 at a load of the stamp that fixes a place, otherwise 0.
    pub value: u64,
    /// The update at a raise, and None at every other kind.
    pub update: Option<Update>,
}
