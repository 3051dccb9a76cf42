/// What an update does to its key.
#[derive(Clone, Copy, Debug, PartialEq, Eq)]
pub enum Change {
    /// The key gets this value, whether or not it is present.
    Put(u64),
    /// The key is removed from the map.
    Remove,
}

/// One update of the history: who made it, for which request line, and what it changes.
/// The place of an update is its number in the history, counted from 1.
#[derive(Clone, Copy, Debug, PartialEq, Eq)]
pub struct Update {
    /// The number of the pass that made the update.
    pub client: u32,
    /// The request line that the update answers.
    pub line: u32,
    pub key: u64,
    pub change: Change,
}
