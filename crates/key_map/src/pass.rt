/// What a pass may use: node slots, entry slots, and how many updates it may make.
#[derive(Clone, Copy, Debug, PartialEq, Eq)]
pub struct PassSize {
    pub nodes: u32,
    pub entries: u32,
    pub calls: u32,
}

/// The answer of an update: the place at which the map is as the answer says, and whether the key was in the map.
#[derive(Clone, Copy, Debug, PartialEq, Eq)]
pub struct Done {
    /// The place of the update, or the place at which the key was found absent.
    pub at: u64,
    pub was: bool,
}

/// The answer of a put that is made only if the key is absent.
#[derive(Clone, Copy, Debug, PartialEq, Eq)]
pub enum New {
    /// The key was absent, and the put was made: the place of its update.
    Made { at: u64 },
    /// The key was present, and no update was made: the place at which it was found.
    Kept { at: u64 },
}

/// Why a pass refuses an update. The pass is then unchanged.
#[derive(Clone, Copy, Debug, PartialEq, Eq)]
pub enum PassError {
    /// The pass owns no node slot, or fewer than four entry slots.
    NoSlot,
    /// The pass has made all updates that it may make.
    Spent,
}
