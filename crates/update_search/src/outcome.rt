//! How a search or a try fails.

/// Why a search or a try has failed. The count of this failure has risen.
#[derive(Clone, Copy, Debug, PartialEq, Eq)]
pub enum Failed {
    /// A lock was found held.
    Busy,
    /// A node is marked, or a plain link or its tag is not what the search found there.
    Moved,
}
