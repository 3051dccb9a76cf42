//! The answer of one look into the open snapshot.
ghost use Rattle.std.specs.Prelude.{◌≡◌, Some};
ghost use Rattle.snapshot_read.specs.Looks.{told};

use index_words::Pair;

/// The answer of one look into the open snapshot.
#[derive(Clone, Copy, Debug, PartialEq, Eq)]
pub enum Look {
    /// The first pair from the key on.
    Found(Pair),
    /// There is no pair from the key on.
    Nothing,
    /// An entry had no stamp yet: another pass has it pending. Nothing is known; a later look may give the answer.
    Pending,
}

impl Look {
    // Where a search ends, the best pair that it has met is the first one.
    pub(crate) fn of_best(best: Option<Pair>) -> Look
        ensures { told result ≡ Some best }
    {
        match best {
            Some(pair) => Look::Found(pair),
            None => Look::Nothing,
        }
    }

    // What is known of the first pair. None if nothing is known.
    pub(crate) fn known(self) -> Option<Option<Pair>>
        ensures { result ≡ told self }
    {
        match self {
            Look::Found(pair) => Some(Some(pair)),
            Look::Nothing => Some(None),
            Look::Pending => None,
        }
    }
}
