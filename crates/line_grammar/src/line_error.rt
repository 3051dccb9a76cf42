// The errors of reading a line.
ghost use Rattle.std.specs.Prelude.{◌≡◌};
ghost use Rattle.line_grammar.specs.declared.line_error.LineError.TheVariants.{Faulty as IsFaulty, NoMemory as OutOfMemory};

use crate::Cause;
use std::alloc::{AllocError, AllocFailed};

/// Why a line is not read.
#[derive(Clone, Copy, Debug, PartialEq, Eq)]
pub enum LineError {
    Faulty(Cause),
    NoMemory,
}

impl From<AllocError> for LineError {
    ghost from_gives = { λ _ e. e ≡ OutOfMemory };

    fn from(_: AllocError) -> Self {
        LineError::NoMemory
    }
}

impl<T: Drop> From<AllocFailed<T>> for LineError {
    ghost from_gives = { λ _ e. e ≡ OutOfMemory };

    fn from(_: AllocFailed<T>) -> Self {
        LineError::NoMemory
    }
}

impl From<key_names::NoMemory> for LineError {
    ghost from_gives = { λ _ e. e ≡ OutOfMemory };

    fn from(_: key_names::NoMemory) -> Self {
        LineError::NoMemory
    }
}

impl From<Cause> for LineError {
    ghost from_gives = { λ cause e. e ≡ IsFaulty cause };

    fn from(cause: Cause) -> Self {
        LineError::Faulty(cause)
    }
}
