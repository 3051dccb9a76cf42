// The errors of reading a session.
ghost use Rattle.std.specs.Prelude.{◌≡◌};
ghost use Rattle.request_lines.specs.declared.session_error.SessionError.TheVariants.{NoMemory};

use crate::Cause;
use std::alloc::{AllocError, AllocFailed};

/// The first faulty line of an input, counted from 1, and its first cause.
#[derive(Clone, Copy, Debug, PartialEq, Eq)]
pub struct InputError {
    pub line: u32,
    pub cause: Cause,
}

/// Why there is no session.
#[derive(Clone, Copy, Debug, PartialEq, Eq)]
pub enum SessionError {
    /// A line is not of the grammar, or goes past a limit.
    Input(InputError),
    NoMemory,
}

impl From<AllocError> for SessionError {
    ghost from_gives = { λ _ e. e ≡ NoMemory };

    fn from(_: AllocError) -> Self {
        SessionError::NoMemory
    }
}

impl From<key_names::NoMemory> for SessionError {
    ghost from_gives = { λ _ e. e ≡ NoMemory };

    fn from(_: key_names::NoMemory) -> Self {
        SessionError::NoMemory
    }
}

impl<T: Drop> From<AllocFailed<T>> for SessionError {
    ghost from_gives = { λ _ e. e ≡ NoMemory };

    fn from(_: AllocFailed<T>) -> Self {
        SessionError::NoMemory
    }
}
