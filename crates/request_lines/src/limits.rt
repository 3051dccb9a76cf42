// The limits of a session. The definitions of `specs/Input.antt` have the same numbers.

/// The most bytes that an input may have: 64 MiB.
pub const MAX_INPUT_BYTES: usize = 67_108_864;

/// The most clients of a session.
pub(crate) const MAX_CLIENTS: u32 = 32;

/// The most request lines of a session, of all clients together.
pub(crate) const MAX_REQUESTS: u32 = 200_000;

/// The most entries that the LIST, LISTV1 and NEXT lines of a session can be answered, together.
pub(crate) const MAX_LISTED: u32 = 4_000_000;
