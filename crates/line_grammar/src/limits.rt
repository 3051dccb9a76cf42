// The limits of a page. The definitions of `specs/Line.antt` have the same numbers.

/// The most entries of a page.
pub(crate) const MAX_KEYS: u32 = 1000;

/// The greatest `max-keys` that a line can write.
pub(crate) const MAX_WRITTEN: u64 = 2_147_483_647;
