/// Why a list of names makes no directory. The number is the place of the first faulty name, from 0. A faulty name is
/// reported before too many names.
#[derive(Clone, Copy, Debug, PartialEq, Eq)]
pub enum NamesError {
    /// The name has no bytes: an object key has at least one.
    Empty(usize),
    /// The name has more than 1,024 bytes, the most that Amazon S3 takes for an object key.
    TooLong(usize),
    /// The names, each counted once, are more than 4,294,967,295, and none of them is faulty: a rank has 32 bits.
    TooMany,
    /// The allocator refused. `Directory::new`, which sorts in place, never returns it.
    NoMemory,
}
