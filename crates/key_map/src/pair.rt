/// One entry of the map: a key, which is the rank of a name in the directory, and its value, which is
/// the place of a record.
#[derive(Clone, Copy, Debug, PartialEq, Eq)]
pub struct Pair {
    pub key: u64,
    pub val: u64,
}
