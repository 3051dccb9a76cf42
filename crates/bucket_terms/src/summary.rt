/// What a run of the generated session has done, all its clients together: the numbers of its summary line.
/// It is this repository's own, without a counterpart in the S3 API.
#[derive(Clone, Copy, Debug, PartialEq, Eq)]
pub struct Summary {
    /// How many keys the map has after the last update.
    pub keys: u64,
    /// How many entries all listed pages have, keys and common prefixes.
    pub listed: u64,
    /// How many request lines the clients have. A `CLIENT` line is none.
    pub requests: u64,
    /// How many updates the history has. A removal of a missing key is none.
    pub updates: u64,
}
