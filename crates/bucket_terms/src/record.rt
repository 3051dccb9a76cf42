// What is kept of an object.
use key_names::Text;

/// What the bucket keeps of one object: its size in bytes, its entity tag, and when it was last modified,
/// in whole seconds.
#[derive(Debug, Drop)]
pub struct Record {
    pub size: u64,
    /// 1 to 64 ASCII letters, digits and `-`, without quotes.
    pub etag: Text,
    pub modified: u64,
}
