// The parameters of a listing of version 1.
use key_names::Text;

/// The parameters of a listing of version 1 (Amazon S3 API reference, ListObjects). An empty text is a parameter that
/// was not given.
#[derive(Debug, Drop)]
pub struct V1Query {
    /// Only keys that begin with it are listed. At most 1,024 bytes.
    pub prefix: Text,
    /// Keys in which it occurs after the prefix are rolled up into common prefixes. At most 1,024 bytes.
    pub delimiter: Text,
    /// The key, or the common prefix, after which the listing begins. At most 1,024 bytes.
    pub marker: Text,
    /// The most entries that a page has: 0 to 1,000.
    pub max_keys: u32,
    /// Whether the texts of the answer are percent-encoded (`encoding-type=url`).
    pub url: bool,
}
