// The parameters of a listing of version 2.
ghost use Rattle.std.specs.Prelude.{◌≡◌, IfOk};
ghost use Rattle.bucket_terms.specs.Listing.{bound_of};

use crate::Bound;
use key_names::{NoMemory, Text};
use std::alloc::Global;

/// The parameters of a listing (Amazon S3 API reference, ListObjectsV2). An empty text is a parameter
/// that was not given.
#[derive(Debug, Drop)]
pub struct ListQuery {
    /// Only keys that begin with it are listed. At most 1,024 bytes.
    pub prefix: Text,
    /// Keys in which it occurs after the prefix are rolled up into common prefixes. At most 1,024 bytes.
    pub delimiter: Text,
    /// Only keys above it are listed, where there is no token. At most 1,024 bytes.
    pub start_after: Text,
    /// The continuation token of the page before.
    pub token: Text,
    /// The most entries that a page has: 0 to 1,000.
    pub max_keys: u32,
    /// Whether the texts of the answer are percent-encoded (`encoding-type=url`).
    pub url: bool,
}

impl ListQuery {
    /// An equal query with texts of its own.
    pub fn copy(&self, alloc: Global) -> Result<ListQuery, NoMemory>
        ensures { IfOk result (λ copied. copied ≡ self.now) }
    {
        Ok(ListQuery {
            prefix: self.prefix.copy(alloc)?,
            delimiter: self.delimiter.copy(alloc)?,
            start_after: self.start_after.copy(alloc)?,
            token: self.token.copy(alloc)?,
            max_keys: self.max_keys,
            url: self.url,
        })
    }
    /// What the tokens of this listing are bound to.
    pub fn bound(&self, alloc: Global) -> Result<Bound, NoMemory>
        ensures { IfOk result (λ bound. bound ≡ bound_of self.now) }
    {
        Ok(Bound {
            prefix: self.prefix.copy(alloc)?,
            delimiter: self.delimiter.copy(alloc)?,
        })
    }
}
