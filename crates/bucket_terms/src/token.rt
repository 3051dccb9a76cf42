// Continuation tokens, and the listing that they belong to.
ghost use Rattle.std.specs.Prelude.{◌≡◌, ◌↔◌, true};
ghost use Rattle.bucket_terms.specs.Listing.{bound_of};

use crate::{ListQuery, TokenPoint};
use key_names::Text;

/// The prefix and the delimiter of the listing that a token goes on with. Each has at most 1,024 bytes.
#[derive(Debug, Drop)]
pub struct Bound {
    pub prefix: Text,
    pub delimiter: Text,
}

impl Bound {
    /// Whether these are the prefix and the delimiter of the query.
    pub fn is_of(&self, query: &ListQuery) -> bool
        ensures { (result ≡ true) ↔ (self.now ≡ bound_of query.now) }
    {
        self.prefix == query.prefix && self.delimiter == query.delimiter
    }
}

/// A continuation token: the point from which a listing goes on, and the listing that it belongs to. A token without
/// a bound goes on with any.
#[derive(Debug, Drop)]
pub struct Token {
    pub point: TokenPoint,
    pub bound: Option<Bound>,
}
