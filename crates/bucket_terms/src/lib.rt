//! The terms in which a bucket answers: requests, replies, pages, what a legal run is, and the trait of a
//! pass, the one way in which a caller reaches the map. The layers above use the definitions of `specs/`, the clauses
//! of `KeyPass`, and `PlainPass`, a pass over one sorted list.
#![tactic(auto)]

mod homed;
mod key_pass;
mod list_query;
mod page;
mod page_entries;
mod plain_pass;
mod pool_pass;
mod record;
mod reply;
mod request;
mod shared;
mod summary;
mod token;
mod token_point;
mod v1_query;

pub use homed::{Homed, Tagged};
pub use key_pass::KeyPass;
pub use list_query::ListQuery;
pub use page::{Page, PageEntry};
pub use page_entries::PageEntries;
pub use plain_pass::PlainPass;
pub use pool_pass::{PoolPass, Slots};
pub use record::Record;
pub use reply::{Placed, Reply};
pub use request::Request;
pub use shared::Shared;
pub use summary::Summary;
pub use token::{Bound, Token};
pub use token_point::TokenPoint;
pub use v1_query::V1Query;
