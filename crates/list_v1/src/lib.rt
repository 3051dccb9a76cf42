//! Listings of version 1 (Amazon S3 API reference, ListObjects): the point of a marker, the query of version 2 that
//! gives the page, and the next marker. The page itself is made by `page_rules`.
#![tactic(auto)]

mod marker;

pub use marker::{next_marker, plain_query, point_of};
