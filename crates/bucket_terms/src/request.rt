// The requests of a session.
use crate::{ListQuery, Shared, V1Query};
use key_names::Text;

/// What one line of a session asks.
#[derive(Debug, Drop)]
pub enum Request {
    /// Puts the record at place `val` of the session's records under the name.
    Put { name: Text, val: u64 },
    /// The same where the name is not there, and nothing where it is: a put with `If-None-Match: *` (Amazon S3 API
    /// reference, PutObject).
    PutNew { name: Text, val: u64 },
    Delete { name: Text },
    Head { name: Text },
    List(Shared<ListQuery>),
    /// A listing of version 1 (Amazon S3 API reference, ListObjects).
    ListV1(Shared<V1Query>),
    /// The client's last LIST or NEXT again, from where its page ended.
    Next,
}
