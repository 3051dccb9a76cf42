// The answers to requests.
use crate::{ListQuery, Page, Shared, V1Query};

/// The answer to a request.
#[derive(Debug, Drop)]
pub enum Reply {
    /// 200. `was` says whether the key was there before.
    Put {
        was: bool,
    },
    /// 412. The key is there, so the put was not made.
    Exists,
    /// 204, whether or not the key was there (Amazon S3 API reference, DeleteObject).
    Deleted,
    /// 200. The record at place `val` of the session's records.
    Found {
        val: u64,
    },
    /// 404.
    Missing,
    /// 200. The query that was answered, with the token that it went on from, and its page.
    Listed {
        query: Shared<ListQuery>,
        page: Shared<Page>,
    },
    /// 200. The query of version 1 that was answered, and its page.
    ListedV1 {
        query: Shared<V1Query>,
        page: Shared<Page>,
    },
    /// 400. The continuation token is the text of no token, or of one with another prefix or delimiter; or
    /// there is no page to go on from.
    BadToken,
    /// 503. The pass had no slot left for the update.
    NoSlot,
}

/// A reply with its place in the history.
#[derive(Debug, Drop)]
pub struct Placed {
    pub client: u32,
    pub line: u32,
    /// How many updates have been made at the moment of the answer. None exactly for a refused request: `BadToken`
    /// and `NoSlot`.
    pub at: Option<u64>,
    pub reply: Reply,
}
