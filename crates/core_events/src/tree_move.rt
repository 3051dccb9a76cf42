// What a raise moves, and what an update still has to do after it.
use index_words::{Items, OwedTag, Unlinking, UnsetLink};
use std::alloc::Global;

/// What an update still has to do at plain links, from its raise on.
#[derive(Drop)]
pub struct PlainMove {
    /// The plain links to be set.
    pub unset: Items<UnsetLink>,
    /// The links whose tags are to be raised.
    pub owed: Items<OwedTag>,
    /// The successor that is to be unlinked after a wait.
    pub unlinking: Option<Unlinking>,
}

impl PlainMove {
    ghost use Rattle.std.specs.Prelude.{◌≡◌};
    ghost use Rattle.core_events.specs.PlainWork.{no_plain_move};

    /// Nothing to do. It takes no memory.
    pub fn none(alloc: Global) -> PlainMove
        ensures { result ≡ no_plain_move }
    {
        PlainMove {
            unset: Items::new(alloc),
            owed: Items::new(alloc),
            unlinking: None,
        }
    }
}

/// What a raise moves, apart from the number of its entries. Contracts of crates above name it.
#[derive(Drop)]
pub struct TreeMove {
    /// The node that the update brings in.
    pub added: Option<u32>,
    /// The entries of that node's bundles.
    pub entries: Items<u32>,
    /// The nodes that the update takes out.
    pub taken: Items<u32>,
    /// The entries of their bundles.
    pub taken_entries: Items<u32>,
    /// What remains to be done at plain links.
    pub plain: PlainMove,
}
