// What a seat has locked, and the update that it is making.
use crate::side::Side;
use crate::view::slots::Looks;
use key_map::Items;
use std::alloc::Global;

/// The head of a bundle as it was loaded or stored under the lock.
#[derive(Clone, Copy, Debug, PartialEq, Eq)]
pub struct LoadedHead {
    pub entry: u64,
    /// The entry's stamp word if it was loaded.
    pub stamp: Option<u64>,
}

/// What a seat has loaded or stored of one side of a node since it locked the node.
#[derive(Clone, Copy, Debug, PartialEq, Eq)]
pub struct HeldSide {
    pub head: Option<LoadedHead>,
    /// The plain link's word, as it was found.
    pub link: Option<u64>,
    pub tag: Option<u64>,
}

/// A node that a seat has locked.
#[derive(Clone, Copy, Debug, PartialEq, Eq)]
pub struct HeldNode {
    pub node: u32,
    pub key: Option<u64>,
    pub val: Option<u64>,
    pub mark: Option<u64>,
    pub left: HeldSide,
    pub right: HeldSide,
}

/// The next word of an entry of a locked node's bundles, as it was loaded or stored under the lock.
#[derive(Clone, Copy, Debug, PartialEq, Eq)]
pub struct HeldNext {
    pub node: u32,
    pub entry: u32,
    /// The entry's stamp word if it was loaded.
    pub stamp: Option<u64>,
    pub next: u64,
}

/// The nodes that a seat has locked, with what it has loaded of each since.
#[derive(Drop)]
pub struct Held {
    pub nodes: Items<HeldNode>,
    pub nexts: Items<HeldNext>,
}

/// A plain link that an update still has to set: what it holds until then, and the child that it is to have.
#[derive(Clone, Copy, Debug, PartialEq, Eq)]
pub struct UnsetLink {
    pub node: u32,
    pub side: Side,
    pub was: u64,
    pub child: u64,
}

/// A link whose tag an update still has to raise.
#[derive(Clone, Copy, Debug, PartialEq, Eq)]
pub struct OwedTag {
    pub node: u32,
    pub side: Side,
}

/// A successor that a removal still has to unlink, the link to it, and the node that its copy replaced.
#[derive(Clone, Copy, Debug, PartialEq, Eq)]
pub struct Unlinking {
    pub successor: u32,
    pub parent: u32,
    pub side: Side,
    pub replaced: u32,
}

/// The update that a seat is making.
#[derive(Drop)]
pub struct Updating {
    /// The place of the update, from its raise until its last lock is released.
    pub raised: Option<u64>,
    /// The node that the raise brought in.
    pub added: Option<u32>,
    /// The nodes that the update took out.
    pub taken: Items<u32>,
    /// Its entries without a written number.
    pub pending: Items<u32>,
    /// The plain links that it still has to set.
    pub unset: Items<UnsetLink>,
    /// The links whose tags it still has to raise.
    pub owed: Items<OwedTag>,
    /// The successor that waits to be unlinked.
    pub unlinking: Option<Unlinking>,
    /// What was found in other sections since the copy was linked.
    pub waiting: Looks,
}

impl Held {
    ghost use Rattle.std.specs.Prelude.{◌≡◌};
    ghost use Rattle.index_words.specs.Views.{no_held};

    /// No locked node. It takes no memory.
    pub fn none(alloc: Global) -> Held
        ensures { result ≡ no_held }
    {
        Held {
            nodes: Items::new(alloc),
            nexts: Items::new(alloc),
        }
    }
}

impl Updating {
    ghost use Rattle.std.specs.Prelude.{◌≡◌};
    ghost use Rattle.index_words.specs.Views.{no_update};

    /// No update. It takes no memory.
    pub fn none(alloc: Global) -> Updating
        ensures { result ≡ no_update }
    {
        Updating {
            raised: None,
            added: None,
            taken: Items::new(alloc),
            pending: Items::new(alloc),
            unset: Items::new(alloc),
            owed: Items::new(alloc),
            unlinking: None,
            waiting: Looks::none(alloc),
        }
    }
}
