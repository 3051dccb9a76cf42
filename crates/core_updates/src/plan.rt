// Plans: an update as data, before any of its words is changed.
use core_trees::Link;
use index_words::{Pair, Side};

/// A put of an absent key: a node without children hangs at the null link in whose gap the key is.
#[derive(Clone, Copy, Debug, PartialEq, Eq)]
pub struct GrowPlan {
    /// The key and its new value.
    pub pair: Pair,
    pub at: Link,
}

/// A put of a present key: a node with the new value and the same children takes the place of the key's node.
#[derive(Clone, Copy, Debug, PartialEq, Eq)]
pub struct ReplacePlan {
    /// The key and its new value.
    pub pair: Pair,
    /// The link to the key's node.
    pub at: Link,
    pub node: u32,
    /// The children of the node, 0 for none.
    pub left: u32,
    pub right: u32,
}

/// A removal of a node with at most one child: the child takes its place.
#[derive(Clone, Copy, Debug, PartialEq, Eq)]
pub struct LiftPlan {
    pub key: u64,
    /// The link to the key's node.
    pub at: Link,
    pub node: u32,
    /// The side of the node at which it has no child.
    pub bare: Side,
    /// The child on its other side, 0 for none.
    pub child: u32,
}

/// A removal of a node with two children: a node with the successor's pair takes its place, and the successor's
/// right child takes the place of the successor.
#[derive(Clone, Copy, Debug, PartialEq, Eq)]
pub struct JoinPlan {
    pub key: u64,
    /// The link to the key's node.
    pub at: Link,
    pub node: u32,
    pub left: u32,
    pub right: u32,
    pub next: NextNode,
}

/// The node with the next greater key, which has no left child.
#[derive(Clone, Copy, Debug, PartialEq, Eq)]
pub struct NextNode {
    /// The link to it: the right link of the removed node, or a link of its own parent.
    pub at: Link,
    pub node: u32,
    pub pair: Pair,
    /// Its right child, 0 for none.
    pub right: u32,
}

/// What an update is to do, by its case.
#[derive(Clone, Copy, Debug, PartialEq, Eq)]
pub enum Plan {
    Grow(GrowPlan),
    Replace(ReplacePlan),
    Lift(LiftPlan),
    Join(JoinPlan),
}

/// The free slots of which an update takes what it needs.
#[derive(Clone, Copy, Debug, PartialEq, Eq)]
pub struct PlanSlots {
    /// The new node.
    pub node: u32,
    /// The entry that is put in front of the bundle of the link at which the tree changes.
    pub at: u32,
    /// The entry of the new node's left link.
    pub left: u32,
    /// The entry of the new node's right link.
    pub right: u32,
    /// The entry that is put in front of the bundle of the link to the successor.
    pub next: u32,
}

/// The newest entries of the bundles in front of which an update puts its own, 0 for none, as they were found under the
/// locks.
#[derive(Clone, Copy, Debug, PartialEq, Eq)]
pub struct Heads {
    /// Of the link at which the tree changes.
    pub at: u32,
    /// Of the link to a successor that is not the right child of the removed node; 0 where there is no such successor.
    pub next: u32,
}

/// An entry that is put in front of a link's bundle, and leads to this child, 0 for none.
#[derive(Clone, Copy, Debug, PartialEq, Eq)]
pub struct Front {
    pub at: Link,
    pub entry: u32,
    pub child: u32,
}

/// An entry that is the only one of a new node's link, and leads to this child.
#[derive(Clone, Copy, Debug, PartialEq, Eq)]
pub struct Fresh {
    pub entry: u32,
    pub child: u32,
}

/// The node that an update brings in, with the entries of its links. A link without a child has none.
#[derive(Clone, Copy, Debug, PartialEq, Eq)]
pub struct NewNode {
    pub slot: u32,
    pub pair: Pair,
    pub left: Option<Fresh>,
    pub right: Option<Fresh>,
}
