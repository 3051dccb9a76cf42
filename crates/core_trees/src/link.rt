// The links of a tree, and its root.
use index_words::Side;

/// The node above the top of the tree. It has no key, and the tree hangs at its right link.
pub const ROOT: u32 = 0;

/// One of the two links of a node.
#[derive(Clone, Copy, Debug, PartialEq, Eq)]
pub struct Link {
    pub node: u32,
    pub side: Side,
}
