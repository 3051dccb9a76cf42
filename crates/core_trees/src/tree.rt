/// A binary search tree whose nodes are named by slots. It is lawful where its keys rise strictly from left
/// to right, as every tree does that puts and removals make of the empty one.
#[derive(Debug, PartialEq, Eq, Drop)]
#[cycle(tree)]
pub enum Tree {
    Empty,
    Node(Box<TreeNode>),
}

/// A node of a tree. The keys below `left` are smaller than `key`, those below `right` are greater.
#[derive(Debug, PartialEq, Eq, Drop)]
#[cycle(tree)]
pub struct TreeNode {
    /// The node's slot.
    pub slot: u32,
    pub key: u64,
    pub val: u64,
    pub left: Tree,
    pub right: Tree,
}

/// Memory was refused. The tree is returned unchanged.
#[derive(Debug, Drop)]
pub struct TreeError {
    pub tree: Tree,
}
