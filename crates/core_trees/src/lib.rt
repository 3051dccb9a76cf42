// Named trees, pure: the binary search tree whose nodes are named by slots, and the tree step, which says
// what a put or a removal makes of it. The shared tree's words spell such a tree at each number, and the
// layers above prove their updates against the definitions and laws that stand here.
#![tactic(auto)]

mod lawful;
mod link;
mod nodes;
mod null_link;
mod put;
mod remove;
mod search;
mod tree;

pub use link::{Link, ROOT};
pub use nodes::{NodeLists, spells};
pub use tree::{Tree, TreeError, TreeNode};
