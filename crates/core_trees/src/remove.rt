// The tree step of a removal.
ghost use Rattle.std.specs.Prelude.{◌≡◌};
ghost use Rattle.key_map.specs.Map.{map_remove};
ghost use Rattle.core_trees.specs.Gaps.{WidensGaps};
ghost use Rattle.core_trees.specs.Slots.{MovesSlots, remove_takes, remove_brings};
ghost use Rattle.core_trees.specs.NamedTree.{contents, IsLawful};
ghost use Rattle.core_trees.specs.Shape.{shape};
ghost use Rattle.core_trees.specs.TreeStep.{tree_remove, joined, first_pair, without_first};

use crate::tree::{Tree, TreeNode};
use index_words::Pair;
use std::mem;

impl Tree {
    /// The tree without the key. A node with two children is replaced by a node with this slot and the successor's
    /// pair, in the same box, so no memory is needed. If the key is not in the tree, the tree stays as it is.
    pub fn remove(self, key: u64, slot: u32) -> Tree
        requires lawful { IsLawful (shape self) }
        ensures step { shape result ≡ tree_remove slot key (shape self) }
        ensures contents { contents (shape result) ≡ map_remove key (contents (shape self)) }
        ensures lawful { IsLawful (shape result) }
        ensures slots { MovesSlots (remove_takes key (shape self)) (remove_brings slot key (shape self))
            (shape self) (shape result) }
        ensures gaps { WidensGaps (shape self) (shape result) }
    {
        self.remove_node(key, slot)
    }

    // The tree step of the removal.
    fn remove_node(self, key: u64, slot: u32) -> Tree
        ensures { shape result ≡ tree_remove slot key (shape self) }
    {
        match self {
            Tree::Empty => Tree::Empty,
            Tree::Node(mut node) => {
                if key < node.key {
                    let left = mem::replace(&mut node.left, Tree::Empty);
                    node.left = left.remove_node(key, slot);
                    Tree::Node(node)
                } else if node.key < key {
                    let right = mem::replace(&mut node.right, Tree::Empty);
                    node.right = right.remove_node(key, slot);
                    Tree::Node(node)
                } else {
                    without_top(node, slot)
                }
            }
        }
    }
}

// What takes the place of a removed node.
fn without_top(mut node: Box<TreeNode>, slot: u32) -> Tree
    ensures { shape result ≡ joined slot (shape node.value.left) (shape node.value.right) }
{
    let left = mem::replace(&mut node.left, Tree::Empty);
    let right = mem::replace(&mut node.right, Tree::Empty);
    match left {
        Tree::Empty => right,
        Tree::Node(below) => match right {
            Tree::Empty => Tree::Node(below),
            Tree::Node(successors) => {
                let (successor, right) = take_first(successors);
                node.slot = slot;
                node.key = successor.key;
                node.val = successor.val;
                node.left = Tree::Node(below);
                node.right = right;
                Tree::Node(node)
            }
        },
    }
}

// The first pair of the tree below this top, and the tree without its node.
fn take_first(mut node: Box<TreeNode>) -> (Pair, Tree)
    ensures pair { result.0 ≡ first_pair node.value.key node.value.val (shape node.value.left) }
    ensures rest { shape result.1 ≡ without_first (shape (Tree.Node node)) }
{
    match mem::replace(&mut node.left, Tree::Empty) {
        Tree::Empty => {
            let first = Pair {
                key: node.key,
                val: node.val,
            };
            let rest = mem::replace(&mut node.right, Tree::Empty);
            (first, rest)
        }
        Tree::Node(below) => {
            let (first, rest) = take_first(below);
            node.left = rest;
            (first, Tree::Node(node))
        }
    }
}
