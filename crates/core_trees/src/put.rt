// The tree step of a put.
ghost use Rattle.std.specs.Prelude.{◌≡◌, [], ◌∷◌, IfOk, IfErr};
ghost use Rattle.core_trees.specs.Gaps.{WidensOtherGaps};
ghost use Rattle.core_trees.specs.NamedTree.{contents, IsLawful};
ghost use Rattle.core_trees.specs.Shape.{shape};
ghost use Rattle.core_trees.specs.Slots.{MovesSlots, put_takes};
ghost use Rattle.core_trees.specs.TreeStep.{tree_put};
ghost use Rattle.key_map.specs.Map.{map_put};

use crate::tree::{Tree, TreeError, TreeNode};
use std::alloc::Global;
use std::mem;

impl Tree {
    /// The tree with the key at this value, in a new node with this slot: a leaf, or a node in the place of the key's,
    /// with the same children.
    pub fn put(self, alloc: Global, slot: u32, key: u64, val: u64) -> Result<Tree, TreeError>
        requires lawful { IsLawful (shape self) }
        ensures step { IfOk result (λ tree. shape tree ≡ tree_put slot key val (shape self)) }
        ensures contents { IfOk result (λ tree. contents (shape tree) ≡ map_put key val (contents (shape self))) }
        ensures lawful { IfOk result (λ tree. IsLawful (shape tree)) }
        ensures slots { IfOk result
            (λ tree. MovesSlots (put_takes key (shape self)) (slot ∷ []) (shape self) (shape tree)) }
        ensures gaps { IfOk result (λ tree. WidensOtherGaps key (shape self) (shape tree)) }
        ensures refused { IfErr result (λ error. error.tree ≡ self) }
    {
        let node = TreeNode {
            slot,
            key,
            val,
            left: Tree::Empty,
            right: Tree::Empty,
        };
        match Box::new(alloc, node) {
            Ok(leaf) => Ok(self.with_node(leaf)),
            Err(_) => Err(TreeError { tree: self }),
        }
    }

    // The tree step of a put, with the new node as a leaf.
    fn with_node(self, mut new: Box<TreeNode>) -> Tree
        requires left { new.value.left ≡ Tree.Empty }
        requires right { new.value.right ≡ Tree.Empty }
        ensures { shape result ≡ tree_put new.value.slot new.value.key new.value.val (shape self) }
    {
        match self {
            Tree::Empty => Tree::Node(new),
            Tree::Node(mut node) => {
                if new.key < node.key {
                    let left = mem::replace(&mut node.left, Tree::Empty);
                    node.left = left.with_node(new);
                    Tree::Node(node)
                } else if node.key < new.key {
                    let right = mem::replace(&mut node.right, Tree::Empty);
                    node.right = right.with_node(new);
                    Tree::Node(node)
                } else {
                    new.left = mem::replace(&mut node.left, Tree::Empty);
                    new.right = mem::replace(&mut node.right, Tree::Empty);
                    Tree::Node(new)
                }
            }
        }
    }
}
