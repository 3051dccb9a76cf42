// The tree that lists of keys, values and children spell.
ghost use Rattle.std.specs.Prelude.{◌≡◌, ◌↔◌, IsTrue, slice_index};
ghost use Rattle.core_trees.specs.Shape.{shape};
ghost use Rattle.core_trees.specs.NodeLists.{graph_of};
ghost use Rattle.core_trees.specs.SpelledTree.{IsSpelled, IsOnlySpelled, StaysSpelled, SwapsSpelled};

use crate::tree::Tree;

/// What is read of the nodes at one number. The place in each list is the slot of the node; a slot past a list's end
/// reads as 0.
#[derive(Clone, Copy)]
pub struct NodeLists<'a> {
    pub keys: &'a [u64],
    pub vals: &'a [u64],
    /// The left child of each node; 0 is none.
    pub lefts: &'a [u32],
    /// The right child of each node; 0 is none.
    pub rights: &'a [u32],
}

/// Whether the nodes spell the tree from the child on: the top is the child, each node's key and value are as read, and
/// its children are spelled from its two links on.
pub fn spells(nodes: &NodeLists<'_>, child: u32, tree: &Tree) -> bool
    ensures spelled { IsTrue result ↔ IsSpelled (graph_of nodes.now) child (shape tree.now) }
    ensures only { IsTrue result → IsOnlySpelled (graph_of nodes.now) child (shape tree.now) }
    ensures stays { IsTrue result → StaysSpelled (graph_of nodes.now) child (shape tree.now) }
    ensures swaps { IsTrue result → SwapsSpelled (graph_of nodes.now) child (shape tree.now) }
{
    spells_from(nodes, child, tree)
}

fn spells_from(nodes: &NodeLists<'_>, child: u32, tree: &Tree) -> bool
    ensures { IsTrue result ↔ IsSpelled (graph_of nodes.now) child (shape tree.now) }
{
    match tree {
        Tree::Empty => child == 0,
        Tree::Node(node) => {
            let slot = node.slot;
            child == slot
                && 0 < slot
                && number_at(nodes.keys, slot) == node.key
                && number_at(nodes.vals, slot) == node.val
                && spells_from(nodes, child_at(nodes.lefts, slot), &node.left)
                && spells_from(nodes, child_at(nodes.rights, slot), &node.right)
        }
    }
}

fn number_at(numbers: &[u64], slot: u32) -> u64
    ensures { result ≡ slice_index numbers.now slot }
{
    let place = slot as usize;
    if place < numbers.len() {
        numbers[place]
    } else {
        0
    }
}

fn child_at(children: &[u32], slot: u32) -> u32
    ensures { result ≡ slice_index children.now slot }
{
    let place = slot as usize;
    if place < children.len() {
        children[place]
    } else {
        0
    }
}
