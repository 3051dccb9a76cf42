// The tree at the stamp, followed from a link down.
ghost use Rattle.std.specs.Prelude.{◌≡◌, MatchOption};
ghost use Rattle.core_trees.specs.NamedTree.{Null};
ghost use Rattle.machine_spelled.specs.Sights.{seen, IsTop};

use crate::spelled_now::{Sight, field_of, old_child, slot_of};
use index_words::{Field, Side};

/// The tree from a child on, followed at most so many links down.
#[derive(Clone, Copy)]
pub(crate) struct Subtree {
    pub depth: u64,
    pub child: u64,
}

/// The node at the top of a tree, and the trees at its two links.
#[derive(Clone, Copy)]
pub(crate) struct SeenNode {
    pub slot: u32,
    pub key: u64,
    pub val: u64,
    pub left: Subtree,
    pub right: Subtree,
}

/// The node at the top of a tree. None exactly if the tree is empty.
pub(crate) fn top(sight: &Sight<'_>, tree: Subtree) -> Option<SeenNode>
    ensures { MatchOption result (seen sight.now tree ≡ Null) (IsTop sight.now tree) }
{
    if tree.depth == 0 {
        return None;
    }
    let slot = slot_of(sight.layout, tree.child)?;
    let depth = tree.depth - 1;
    Some(SeenNode {
        slot,
        key: field_of(sight, Field::Key, tree.child),
        val: field_of(sight, Field::Val, tree.child),
        left: Subtree {
            depth,
            child: old_child(sight, Side::Left, tree.child),
        },
        right: Subtree {
            depth,
            child: old_child(sight, Side::Right, tree.child),
        },
    })
}
