// Whether the words spell the tree after an update, link by link of the tree before it.
ghost use Rattle.std.specs.Prelude.{◌≡◌, ◌==◌, ◌&&◌, nat_lt};
ghost use Rattle.index_words.specs.declared.word.Field.TheVariants.{Key as KeyField, Val as ValField};
ghost use Rattle.index_words.specs.declared.word.Word.TheVariants.{Node as NodeWord};
ghost use Rattle.core_trees.specs.SpelledTree.{spells};
ghost use Rattle.core_trees.specs.NamedTree.{Branch};
ghost use Rattle.core_trees.specs.TreeStep.{tree_put, tree_remove, without_first, joined};
ghost use Rattle.machine_spelled.specs.Sights.{memory_of, graph_seen, seen, first_pair_of};

use crate::spelled_now::{Sight, child_of, field_of};
use crate::subtrees::{Subtree, top};
use index_words::{Field, Pair, Side};

/// Whether the child is the slot, and its node has the pair.
fn is_node_with(sight: &Sight<'_>, child: u64, slot: u64, pair: Pair) -> bool
    ensures { result ≡ (child == slot && nat_lt 0 slot && memory_of sight.now (NodeWord KeyField slot) == pair.key && memory_of sight.now (NodeWord ValField slot) == pair.val) }
{
    child == slot
        && 0 < slot
        && field_of(sight, Field::Key, slot) == pair.key
        && field_of(sight, Field::Val, slot) == pair.val
}

/// Whether the tree is spelled from the child on.
#[tactic(auto, using(crate::proofs::SeenTrees::top_spells))]
fn spells_same(sight: &Sight<'_>, tree: Subtree, child: u64) -> bool
    ensures { result ≡ spells (graph_seen sight.now) child (seen sight.now tree) }
{
    let Some(node) = top(sight, tree) else {
        return child == 0;
    };
    let low = spells_same(sight, node.left, child_of(sight, Side::Left, tree.child));
    let high = spells_same(sight, node.right, child_of(sight, Side::Right, tree.child));
    child == tree.child && low && high
}

/// Whether a node with the pair is spelled at the slot, above these two trees.
#[tactic(auto, using(crate::proofs::SeenTrees::node_spells))]
fn spells_node(
    sight: &Sight<'_>,
    child: u64,
    slot: u64,
    pair: Pair,
    left: Subtree,
    right: Subtree,
) -> bool
    ensures { result ≡ spells (graph_seen sight.now) child (Branch slot pair.key pair.val (seen sight.now left) (seen sight.now right)) }
{
    let here = is_node_with(sight, child, slot, pair);
    let low = spells_same(sight, left, child_of(sight, Side::Left, slot));
    let high = spells_same(sight, right, child_of(sight, Side::Right, slot));
    here && low && high
}

/// Whether the tree is spelled with the pair put into it, at this slot.
#[tactic(auto, using(crate::proofs::SeenTrees::put_low, crate::proofs::SeenTrees::put_high, crate::proofs::SeenTrees::put_same))]
pub(crate) fn spells_put(
    sight: &Sight<'_>,
    tree: Subtree,
    child: u64,
    slot: u64,
    pair: Pair,
) -> bool
    ensures { result ≡ spells (graph_seen sight.now) child (tree_put slot pair.key pair.val (seen sight.now tree)) }
{
    let Some(node) = top(sight, tree) else {
        let none = Subtree { depth: 0, child: 0 };
        return spells_node(sight, child, slot, pair, none, none);
    };
    let low = child_of(sight, Side::Left, tree.child);
    let high = child_of(sight, Side::Right, tree.child);
    if pair.key < node.key {
        let put = spells_put(sight, node.left, low, slot, pair);
        let same = spells_same(sight, node.right, high);
        child == tree.child && put && same
    } else if node.key < pair.key {
        let same = spells_same(sight, node.left, low);
        let put = spells_put(sight, node.right, high, slot, pair);
        child == tree.child && same && put
    } else {
        spells_node(sight, child, slot, pair, node.left, node.right)
    }
}

/// The first pair of a tree. None exactly if the tree is empty.
fn first_pair(sight: &Sight<'_>, tree: Subtree) -> Option<Pair>
    ensures { result ≡ first_pair_of (seen sight.now tree) }
{
    let node = top(sight, tree)?;
    match first_pair(sight, node.left) {
        None => Some(Pair {
            key: node.key,
            val: node.val,
        }),
        Some(pair) => Some(pair),
    }
}

/// Whether the tree is spelled without its first node.
fn spells_rest(sight: &Sight<'_>, tree: Subtree, child: u64) -> bool
    ensures { result ≡ spells (graph_seen sight.now) child (without_first (seen sight.now tree)) }
{
    let Some(node) = top(sight, tree) else {
        return child == 0;
    };
    if top(sight, node.left).is_none() {
        return spells_same(sight, node.right, child);
    }
    let low = spells_rest(sight, node.left, child_of(sight, Side::Left, tree.child));
    let high = spells_same(sight, node.right, child_of(sight, Side::Right, tree.child));
    child == tree.child && low && high
}

/// Whether the words spell what replaces a removed node with these two children.
fn spells_joined(sight: &Sight<'_>, left: Subtree, right: Subtree, child: u64, slot: u64) -> bool
    ensures { result ≡ spells (graph_seen sight.now) child (joined slot (seen sight.now left) (seen sight.now right)) }
{
    if top(sight, left).is_none() {
        return spells_same(sight, right, child);
    }
    match first_pair(sight, right) {
        None => spells_same(sight, left, child),
        Some(pair) => {
            let here = is_node_with(sight, child, slot, pair);
            let low = spells_same(sight, left, child_of(sight, Side::Left, slot));
            let high = spells_rest(sight, right, child_of(sight, Side::Right, slot));
            here && low && high
        }
    }
}

/// Whether the tree is spelled without the key, with this slot if a new node is needed.
#[tactic(auto, using(crate::proofs::SeenTrees::remove_low, crate::proofs::SeenTrees::remove_high, crate::proofs::SeenTrees::remove_same))]
pub(crate) fn spells_removal(
    sight: &Sight<'_>,
    tree: Subtree,
    child: u64,
    slot: u64,
    key: u64,
) -> bool
    ensures { result ≡ spells (graph_seen sight.now) child (tree_remove slot key (seen sight.now tree)) }
{
    let Some(node) = top(sight, tree) else {
        return child == 0;
    };
    let low = child_of(sight, Side::Left, tree.child);
    let high = child_of(sight, Side::Right, tree.child);
    if key < node.key {
        let without = spells_removal(sight, node.left, low, slot, key);
        let same = spells_same(sight, node.right, high);
        child == tree.child && without && same
    } else if node.key < key {
        let same = spells_same(sight, node.left, low);
        let without = spells_removal(sight, node.right, high, slot, key);
        child == tree.child && same && without
    } else {
        spells_joined(sight, node.left, node.right, child, slot)
    }
}
