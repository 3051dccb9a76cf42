// The tree step of a raise: which node the update brings in, what it takes out, and whether the words spell the tree
// after it.
ghost use Rattle.std.specs.Prelude.{◌≡◌, ◌++◌, ◌&&◌, ◌||◌, ◌==◌, ◌<◌, ◌+◌, None};
ghost use Rattle.std.specs.List.{list_all};
ghost use Rattle.index_words.specs.Words.{memory};
ghost use Rattle.index_words.specs.declared.side.Side.TheVariants.{Right};
ghost use Rattle.core_grace.specs.Holds.{listed};
ghost use Rattle.core_trees.specs.Search.{end_node, end_side};
ghost use Rattle.core_trees.specs.Slots.{first_slots};
ghost use Rattle.core_trees.specs.TreeStep.{subtree_at};
ghost use Rattle.core_events.specs.UpdateMoves.{listed_entry};
ghost use Rattle.core_trees.specs.SpelledTree.{spells};
ghost use Rattle.core_events.specs.SpelledNow.{child_now, tree_now};
ghost use Rattle.core_events.specs.LoadMoves.{locks};
ghost use Rattle.core_events.specs.PlainWork.{plain_move};
ghost use Rattle.core_events.specs.TreeMoves.{takes, brings, has_key, first_slot, new_entries, is_fresh as fresh, is_new as new_node, is_plain_new as plain_node, finds_gap as gap_needed, sets_locked, tree_after, is_tree_step as makes_step, is_key as fits_key};
ghost use Rattle.machine_spelled.specs.LinkPlans.{planned_links, planned_move};
ghost use Rattle.machine_spelled.specs.Sights.{memory_of, more_of, graph_seen, seen};

use crate::gaps::finds_gap;
use crate::link_plans::{LinkPlan, is_plain_step, link_plan};
use crate::spelled_now::{Sight, child_of, field_of, is_listed, old_child, part_of};
use crate::spelling::{spells_put, spells_removal};
use crate::subtrees::{Subtree, top};
use core_events::reads::{held, is_locked};
use core_trees::{Link, ROOT};
use index_words::{Change, Field, HeldNode, Layout, Pair, Part, Side, Update, View, Word};

/// The nodes that an update takes out: the replaced one, and with two children the successor.
#[derive(Clone, Copy)]
pub(crate) struct Taken {
    pub replaced: Option<u32>,
    pub successor: Option<u32>,
}

/// The heads of a new node's bundles, where 0 is none.
#[derive(Clone, Copy)]
pub(crate) struct Heads {
    pub left: u64,
    pub right: u64,
}

/// The link at which the search for a key ends, in a tree whose top is the child of the link `at`.
pub(crate) fn end_link(sight: &Sight<'_>, tree: Subtree, key: u64, at: Link) -> Link
    ensures node { result.node ≡ end_node key at.node (seen sight.now tree) }
    ensures side { result.side ≡ end_side key at.side (seen sight.now tree) }
{
    let Some(node) = top(sight, tree) else {
        return at;
    };
    if key < node.key {
        let below = Link {
            node: node.slot,
            side: Side::Left,
        };
        end_link(sight, node.left, key, below)
    } else if node.key < key {
        let below = Link {
            node: node.slot,
            side: Side::Right,
        };
        end_link(sight, node.right, key, below)
    } else {
        at
    }
}

/// The subtree at which the search for a key ends.
pub(crate) fn found(sight: &Sight<'_>, tree: Subtree, key: u64) -> Subtree
    ensures { seen sight.now result ≡ subtree_at key (seen sight.now tree) }
{
    let Some(node) = top(sight, tree) else {
        return tree;
    };
    if key < node.key {
        found(sight, node.left, key)
    } else if node.key < key {
        found(sight, node.right, key)
    } else {
        tree
    }
}

/// The slot of the first node of a tree.
fn first_of(sight: &Sight<'_>, tree: Subtree) -> Option<u32>
    ensures { listed result ≡ first_slots (seen sight.now tree) }
{
    let node = top(sight, tree)?;
    if top(sight, node.left).is_none() {
        return Some(node.slot);
    }
    first_of(sight, node.left)
}

/// What an update of a key takes out of the tree.
fn taken_of(sight: &Sight<'_>, tree: Subtree, change: Change, key: u64) -> Taken
    ensures nodes { listed result.replaced ++ listed result.successor ≡ takes change key (seen sight.now tree) }
    ensures first { result.replaced ≡ None → result.successor ≡ None }
{
    let Some(node) = top(sight, found(sight, tree, key)) else {
        return Taken {
            replaced: None,
            successor: None,
        };
    };
    let successor = match change {
        Change::Put(_) => None,
        Change::Remove => match top(sight, node.left) {
            None => None,
            Some(_) => first_of(sight, node.right),
        },
    };
    Taken {
        replaced: Some(node.slot),
        successor,
    }
}

/// The slot of the node that an update of a key brings in.
fn added_of(sight: &Sight<'_>, tree: Subtree, change: Change, key: u64, slot: u64) -> Option<u64>
    ensures { result ≡ first_slot (brings change slot key (seen sight.now tree)) }
{
    match change {
        Change::Put(_) => Some(slot),
        Change::Remove => {
            let node = top(sight, found(sight, tree, key))?;
            let _ = top(sight, node.left)?;
            let _ = top(sight, node.right)?;
            Some(slot)
        }
    }
}

/// Whether a key that is to be removed is in the tree.
fn is_there(sight: &Sight<'_>, tree: Subtree, change: Change, key: u64) -> bool
    ensures { result ≡ has_key change key (seen sight.now tree) }
{
    match change {
        Change::Put(_) => true,
        Change::Remove => top(sight, found(sight, tree, key)).is_some(),
    }
}

fn is_locked_or_none(nodes: &[HeldNode], node: Option<u32>) -> bool
    ensures { result ≡ list_all (λ k. locks k nodes.now) (listed node) }
{
    match node {
        None => true,
        Some(node) => is_locked(nodes, node),
    }
}

fn are_locked(nodes: &[HeldNode], taken: Taken) -> bool
    ensures { result ≡ list_all (λ k. locks k nodes.now) (listed taken.replaced ++ listed taken.successor) }
{
    is_locked_or_none(nodes, taken.replaced) && is_locked_or_none(nodes, taken.successor)
}

fn new_heads(sight: &Sight<'_>, added: Option<u64>) -> Heads
    ensures { listed_entry result.left ++ listed_entry result.right ≡ new_entries (memory_of sight.now) added }
{
    match added {
        None => Heads { left: 0, right: 0 },
        Some(node) => Heads {
            left: field_of(sight, Field::Head(Side::Left), node),
            right: field_of(sight, Field::Head(Side::Right), node),
        },
    }
}

fn is_fresh(sight: &Sight<'_>, view: &View, entry: u64) -> bool
    ensures { result ≡ fresh (memory_of sight.now) view.now entry }
{
    is_listed(view.free.entries.as_slice(), entry)
        && part_of(sight, Part::Stamp, entry) == 0
        && part_of(sight, Part::Next, entry) == 0
}

fn is_fresh_or_none(sight: &Sight<'_>, view: &View, entry: u64) -> bool
    ensures { result ≡ list_all (fresh (memory_of sight.now) view.now) (listed_entry entry) }
{
    entry == 0 || is_fresh(sight, view, entry)
}

fn are_fresh(sight: &Sight<'_>, view: &View, left: u64, right: u64) -> bool
    ensures { result ≡ list_all (fresh (memory_of sight.now) view.now) (listed_entry left ++ listed_entry right) }
{
    is_fresh_or_none(sight, view, left) && is_fresh_or_none(sight, view, right)
}

/// Whether the new node of an update is ready: a free slot, unmarked, whose bundles have different fresh entries.
fn is_new(sight: &Sight<'_>, view: &View, added: Option<u64>) -> bool
    ensures { result ≡ new_node (memory_of sight.now) view.now added }
{
    let Some(node) = added else {
        return true;
    };
    let left = field_of(sight, Field::Head(Side::Left), node);
    let right = field_of(sight, Field::Head(Side::Right), node);
    is_listed(view.free.nodes.as_slice(), node)
        && field_of(sight, Field::Mark, node) == 0
        && are_fresh(sight, view, left, right)
        && (left == 0 || !(left == right))
}

/// The tree at the stamp.
pub(crate) fn whole(sight: &Sight<'_>) -> Subtree
    ensures { seen sight.now result ≡ tree_now sight.now.layout.now (memory_of sight.now) sight.now.views.now }
{
    Subtree {
        depth: held(sight.layout, sight.words, Word::Stamp),
        child: old_child(sight, Side::Right, 0),
    }
}

/// Whether the tree after an update is spelled from the root's link down.
fn spells_after(sight: &Sight<'_>, tree: Subtree, slot: u64, update: Update) -> bool
    ensures { result ≡ spells (graph_seen sight.now) (child_now (memory_of sight.now) sight.now.views.now (more_of sight.now) Right 0) (tree_after update.change slot update.key (seen sight.now tree)) }
{
    let child = child_of(sight, Side::Right, 0);
    match update.change {
        Change::Put(val) => {
            let pair = Pair {
                key: update.key,
                val,
            };
            spells_put(sight, tree, child, slot, pair)
        }
        Change::Remove => spells_removal(sight, tree, child, slot, update.key),
    }
}

/// The child of the link at which the search for the key ends: the slot of the new node, if there is one.
fn slot_after(sight: &Sight<'_>, tree: Subtree, key: u64) -> u64
    ensures { result ≡ child_now (memory_of sight.now) sight.now.views.now (more_of sight.now) (end_side key Right (seen sight.now tree)) (end_node key 0 (seen sight.now tree)) }
{
    let top = Link {
        node: ROOT,
        side: Side::Right,
    };
    let link = end_link(sight, tree, key, top);
    child_of(sight, link.side, u64::from(link.node))
}

/// What a raise moves, by the names of the slots and links, before any list is made.
#[derive(Clone, Copy)]
pub(crate) struct Plan {
    /// The child of the link at which the search for the key ends.
    pub slot: u64,
    /// The node that is brought in.
    pub added: Option<u64>,
    pub taken: Taken,
    pub heads: Heads,
    /// The plain links that are to be set.
    pub links: LinkPlan,
}

/// What the update moves in this tree.
pub(crate) fn plan_of(sight: &Sight<'_>, tree: Subtree, update: Update) -> Plan
    ensures slot { result.slot ≡ child_now (memory_of sight.now) sight.now.views.now (more_of sight.now) (end_side update.key Right (seen sight.now tree)) (end_node update.key 0 (seen sight.now tree)) }
    ensures added { result.added ≡ first_slot (brings update.change result.slot update.key (seen sight.now tree)) }
    ensures taken { listed result.taken.replaced ++ listed result.taken.successor ≡ takes update.change update.key (seen sight.now tree) }
    ensures heads { listed_entry result.heads.left ++ listed_entry result.heads.right ≡ new_entries (memory_of sight.now) result.added }
    ensures plain { planned_move update.change result.links ≡ plain_move (memory_of sight.now) update.change update.key result.slot (seen sight.now tree) }
{
    let slot = slot_after(sight, tree, update.key);
    let added = added_of(sight, tree, update.change, update.key, slot);
    Plan {
        slot,
        added,
        taken: taken_of(sight, tree, update.change, update.key),
        heads: new_heads(sight, added),
        links: link_plan(sight, tree, update, slot),
    }
}

/// A key has 64 bits, like every number of its type.
fn is_key(key: u64) -> bool
    ensures { result ≡ fits_key key }
{
    key <= u64::MAX
}

/// Whether the seat has locked the nodes of the plain links, a new node has its children in its own, and a new key is
/// put at a null link that the seat's search found.
fn has_plain_links(
    sight: &Sight<'_>,
    view: &View,
    tree: Subtree,
    plan: Plan,
    update: Update,
) -> bool
    ensures { result ≡ (list_all (sets_locked view.now) (planned_links plan.links) && plain_node (memory_of sight.now) plan.added && gap_needed (memory_of sight.now) view.now update (seen sight.now tree)) }
{
    is_plain_step(sight, view, plan.links, plan.added) && finds_gap(sight, view, tree, update)
}

/// Whether all of these hold. As a call it leaves the proof of the test below with one case.
fn all_hold(fits: bool, there: bool, locked: bool, ready: bool, spelled: bool, plain: bool) -> bool
    ensures { result ≡ (fits && there && locked && ready && spelled && plain) }
{
    fits && there && locked && ready && spelled && plain
}

/// Whether the pending entries of the view and those of a new node, with the next number, spell the tree after the
/// update. Besides, the seat has locked each node that is taken out and the node of each plain link that is to be set,
/// a new node has its children in its plain links, and a key that is not in the tree is put at a null link that the
/// seat's search found.
#[tactic(auto)]
pub fn is_tree_step(
    layout: &Layout,
    words: &[u64],
    views: &[View],
    view: &View,
    update: Update,
) -> bool
    ensures { result ≡ makes_step layout.now (memory layout.now words.now) views.now view.now update }
{
    let pending = view.update.pending.as_slice();
    let before = Sight {
        layout,
        words,
        views,
        pending,
        left: 0,
        right: 0,
    };
    let tree = whole(&before);
    let plan = plan_of(&before, tree, update);
    let after = Sight {
        layout,
        words,
        views,
        pending,
        left: plan.heads.left,
        right: plan.heads.right,
    };
    let there = is_there(&before, tree, update.change, update.key);
    let locked = are_locked(view.held.nodes.as_slice(), plan.taken);
    let ready = is_new(&before, view, plan.added);
    let spelled = spells_after(&after, tree, plan.slot, update);
    let plain = has_plain_links(&before, view, tree, plan, update);
    all_hold(is_key(update.key), there, locked, ready, spelled, plain)
}
