// The tree at the stamp, as the words spell it.
ghost use Rattle.std.specs.Prelude.{◌≡◌, OnOk, IfOk, ◌+◌, ◌++◌, nat_lt, nat_le, ◌&&◌, cond, Some, None, []};
ghost use Rattle.index_words.specs.Words.{memory};
ghost use Rattle.key_map.specs.Lists.{has};
ghost use Rattle.index_words.specs.declared.word.Word.TheVariants.{Node as NodeWord, Entry as EntryWord};
ghost use Rattle.core_events.specs.Versions.{top_slot, tree_nodes};
ghost use Rattle.core_events.specs.SpelledNow.{was_raised as raised_in, has_number as numbered, child_now, tree_now};
ghost use Rattle.machine_spelled.specs.Sights.{memory_of, more_of, tree_seen};
ghost use Rattle.core_events.specs.UpdateMoves.{listed_entry};

use core_events::reads::held;
use index_words::{Field, Items, Layout, NoMemory, Part, Side, TreeNode, View, Word};
use std::alloc::Global;

/// The words and views of a table, and entries that are to have a number besides those that have one: the pending
/// ones of an update that is to raise, and the heads of a new node's bundles, where 0 is none.
#[derive(Clone, Copy)]
pub(crate) struct Sight<'a> {
    pub layout: &'a Layout,
    pub words: &'a [u64],
    pub views: &'a [View],
    pub pending: &'a [u32],
    pub left: u64,
    pub right: u64,
}

pub(crate) fn part_of(sight: &Sight<'_>, part: Part, entry: u64) -> u64
    ensures { result ≡ memory_of sight.now (EntryWord part entry) }
{
    if entry > u64::from(sight.layout.entries) {
        return 0;
    }
    held(sight.layout, sight.words, Word::Entry(part, entry as u32))
}

pub(crate) fn field_of(sight: &Sight<'_>, field: Field, node: u64) -> u64
    ensures { result ≡ memory_of sight.now (NodeWord field node) }
{
    if node > u64::from(sight.layout.nodes) {
        return 0;
    }
    held(sight.layout, sight.words, Word::Node(field, node as u32))
}

pub(crate) fn is_listed(list: &[u32], number: u64) -> bool
    ensures { result ≡ has number list.now }
{
    list.iter().any(|own| u64::from(*own) == number)
}

fn was_raised(views: &[View], entry: u64) -> bool
    ensures { result ≡ raised_in entry views.now }
{
    views.iter().any(|view| {
        !view.update.raised.is_none() && is_listed(view.update.pending.as_slice(), entry)
    })
}

fn is_new_head(sight: &Sight<'_>, entry: u64) -> bool
    ensures { result ≡ has entry (listed_entry sight.now.left ++ listed_entry sight.now.right) }
{
    !(entry == 0) && (sight.left == entry || sight.right == entry)
}

fn has_number(sight: &Sight<'_>, entry: u64) -> bool
    ensures { result ≡ numbered (memory_of sight.now) sight.now.views.now (more_of sight.now) entry }
{
    !(part_of(sight, Part::Stamp, entry) == 0)
        || was_raised(sight.views, entry)
        || (is_listed(sight.pending, entry) || is_new_head(sight, entry))
}

/// The child of a link, where 0 is none.
pub(crate) fn child_of(sight: &Sight<'_>, side: Side, node: u64) -> u64
    ensures { result ≡ child_now (memory_of sight.now) sight.now.views.now (more_of sight.now) side node }
{
    let head = field_of(sight, Field::Head(side), node);
    let entry = if head == 0 || has_number(sight, head) {
        head
    } else {
        part_of(sight, Part::Next, head)
    };
    if entry == 0 {
        0
    } else {
        part_of(sight, Part::Child, entry)
    }
}

/// The child of a link in the table, without the entries that are only to have a number.
pub(crate) fn old_child(sight: &Sight<'_>, side: Side, node: u64) -> u64
    ensures { result ≡ child_now (memory_of sight.now) sight.now.views.now [] side node }
{
    let table = Sight {
        layout: sight.layout,
        words: sight.words,
        views: sight.views,
        pending: &[],
        left: 0,
        right: 0,
    };
    child_of(&table, side, node)
}

/// The node slot with this number, if the table has one.
pub(crate) fn slot_of(layout: &Layout, node: u64) -> Option<u32>
    ensures { result ≡ cond (nat_lt 0 node && nat_le node layout.now.nodes) (Some node) None }
{
    if 0 < node && node <= u64::from(layout.nodes) {
        Some(node as u32)
    } else {
        None
    }
}

/// The slot of the top of the tree from a child on, where 0 is none.
pub(crate) fn top_of(sight: &Sight<'_>, depth: u64, child: u64) -> u32
    ensures { result ≡ top_slot (tree_seen sight.now depth child) }
{
    if depth == 0 {
        return 0;
    }
    match slot_of(sight.layout, child) {
        None => 0,
        Some(slot) => slot,
    }
}

/// Appends the nodes of the tree from a child on to the list, in the order of their keys.
fn push_nodes(
    sight: &Sight<'_>,
    depth: u64,
    child: u64,
    nodes: &mut Items<TreeNode>,
) -> Result<(), NoMemory>
    ensures { OnOk result (nodes.new ≡ nodes.old ++ tree_nodes (tree_seen sight.now depth child)) }
{
    if depth == 0 {
        return Ok(());
    }
    let Some(slot) = slot_of(sight.layout, child) else {
        return Ok(());
    };
    let left = old_child(sight, Side::Left, child);
    let right = old_child(sight, Side::Right, child);
    push_nodes(sight, depth - 1, left, nodes)?;
    nodes.push(TreeNode {
        slot,
        key: field_of(sight, Field::Key, child),
        val: field_of(sight, Field::Val, child),
        left: top_of(sight, depth - 1, left),
        right: top_of(sight, depth - 1, right),
    })?;
    push_nodes(sight, depth - 1, right, nodes)
}

/// The nodes of the tree at the stamp, in the order of their keys.
pub fn nodes_now(
    alloc: Global,
    layout: &Layout,
    words: &[u64],
    views: &[View],
) -> Result<Items<TreeNode>, NoMemory>
    ensures { IfOk result (λ nodes. nodes ≡ tree_nodes (tree_now layout.now (memory layout.now words.now) views.now)) }
{
    let sight = Sight {
        layout,
        words,
        views,
        pending: &[],
        left: 0,
        right: 0,
    };
    let mut nodes = Items::new(alloc);
    let depth = held(layout, words, Word::Stamp);
    let top = old_child(&sight, Side::Right, 0);
    push_nodes(&sight, depth, top, &mut nodes)?;
    Ok(nodes)
}
