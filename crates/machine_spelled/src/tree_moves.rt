// What a raise moves: the slots that it brings in and takes out.
ghost use Rattle.std.specs.Prelude.{◌≡◌, ◌++◌, ◌⊎◌, cond, true, Some, None, IfOk, IfSome, OnOk};
ghost use Rattle.index_words.specs.Words.{memory};
ghost use Rattle.key_map.specs.Lists.{has};
ghost use Rattle.core_grace.specs.Holds.{listed};
ghost use Rattle.core_events.specs.UpdateMoves.{listed_entry};
ghost use Rattle.core_events.specs.TreeMoves.{node_entries, tree_move as move_by, is_tree_step as makes_step};
ghost use Rattle.machine_spelled.specs.Sights.{memory_of};

use crate::bundles_now::push_entries;
use crate::link_plans::plain_move;
use crate::spelled_now::{Sight, field_of};
use crate::tree_steps::{Heads, Taken, plan_of, whole};
use core_events::TreeMove;
use core_events::reads::held;
use index_words::{Field, Items, Layout, NoMemory, Side, Update, View, Word};
use std::alloc::Global;

/// The slot with this number, if it is one of these.
fn own_slot(slots: &[u32], number: u64) -> Option<u32>
    ensures { result ≡ cond (has number slots.now) (Some number) None }
{
    for slot in slots {
        if u64::from(*slot) == number {
            return Some(*slot);
        }
    }
    None
}

fn push_head(free: &[u32], head: u64, list: &mut Items<u32>) -> Result<(), NoMemory>
    requires { (head ≡ 0) ⊎ (has head free.now ≡ true) }
    ensures { OnOk result (list.new ≡ list.old ++ listed_entry head) }
{
    if head == 0 {
        return Ok(());
    }
    match own_slot(free, head) {
        None => Ok(()),
        Some(entry) => list.push(entry),
    }
}

fn push_node(node: Option<u32>, list: &mut Items<u32>) -> Result<(), NoMemory>
    ensures { OnOk result (list.new ≡ list.old ++ listed node) }
{
    match node {
        None => Ok(()),
        Some(node) => list.push(node),
    }
}

fn push_bundles(sight: &Sight<'_>, node: Option<u32>, list: &mut Items<u32>) -> Result<(), NoMemory>
    ensures { OnOk result (list.new ≡ list.old ++ node_entries sight.now.layout.now (memory_of sight.now) (listed node)) }
{
    let Some(node) = node else {
        return Ok(());
    };
    let behind = held(sight.layout, sight.words, Word::Stamp);
    let left = field_of(sight, Field::Head(Side::Left), u64::from(node));
    let right = field_of(sight, Field::Head(Side::Right), u64::from(node));
    push_entries(sight, behind, left, list)?;
    push_entries(sight, behind, right, list)
}

fn own_added(slots: &[u32], added: Option<u64>) -> Option<u32>
    requires { IfSome added (λ k. has k slots.now ≡ true) }
    ensures { result ≡ added }
{
    match added {
        None => None,
        Some(node) => own_slot(slots, node),
    }
}

fn new_list(alloc: Global, free: &[u32], heads: Heads) -> Result<Items<u32>, NoMemory>
    requires left { (heads.left ≡ 0) ⊎ (has heads.left free.now ≡ true) }
    requires right { (heads.right ≡ 0) ⊎ (has heads.right free.now ≡ true) }
    ensures { IfOk result (λ list. list ≡ listed_entry heads.left ++ listed_entry heads.right) }
{
    let mut list = Items::new(alloc);
    push_head(free, heads.left, &mut list)?;
    push_head(free, heads.right, &mut list)?;
    Ok(list)
}

fn taken_list(alloc: Global, taken: Taken) -> Result<Items<u32>, NoMemory>
    ensures { IfOk result (λ list. list ≡ listed taken.replaced ++ listed taken.successor) }
{
    let mut list = Items::new(alloc);
    push_node(taken.replaced, &mut list)?;
    push_node(taken.successor, &mut list)?;
    Ok(list)
}

fn entry_list(alloc: Global, sight: &Sight<'_>, taken: Taken) -> Result<Items<u32>, NoMemory>
    ensures { IfOk result (λ list. list ≡ node_entries sight.now.layout.now (memory_of sight.now) (listed taken.replaced) ++ node_entries sight.now.layout.now (memory_of sight.now) (listed taken.successor)) }
{
    let mut list = Items::new(alloc);
    push_bundles(sight, taken.replaced, &mut list)?;
    push_bundles(sight, taken.successor, &mut list)?;
    Ok(list)
}

/// What an allowed raise of this update moves.
pub fn tree_move(
    alloc: Global,
    layout: &Layout,
    words: &[u64],
    views: &[View],
    view: &View,
    update: Update,
) -> Result<TreeMove, NoMemory>
    requires { makes_step layout.now (memory layout.now words.now) views.now view.now update ≡ true }
    ensures { IfOk result (λ move. move ≡ move_by layout.now (memory layout.now words.now) views.now view.now update) }
{
    let sight = Sight {
        layout,
        words,
        views,
        pending: view.update.pending.as_slice(),
        left: 0,
        right: 0,
    };
    let plan = plan_of(&sight, whole(&sight), update);
    let added = own_added(view.free.nodes.as_slice(), plan.added);
    let entries = new_list(alloc, view.free.entries.as_slice(), plan.heads)?;
    let taken = taken_list(alloc, plan.taken)?;
    let taken_entries = entry_list(alloc, &sight, plan.taken)?;
    Ok(TreeMove {
        added,
        entries,
        taken,
        taken_entries,
        plain: plain_move(alloc, update.change, plan.links)?,
    })
}
