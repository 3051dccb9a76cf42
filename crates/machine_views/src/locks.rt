// The view of a seat after each kind of event that locks, unlocks or marks.
ghost use Rattle.std.specs.Prelude.{◌≡◌, OnOk, OnErr, None as Nothing, map};
ghost use Rattle.core_events.specs.LockMoves.{just_locked as new_lock, place_locked, locked_view, met_lock, tried, other_nodes, other_nexts, update_until, unlocked_view, mark_known, with_mark, may_count as mark_counts, finds_mark as mark_found, mark_loaded, pair_known, pair_loaded};
ghost use Rattle.core_events.specs.Searches.{key_found};
ghost use Rattle.index_words.specs.declared.word.Field.TheVariants.{Key, Val};

use crate::loads::risen;
use crate::moves::go_nowhere;
use core_events::reads::{is_in, is_reachable};
use core_events::searches::is_searched;
use index_words::{Held, HeldNext, HeldNode, HeldSide, Items, NoMemory, Place, Updating, View};
use std::alloc::Global;

fn just_locked(node: u32) -> HeldNode
    ensures { result ≡ new_lock node }
{
    let side = HeldSide {
        head: None,
        link: None,
        tag: None,
    };
    HeldNode {
        node,
        key: None,
        val: None,
        mark: None,
        left: side,
        right: side,
    }
}

/// The place of a seat with this section number after it has locked a node.
fn place_after_lock(section: Option<u64>, node: u32, place: Place) -> Place
    ensures { result ≡ place_locked section node place }
{
    match section {
        Some(_) => place,
        None => off_entry(node, place),
    }
}

/// The place, at no entry if it is in a bundle of the node.
fn off_entry(node: u32, place: Place) -> Place
    ensures { result ≡ place_locked Nothing node place }
{
    match place {
        Place::Entry {
            node: at,
            side,
            entry,
            stamp,
        } => {
            if at == node {
                Place::Entry {
                    node: at,
                    side,
                    entry: 0,
                    stamp: None,
                }
            } else {
                Place::Entry {
                    node: at,
                    side,
                    entry,
                    stamp,
                }
            }
        }
        Place::Nowhere => Place::Nowhere,
        Place::Node { node, key } => Place::Node { node, key },
        Place::Gap { node, side } => Place::Gap { node, side },
    }
}

fn take_lock(view: &mut View, node: u32) -> Result<(), NoMemory>
    ensures ok { OnOk result (view.new ≡ locked_view view.old node) }
    ensures err { OnErr result (view.new ≡ view.old) }
{
    view.held.nodes.push(just_locked(node))?;
    view.reading.place = place_after_lock(view.reading.section, node, view.reading.place);
    Ok(())
}

fn meet_lock(view: &mut View, own: u64, found: u64)
    ensures { view.new ≡ met_lock view.old own found }
{
    if !(found == 0) && !(found == own) {
        view.counts.busy = risen(view.counts.busy);
    }
}

/// The view after a try of this node's lock that found `found`, where `own` is the lock value of the seat's pass.
/// After a refusal it is unchanged.
pub fn try_lock(view: &mut View, node: u32, own: u64, found: u64) -> Result<(), NoMemory>
    ensures ok { OnOk result (view.new ≡ tried view.old node own found) }
    ensures err { OnErr result (view.new ≡ view.old) }
{
    if found == 0 {
        take_lock(view, node)
    } else {
        meet_lock(view, own, found);
        Ok(())
    }
}

fn keep_nodes(nodes: &mut Vec<HeldNode>, node: u32)
    ensures { nodes.new.items ≡ other_nodes node nodes.old.items }
{
    nodes.retain(|held| held.node != node);
}

fn keep_nexts(nexts: &mut Vec<HeldNext>, node: u32)
    ensures { nexts.new.items ≡ other_nexts node nexts.old.items }
{
    nexts.retain(|held| held.node != node);
}

fn forget_node(alloc: Global, held: &mut Held, node: u32)
    ensures { held.new ≡ record { nodes = other_nodes node held.old.nodes; nexts = other_nexts node held.old.nexts } }
{
    let mut nodes = std::mem::replace(&mut held.nodes, Items::new(alloc)).into_vec();
    keep_nodes(&mut nodes, node);
    held.nodes = Items::from_vec(nodes);
    let mut nexts = std::mem::replace(&mut held.nexts, Items::new(alloc)).into_vec();
    keep_nexts(&mut nexts, node);
    held.nexts = Items::from_vec(nexts);
}

fn end_update(alloc: Global, update: &mut Updating, locked: &Items<HeldNode>)
    ensures { update.new ≡ update_until locked.now update.old }
{
    if locked.is_empty() {
        *update = Updating::none(alloc);
    }
}

/// The view after this node was unlocked.
pub fn unlock(alloc: Global, view: &mut View, node: u32)
    ensures { view.new ≡ unlocked_view view.old node }
{
    forget_node(alloc, &mut view.held, node);
    end_update(alloc, &mut view.update, &view.held.nodes);
    go_nowhere(&mut view.reading);
}

fn node_with_mark(held: HeldNode, node: u32, mark: u64) -> HeldNode
    ensures { result ≡ mark_known node mark held }
{
    let mut known = held;
    if held.node == node {
        known.mark = Some(mark);
    }
    known
}

fn know_mark(nodes: &mut [HeldNode], node: u32, mark: u64)
    ensures { nodes.new ≡ map (mark_known node mark) nodes.old }
{
    for held in nodes.iter_mut() {
        *held = node_with_mark(*held, node, mark);
    }
}

fn hold_mark(alloc: Global, view: &mut View, node: u32, mark: u64)
    ensures { view.new ≡ with_mark view.old node mark }
{
    let mut nodes = std::mem::replace(&mut view.held.nodes, Items::new(alloc)).into_vec();
    know_mark(nodes.as_mut_slice(), node, mark);
    view.held.nodes = Items::from_vec(nodes);
}

/// Whether the node is one whose mark counts if it is found.
fn may_count(view: &View, node: u32) -> bool
    ensures { result ≡ mark_counts view.now node }
{
    is_reachable(view, node) || is_searched(&view.reading, node)
}

fn finds_mark(view: &View, node: u32, mark: u64) -> bool
    ensures { result ≡ mark_found view.now node mark }
{
    mark != 0
        && may_count(view, node)
        && !is_in(view.update.taken.as_slice(), node)
        && !is_in(view.retired.nodes.as_slice(), node)
}

/// The view after a load that found `mark` as this node's mark.
pub fn load_mark(alloc: Global, view: &mut View, node: u32, mark: u64)
    ensures { view.new ≡ mark_loaded view.old node mark }
{
    if finds_mark(view, node, mark) {
        view.counts.moves = risen(view.counts.moves);
    }
    hold_mark(alloc, view, node, mark);
}

/// The view after this node was marked.
pub fn mark(alloc: Global, view: &mut View, node: u32)
    ensures { view.new ≡ with_mark view.old node 1 }
{
    hold_mark(alloc, view, node, 1);
}

fn node_with_key(held: HeldNode, node: u32, key: u64) -> HeldNode
    ensures { result ≡ pair_known Key node key held }
{
    let mut known = held;
    if held.node == node {
        known.key = Some(key);
    }
    known
}

fn know_key(nodes: &mut [HeldNode], node: u32, key: u64)
    ensures { nodes.new ≡ map (pair_known Key node key) nodes.old }
{
    for held in nodes.iter_mut() {
        *held = node_with_key(*held, node, key);
    }
}

/// The place of a seat that has found this number as the node's key.
fn place_with_key(place: Place, node: u32, key: u64) -> Place
    ensures { result ≡ key_found node key place }
{
    match place {
        Place::Node { node: at, key: was } => Place::Node {
            node: at,
            key: if at == u64::from(node) {
                Some(key)
            } else {
                was
            },
        },
        _ => place,
    }
}

/// The view after a load that found this number as the node's key.
pub fn load_key(alloc: Global, view: &mut View, node: u32, key: u64)
    ensures { view.new ≡ pair_loaded view.old Key node key }
{
    let mut nodes = std::mem::replace(&mut view.held.nodes, Items::new(alloc)).into_vec();
    know_key(nodes.as_mut_slice(), node, key);
    view.held.nodes = Items::from_vec(nodes);
    view.reading.place = place_with_key(view.reading.place, node, key);
}

fn node_with_val(held: HeldNode, node: u32, val: u64) -> HeldNode
    ensures { result ≡ pair_known Val node val held }
{
    let mut known = held;
    if held.node == node {
        known.val = Some(val);
    }
    known
}

fn know_val(nodes: &mut [HeldNode], node: u32, val: u64)
    ensures { nodes.new ≡ map (pair_known Val node val) nodes.old }
{
    for held in nodes.iter_mut() {
        *held = node_with_val(*held, node, val);
    }
}

/// The view after a load that found this number as the node's value.
pub fn load_val(alloc: Global, view: &mut View, node: u32, val: u64)
    ensures { view.new ≡ pair_loaded view.old Val node val }
{
    let mut nodes = std::mem::replace(&mut view.held.nodes, Items::new(alloc)).into_vec();
    know_val(nodes.as_mut_slice(), node, val);
    view.held.nodes = Items::from_vec(nodes);
}
