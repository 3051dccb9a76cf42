// The view of a seat after each kind of event that loads or stores a plain link or its tag.
ghost use Rattle.std.specs.Prelude.{◌≡◌, ◌==◌, ◌&&◌, map, OnOk, OnErr};
ghost use Rattle.core_events.specs.PlainNeeds.{is_link_of as link_of, is_owed_at as owed_at, unlinks_at as unlinks};
ghost use Rattle.core_events.specs.PlainMoves.{link_known_at, tag_known_at, link_kept, tag_kept, link_loaded, tag_loaded, other_links, other_tags, still_unlinking as unlinking_after, link_set, tag_set};

use crate::loads::risen;
use crate::searches::{link_moved, tag_links, tag_moved, walk};
use core_events::searches::{same_side, searches_at};
use index_words::{HeldNode, Items, NoMemory, OwedTag, Side, Unlinking, UnsetLink, View};
use std::alloc::Global;

fn with_link(held: HeldNode, node: u32, side: Side, child: u64) -> HeldNode
    ensures { result ≡ link_known_at node side child held }
{
    let mut known = held;
    if held.node == node {
        match side {
            Side::Left => known.left.link = Some(child),
            Side::Right => known.right.link = Some(child),
        }
    }
    known
}

fn know_link(nodes: &mut [HeldNode], node: u32, side: Side, child: u64)
    ensures { nodes.new ≡ map (link_known_at node side child) nodes.old }
{
    for held in nodes.iter_mut() {
        *held = with_link(*held, node, side, child);
    }
}

fn keep_link(alloc: Global, view: &mut View, node: u32, side: Side, child: u64)
    ensures { view.new ≡ link_kept view.old node side child }
{
    let mut nodes = std::mem::replace(&mut view.held.nodes, Items::new(alloc)).into_vec();
    know_link(nodes.as_mut_slice(), node, side, child);
    view.held.nodes = Items::from_vec(nodes);
}

/// The view after a load that found this child in a plain link. After a refusal it is unchanged.
pub fn load_link(
    alloc: Global,
    view: &mut View,
    node: u32,
    side: Side,
    child: u64,
) -> Result<(), NoMemory>
    ensures ok { OnOk result (view.new ≡ link_loaded view.old node side child) }
    ensures err { OnErr result (view.new ≡ view.old) }
{
    let moved = link_moved(view, node, side, child);
    if searches_at(&view.reading, node, side) {
        walk(&mut view.reading, node, side, child)?;
    }
    if moved {
        view.counts.moves = risen(view.counts.moves);
    }
    keep_link(alloc, view, node, side, child);
    Ok(())
}

fn with_tag(held: HeldNode, node: u32, side: Side, tag: u64) -> HeldNode
    ensures { result ≡ tag_known_at node side tag held }
{
    let mut known = held;
    if held.node == node {
        match side {
            Side::Left => known.left.tag = Some(tag),
            Side::Right => known.right.tag = Some(tag),
        }
    }
    known
}

fn know_tag(nodes: &mut [HeldNode], node: u32, side: Side, tag: u64)
    ensures { nodes.new ≡ map (tag_known_at node side tag) nodes.old }
{
    for held in nodes.iter_mut() {
        *held = with_tag(*held, node, side, tag);
    }
}

fn keep_tag(alloc: Global, view: &mut View, node: u32, side: Side, tag: u64)
    ensures { view.new ≡ tag_kept view.old node side tag }
{
    let mut nodes = std::mem::replace(&mut view.held.nodes, Items::new(alloc)).into_vec();
    know_tag(nodes.as_mut_slice(), node, side, tag);
    view.held.nodes = Items::from_vec(nodes);
}

/// The view after a load that found this number as a plain link's tag.
pub fn load_tag(alloc: Global, view: &mut View, node: u32, side: Side, tag: u64)
    ensures { view.new ≡ tag_loaded view.old node side tag }
{
    if tag_moved(view, node, side, tag) {
        view.counts.moves = risen(view.counts.moves);
    }
    tag_links(alloc, &mut view.reading, node, side, tag);
    keep_tag(alloc, view, node, side, tag);
}

fn is_link_of(node: u32, side: Side, link: UnsetLink) -> bool
    ensures { result ≡ link_of node side link }
{
    link.node == node && same_side(link.side, side)
}

fn keep_links(links: &mut Vec<UnsetLink>, node: u32, side: Side)
    ensures { links.new.items ≡ other_links node side links.old.items }
{
    links.retain(|link| !is_link_of(node, side, *link));
}

fn unlinks_at(node: u32, side: Side, unlinking: Option<Unlinking>) -> bool
    ensures { result ≡ unlinks node side unlinking }
{
    match unlinking {
        None => false,
        Some(unlinking) => unlinking.parent == node && same_side(unlinking.side, side),
    }
}

fn still_unlinking(node: u32, side: Side, unlinking: Option<Unlinking>) -> Option<Unlinking>
    ensures { result ≡ unlinking_after node side unlinking }
{
    if unlinks_at(node, side, unlinking) {
        None
    } else {
        unlinking
    }
}

/// The view after a plain link was set to this child.
pub fn set_link(alloc: Global, view: &mut View, node: u32, side: Side, child: u64)
    ensures { view.new ≡ link_set view.old node side child }
{
    keep_link(alloc, view, node, side, child);
    let mut links = std::mem::replace(&mut view.update.unset, Items::new(alloc)).into_vec();
    keep_links(&mut links, node, side);
    view.update.unset = Items::from_vec(links);
    view.update.unlinking = still_unlinking(node, side, view.update.unlinking);
}

fn is_owed_at(node: u32, side: Side, owed: OwedTag) -> bool
    ensures { result ≡ owed_at node side owed }
{
    owed.node == node && same_side(owed.side, side)
}

fn keep_tags(owed: &mut Vec<OwedTag>, node: u32, side: Side)
    ensures { owed.new.items ≡ other_tags node side owed.old.items }
{
    owed.retain(|tag| !is_owed_at(node, side, *tag));
}

/// The view after a plain link's tag was stored as this number.
pub fn set_tag(alloc: Global, view: &mut View, node: u32, side: Side, tag: u64)
    ensures { view.new ≡ tag_set view.old node side tag }
{
    keep_tag(alloc, view, node, side, tag);
    let mut owed = std::mem::replace(&mut view.update.owed, Items::new(alloc)).into_vec();
    keep_tags(&mut owed, node, side);
    view.update.owed = Items::from_vec(owed);
}
