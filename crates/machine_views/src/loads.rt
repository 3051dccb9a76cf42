// The view of a seat after each kind of load.
ghost use Rattle.std.specs.Prelude.{◌≡◌, ◌==◌, ◌&&◌, OnOk, OnErr, map};
ghost use Rattle.key_map.specs.Lists.{has};
ghost use Rattle.core_events.specs.UpdateMoves.{known_at};
ghost use Rattle.core_events.specs.LoadMoves.{risen as risen_count, is_watching as watches_bundle, meets_pending as meets_other, has_other_source, has_moved as link_has_moved, remembered_if, bundle_link, stored_by as is_stored_by, found_again, side_found, found_at, head_loaded, stamp_known, side_known, node_known, place_known, ts_loaded, is_selected as selects, ptr_loaded, kept_if, next_loaded};

use core_events::reads::{is_above, is_locked, is_pending};
use core_events::searches::same_side;
use index_words::{
    Held, HeldNext, HeldNode, HeldSide, Items, Link, LinkSource, LoadedHead, NoMemory, Place, Side,
    View,
};
use std::alloc::Global;

/// One more, but at the largest value the same.
pub(crate) fn risen(count: u64) -> u64
    ensures { result ≡ risen_count count }
{
    if count == u64::MAX { count } else { count + 1 }
}

fn has_other_entry(source: LinkSource, head: u64) -> bool
    ensures { result ≡ has_other_source source head }
{
    match source {
        LinkSource::Bundle { entry } => !(entry == head),
        LinkSource::Plain { .. } => false,
    }
}

fn has_moved(links: &[Link], node: u32, side: Side, head: u64) -> bool
    ensures { result ≡ link_has_moved links.now node side head }
{
    links.iter().any(|link| {
        link.node == node && same_side(link.side, side) && has_other_entry(link.source, head)
    })
}

const fn link_of(node: u32, side: Side, child: u64, entry: u64) -> Link
    ensures { result ≡ bundle_link node side child entry }
{
    Link {
        node,
        side,
        child,
        source: LinkSource::Bundle { entry },
    }
}

fn remember(links: &mut Items<Link>, now: bool, link: Link) -> Result<(), NoMemory>
    ensures ok { OnOk result (links.new ≡ remembered_if now links.old link) }
    ensures err { OnErr result (links.new ≡ links.old) }
{
    if now {
        return links.push(link);
    }
    Ok(())
}

fn keep_next(nexts: &mut Items<HeldNext>, now: bool, next: HeldNext) -> Result<(), NoMemory>
    ensures ok { OnOk result (nexts.new ≡ kept_if now nexts.old next) }
    ensures err { OnErr result (nexts.new ≡ nexts.old) }
{
    if now {
        return nexts.push(next);
    }
    Ok(())
}

fn with_head(held: HeldNode, node: u32, side: Side, head: LoadedHead) -> HeldNode
    ensures { result ≡ known_at node side head held }
{
    let mut known = held;
    if held.node == node {
        match side {
            Side::Left => known.left.head = Some(head),
            Side::Right => known.right.head = Some(head),
        }
    }
    known
}

fn know_head(nodes: &mut [HeldNode], node: u32, side: Side, head: LoadedHead)
    ensures { nodes.new ≡ map (known_at node side head) nodes.old }
{
    for held in nodes.iter_mut() {
        *held = with_head(*held, node, side, head);
    }
}

/// The locked nodes, with what is known of one head.
pub(crate) fn hold_head(alloc: Global, held: &mut Held, node: u32, side: Side, head: LoadedHead)
    ensures { held.new ≡ record held.old { nodes = map (known_at node side head) held.old.nodes } }
{
    let mut nodes = std::mem::replace(&mut held.nodes, Items::new(alloc)).into_vec();
    know_head(nodes.as_mut_slice(), node, side, head);
    held.nodes = Items::from_vec(nodes);
}

fn head_again(head: Option<LoadedHead>, entry: u64) -> Option<LoadedHead>
    ensures { result ≡ found_again entry head }
{
    let found = LoadedHead { entry, stamp: None };
    match head {
        None => Some(found),
        Some(head) => Some(if head.entry == entry { head } else { found }),
    }
}

fn side_again(side: HeldSide, entry: u64) -> HeldSide
    ensures { result ≡ side_found entry side }
{
    HeldSide {
        head: head_again(side.head, entry),
        link: side.link,
        tag: side.tag,
    }
}

fn with_found(held: HeldNode, node: u32, side: Side, entry: u64) -> HeldNode
    ensures { result ≡ found_at node side entry held }
{
    let mut known = held;
    if held.node == node {
        match side {
            Side::Left => known.left = side_again(held.left, entry),
            Side::Right => known.right = side_again(held.right, entry),
        }
    }
    known
}

fn find_head(nodes: &mut [HeldNode], node: u32, side: Side, entry: u64)
    ensures { nodes.new ≡ map (found_at node side entry) nodes.old }
{
    for held in nodes.iter_mut() {
        *held = with_found(*held, node, side, entry);
    }
}

/// The locked nodes after a load of a head that found this entry.
fn hold_found(alloc: Global, held: &mut Held, node: u32, side: Side, entry: u64)
    ensures { held.new ≡ record held.old { nodes = map (found_at node side entry) held.old.nodes } }
{
    let mut nodes = std::mem::replace(&mut held.nodes, Items::new(alloc)).into_vec();
    find_head(nodes.as_mut_slice(), node, side, entry);
    held.nodes = Items::from_vec(nodes);
}

fn is_mine(mine: &[u64], number: u64) -> bool
    ensures { result ≡ has number mine.now }
{
    mine.contains(&number)
}

fn stored_by(view: &View, entry: u64, number: u64) -> bool
    ensures { result ≡ is_stored_by view.now entry number }
{
    is_pending(view, entry) || is_mine(view.history.mine.as_slice(), number)
}

/// The view after a load that found `entry`, with this written number, as this head. After a refusal it is unchanged.
pub fn load_head(
    alloc: Global,
    view: &mut View,
    node: u32,
    side: Side,
    entry: u64,
    number: u64,
) -> Result<(), NoMemory>
    ensures ok { OnOk result (view.new ≡ head_loaded view.old node side entry number) }
    ensures err { OnErr result (view.new ≡ view.old) }
{
    let moved = has_moved(view.reading.links.as_slice(), node, side, entry)
        && !stored_by(view, entry, number);
    remember(
        &mut view.reading.links,
        entry == 0,
        link_of(node, side, 0, 0),
    )?;
    if moved {
        view.counts.moves = risen(view.counts.moves);
    }
    view.reading.place = Place::Entry {
        node,
        side,
        entry,
        stamp: None,
    };
    view.reading.above = None;
    hold_found(alloc, &mut view.held, node, side, entry);
    Ok(())
}

fn with_stamp(head: Option<LoadedHead>, entry: u32, stamp: u64) -> Option<LoadedHead>
    ensures { result ≡ stamp_known entry stamp head }
{
    match head {
        None => None,
        Some(head) => {
            if head.entry == u64::from(entry) {
                Some(LoadedHead {
                    entry: head.entry,
                    stamp: Some(stamp),
                })
            } else {
                Some(head)
            }
        }
    }
}

fn side_with_stamp(side: HeldSide, entry: u32, stamp: u64) -> HeldSide
    ensures { result ≡ side_known entry stamp side }
{
    HeldSide {
        head: with_stamp(side.head, entry, stamp),
        link: side.link,
        tag: side.tag,
    }
}

fn node_with_stamp(held: HeldNode, entry: u32, stamp: u64) -> HeldNode
    ensures { result ≡ node_known entry stamp held }
{
    HeldNode {
        node: held.node,
        key: held.key,
        val: held.val,
        mark: held.mark,
        left: side_with_stamp(held.left, entry, stamp),
        right: side_with_stamp(held.right, entry, stamp),
    }
}

fn know_stamp(nodes: &mut [HeldNode], entry: u32, stamp: u64)
    ensures { nodes.new ≡ map (node_known entry stamp) nodes.old }
{
    for held in nodes.iter_mut() {
        *held = node_with_stamp(*held, entry, stamp);
    }
}

fn place_with_stamp(place: Place, found: u64) -> Place
    ensures { result ≡ place_known found place }
{
    match place {
        Place::Entry {
            node,
            side,
            entry,
            ..
        } => Place::Entry {
            node,
            side,
            entry,
            stamp: Some(found),
        },
        Place::Nowhere => Place::Nowhere,
        Place::Node { node, key } => Place::Node { node, key },
        Place::Gap { node, side } => Place::Gap { node, side },
    }
}

/// Whether the seat watches the bundle in which it stands: it reads at a number, or has locked the node.
fn is_watching(view: &View) -> bool
    ensures { result ≡ watches_bundle view.now view.now.reading.place }
{
    match view.reading.place {
        Place::Entry { node, .. } => {
            view.reading.section.is_some() || is_locked(view.held.nodes.as_slice(), node)
        }
        Place::Nowhere | Place::Node { .. } | Place::Gap { .. } => false,
    }
}

/// Whether a load that found `stamp` meets a pending entry of another seat.
fn meets_pending(view: &View, entry: u32, stamp: u64) -> bool
    ensures { result ≡ meets_other view.now entry stamp }
{
    stamp == 0 && !is_pending(view, u64::from(entry)) && is_watching(view)
}

/// The view after a load that found `stamp` as the stamp of the entry at which it stands.
pub fn load_number(alloc: Global, view: &mut View, entry: u32, stamp: u64)
    ensures { view.new ≡ ts_loaded view.old entry stamp }
{
    if meets_pending(view, entry, stamp) {
        view.counts.waits = risen(view.counts.waits);
    }
    view.reading.place = place_with_stamp(view.reading.place, stamp);
    let mut nodes = std::mem::replace(&mut view.held.nodes, Items::new(alloc)).into_vec();
    know_stamp(nodes.as_mut_slice(), entry, stamp);
    view.held.nodes = Items::from_vec(nodes);
}

fn is_selected(section: Option<u64>, found: Option<u64>, locked: bool) -> bool
    ensures { result ≡ selects section found locked }
{
    match (section, found) {
        (Some(section), Some(found)) => 0 < found && found <= section && !locked,
        _ => false,
    }
}

/// The view after a load that found `child` as the child of the entry at which it stands. After a refusal it is
/// unchanged.
pub fn load_child(view: &mut View, child: u64) -> Result<(), NoMemory>
    ensures ok { OnOk result (view.new ≡ ptr_loaded view.old child) }
    ensures err { OnErr result (view.new ≡ view.old) }
{
    match view.reading.place {
        Place::Entry {
            node,
            side,
            entry,
            stamp,
        } => {
            let locked = is_locked(view.held.nodes.as_slice(), node);
            let selected = is_selected(view.reading.section, stamp, locked);
            remember(
                &mut view.reading.links,
                selected,
                link_of(node, side, child, entry),
            )
        }
        _ => Ok(()),
    }
}

/// The view after a load that found `next` as the next of the entry at which it stands. After a refusal it is
/// unchanged.
pub fn load_next(view: &mut View, entry: u32, next: u64) -> Result<(), NoMemory>
    ensures ok { OnOk result (view.new ≡ next_loaded view.old entry next) }
    ensures err { OnErr result (view.new ≡ view.old) }
{
    match view.reading.place {
        Place::Entry {
            node,
            side,
            stamp,
            ..
        } => {
            let locked = is_locked(view.held.nodes.as_slice(), node);
            let last = next == 0 && is_above(view, entry, stamp);
            let count = view.reading.links.len();
            remember(&mut view.reading.links, last, link_of(node, side, 0, 0))?;
            let found = HeldNext {
                node,
                entry,
                stamp,
                next,
            };
            if keep_next(&mut view.held.nexts, locked, found).is_err() {
                view.reading.links.truncate(count);
                return Err(NoMemory);
            }
            view.reading.place = Place::Entry {
                node,
                side,
                entry: next,
                stamp: None,
            };
            view.reading.above = stamp;
            Ok(())
        }
        _ => Ok(()),
    }
}
