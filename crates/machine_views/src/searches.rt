// What a load of a plain link or of its tag does to a search, and whether it counts.
ghost use Rattle.std.specs.Prelude.{◌≡◌, ◌&&◌, map, true, OnOk, OnErr};
ghost use Rattle.core_grace.specs.Batches.{is_number};
ghost use Rattle.core_events.specs.Searches.{searches_at as stands_at, left_turn_after as left_after, right_turn_after as right_after, turned as turned_at, place_after as stands_after, plain_link as link_found, walked, tag_found as source_tagged, with_tag as tagged_link, has_other_child as other_child_found, is_other_tag as other_tag, has_other_tag as other_tag_found, held_side, is_plain as plain_source, knows_link as link_known, knows_tag as tag_known, turn_key as key_of_turn};
ghost use Rattle.core_events.specs.PlainMoves.{link_moved as counts_link, tag_moved as counts_tag};

use core_events::searches::{same_side, turn_key};
use index_words::{
    HeldNode, HeldSide, Items, Link, LinkSource, NoMemory, Place, Reading, Side, Turn, View,
};
use std::alloc::Global;

/// The node at which the search stands, as a turn.
#[tactic(auto, using(crate::proofs::Turned::turned_is))]
fn turned(reading: &Reading, node: u32, side: Side, turn: Option<Turn>) -> Option<Turn>
    requires stands { stands_at reading.now reading.now.place node side ≡ true }
    ensures { result ≡ turned_at reading.now.place turn }
{
    match reading.place {
        Place::Node { key: Some(key), .. } => Some(Turn { node, key }),
        _ => turn,
    }
}

fn left_turn_after(reading: &Reading, node: u32, side: Side) -> Option<Turn>
    requires stands { stands_at reading.now reading.now.place node side ≡ true }
    ensures { result ≡ left_after side reading.now }
{
    match side {
        Side::Left => turned(reading, node, side, reading.left_turn),
        Side::Right => reading.left_turn,
    }
}

fn right_turn_after(reading: &Reading, node: u32, side: Side) -> Option<Turn>
    requires stands { stands_at reading.now reading.now.place node side ≡ true }
    ensures { result ≡ right_after side reading.now }
{
    match side {
        Side::Left => reading.right_turn,
        Side::Right => turned(reading, node, side, reading.right_turn),
    }
}

fn place_after(node: u32, side: Side, child: u64) -> Place
    ensures { result ≡ stands_after node side child }
{
    if child == 0 {
        Place::Gap { node, side }
    } else {
        Place::Node {
            node: child,
            key: None,
        }
    }
}

fn plain_link(node: u32, side: Side, child: u64, left: Option<Turn>, right: Option<Turn>) -> Link
    ensures { result ≡ link_found node side child (key_of_turn left) (key_of_turn right) }
{
    Link {
        node,
        side,
        child,
        source: LinkSource::Plain {
            tag: None,
            above: turn_key(left),
            below: turn_key(right),
        },
    }
}

/// The search goes on by the link at which it stands. After a refusal it is unchanged.
pub(crate) fn walk(reading: &mut Reading, node: u32, side: Side, child: u64) -> Result<(), NoMemory>
    requires stands { stands_at reading.old reading.old.place node side ≡ true }
    ensures ok { OnOk result (reading.new ≡ walked true reading.old node side child) }
    ensures err { OnErr result (reading.new ≡ reading.old) }
{
    let left = left_turn_after(reading, node, side);
    let right = right_turn_after(reading, node, side);
    reading
        .links
        .push(plain_link(node, side, child, left, right))?;
    reading.place = place_after(node, side, child);
    reading.above = None;
    reading.left_turn = left;
    reading.right_turn = right;
    Ok(())
}

fn tag_found(source: LinkSource, tag: u64) -> LinkSource
    ensures { result ≡ source_tagged tag source }
{
    match source {
        LinkSource::Plain {
            tag: None,
            above,
            below,
        } => LinkSource::Plain {
            tag: Some(tag),
            above,
            below,
        },
        _ => source,
    }
}

fn tagged(link: Link, node: u32, side: Side, tag: u64) -> Link
    ensures { result ≡ tagged_link node side tag link }
{
    let mut found = link;
    if link.node == node && same_side(link.side, side) {
        found.source = tag_found(link.source, tag);
    }
    found
}

fn tag_each(links: &mut [Link], node: u32, side: Side, tag: u64)
    ensures { links.new ≡ map (tagged_link node side tag) links.old }
{
    for link in links.iter_mut() {
        *link = tagged(*link, node, side, tag);
    }
}

/// Sets the tag of each link of this kind that has none yet.
pub(crate) fn tag_links(alloc: Global, reading: &mut Reading, node: u32, side: Side, tag: u64)
    ensures { reading.new ≡ record reading.old { links = map (tagged_link node side tag) reading.old.links } }
{
    let mut links = std::mem::replace(&mut reading.links, Items::new(alloc)).into_vec();
    tag_each(links.as_mut_slice(), node, side, tag);
    reading.links = Items::from_vec(links);
}

fn is_plain(source: LinkSource) -> bool
    ensures { result ≡ plain_source source }
{
    match source {
        LinkSource::Bundle { .. } => false,
        LinkSource::Plain { .. } => true,
    }
}

fn has_other_child(links: &[Link], node: u32, side: Side, child: u64) -> bool
    ensures { result ≡ other_child_found links.now node side child }
{
    links.iter().any(|link| {
        link.node == node
            && same_side(link.side, side)
            && is_plain(link.source)
            && !(link.child == child)
    })
}

fn is_other_tag(source: LinkSource, tag: u64) -> bool
    ensures { result ≡ other_tag tag source }
{
    match source {
        LinkSource::Plain {
            tag: Some(found),
            ..
        } => !(found == tag),
        _ => false,
    }
}

fn has_other_tag(links: &[Link], node: u32, side: Side, tag: u64) -> bool
    ensures { result ≡ other_tag_found links.now node side tag }
{
    links.iter().any(|link| {
        link.node == node && same_side(link.side, side) && is_other_tag(link.source, tag)
    })
}

fn side_of(held: HeldNode, side: Side) -> HeldSide
    ensures { result ≡ held_side side held }
{
    match side {
        Side::Left => held.left,
        Side::Right => held.right,
    }
}

fn is_known(word: Option<u64>, found: u64) -> bool
    ensures { result ≡ is_number found word }
{
    match word {
        None => false,
        Some(word) => word == found,
    }
}

fn knows_link(nodes: &[HeldNode], node: u32, side: Side, child: u64) -> bool
    ensures { result ≡ link_known nodes.now node side child }
{
    nodes.iter().any(|held| held.node == node && is_known(side_of(*held, side).link, child))
}

fn knows_tag(nodes: &[HeldNode], node: u32, side: Side, tag: u64) -> bool
    ensures { result ≡ tag_known nodes.now node side tag }
{
    nodes.iter().any(|held| held.node == node && is_known(side_of(*held, side).tag, tag))
}

/// Whether the found child shows that another seat has set the link since the search.
pub(crate) fn link_moved(view: &View, node: u32, side: Side, child: u64) -> bool
    ensures { result ≡ counts_link view.now node side child }
{
    has_other_child(view.reading.links.as_slice(), node, side, child)
        && !knows_link(view.held.nodes.as_slice(), node, side, child)
}

/// Whether the found tag shows that another seat has raised it since the search.
pub(crate) fn tag_moved(view: &View, node: u32, side: Side, tag: u64) -> bool
    ensures { result ≡ counts_tag view.now node side tag }
{
    has_other_tag(view.reading.links.as_slice(), node, side, tag)
        && !knows_tag(view.held.nodes.as_slice(), node, side, tag)
}
