// Where a search on plain links stands, and the nodes that it knows.
ghost use Rattle.std.specs.Prelude.{◌≡◌};
ghost use Rattle.std.specs.List.{list_any};
ghost use Rattle.index_words.specs.declared.view.reading.Link.{Link as PlainLink};
ghost use Rattle.index_words.specs.Words.{same_side as same_sides};
ghost use Rattle.key_map.specs.Lists.{has};
ghost use Rattle.core_events.specs.Searches.{turn_key as key_of_turn, is_above_turn as above_turn, is_under_turn as under_turn, is_between as between, goes_on_at as goes_on_there, searches_at as stands_at, place_nodes, turn_nodes, link_nodes, search_nodes};

use index_words::{Link, LinkSource, Place, Reading, Side, Turn};

pub fn same_side(one: Side, other: Side) -> bool
    ensures { result ≡ same_sides one other }
{
    match (one, other) {
        (Side::Left, Side::Left) => true,
        (Side::Right, Side::Right) => true,
        _ => false,
    }
}

/// The key of a turn.
pub fn turn_key(turn: Option<Turn>) -> Option<u64>
    ensures { result ≡ key_of_turn turn }
{
    match turn {
        None => None,
        Some(turn) => Some(turn.key),
    }
}

fn is_above_turn(low: Option<u64>, key: u64) -> bool
    ensures { result ≡ above_turn low key }
{
    match low {
        None => true,
        Some(low) => low < key,
    }
}

fn is_under_turn(high: Option<u64>, key: u64) -> bool
    ensures { result ≡ under_turn high key }
{
    match high {
        None => true,
        Some(high) => key < high,
    }
}

/// Whether the key is between those of two turns, of which each may be missing.
pub fn is_between(low: Option<u64>, high: Option<u64>, key: u64) -> bool
    ensures { result ≡ between low high key }
{
    is_above_turn(low, key) && is_under_turn(high, key)
}

fn goes_on_at(reading: &Reading, key: Option<u64>) -> bool
    ensures { result ≡ goes_on_there reading.now key }
{
    match key {
        None => false,
        Some(key) => is_between(
            turn_key(reading.right_turn),
            turn_key(reading.left_turn),
            key,
        ),
    }
}

/// Whether the search stands where this link begins.
pub fn searches_at(reading: &Reading, node: u32, side: Side) -> bool
    ensures { result ≡ stands_at reading.now reading.now.place node side }
{
    match reading.place {
        Place::Nowhere => node == 0 && same_side(side, Side::Right),
        Place::Node { node: at, key } => at == u64::from(node) && goes_on_at(reading, key),
        Place::Entry { .. } | Place::Gap { .. } => false,
    }
}

fn is_at(place: Place, node: u32) -> bool
    ensures { result ≡ has node (place_nodes 0 place) }
{
    match place {
        Place::Nowhere => node == 0,
        Place::Node { node: at, .. } => at == u64::from(node),
        Place::Gap { node: at, .. } => at == node,
        Place::Entry { .. } => false,
    }
}

fn is_turn(turn: Option<Turn>, node: u32) -> bool
    ensures { result ≡ has node (turn_nodes turn) }
{
    match turn {
        None => false,
        Some(turn) => turn.node == node,
    }
}

fn is_link_from(link: Link, node: u32) -> bool
    ensures { result ≡ has node (link_nodes link) }
{
    match link.source {
        LinkSource::Bundle { .. } => false,
        LinkSource::Plain { .. } => link.node == node,
    }
}

fn has_link_from(links: &[Link], node: u32) -> bool
    ensures { result ≡ list_any (λ (l : PlainLink). has node (link_nodes l)) links.now }
{
    links.iter().any(|link| is_link_from(*link, node))
}

/// Whether the search stands at the node, last turned there, or found a link there that it remembers.
#[tactic(auto, using(crate::proofs::SearchedNodes::searched_is))]
pub fn is_searched(reading: &Reading, node: u32) -> bool
    ensures { result ≡ has node (search_nodes 0 reading.now) }
{
    let at = is_at(reading.place, node);
    let left = is_turn(reading.left_turn, node);
    let right = is_turn(reading.right_turn, node);
    let link = has_link_from(reading.links.as_slice(), node);
    at || left || right || link
}
