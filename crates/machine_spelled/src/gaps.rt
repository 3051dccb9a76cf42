// Whether a key that is not in the tree is put at a null link at which a search of the seat ended.
ghost use Rattle.std.specs.Prelude.{◌≡◌};
ghost use Rattle.std.specs.List.{list_any};
ghost use Rattle.core_events.specs.Searches.{is_gap_found as gap_found, is_gap_link as gap_link};
ghost use Rattle.core_events.specs.TreeMoves.{inserts as inserts_key, has_gap as gap_there, finds_gap as gap_needed};
ghost use Rattle.machine_spelled.specs.Sights.{memory_of, seen};

use crate::spelled_now::{Sight, field_of};
use crate::subtrees::{Subtree, top};
use crate::tree_steps::{end_link, found};
use core_events::searches::is_between;
use core_trees::{Link as TreeLink, ROOT};
use index_words::{Change, Field, Link, LinkSource, Side, Update, View};

/// Whether a search found the link with this tag, and with the key between those of its turns.
fn is_gap_found(key: u64, tag: u64, source: LinkSource) -> bool
    ensures { result ≡ gap_found key tag source }
{
    match source {
        LinkSource::Plain {
            tag: Some(found),
            above,
            below,
        } => found == tag && is_between(below, above, key),
        _ => false,
    }
}

/// Whether this is the null link at this place, found by such a search.
fn is_gap_link(at: TreeLink, key: u64, tag: u64, link: Link) -> bool
    ensures { result ≡ gap_link at.node at.side key tag link }
{
    link.node == at.node
        && link.side == at.side
        && link.child == 0
        && is_gap_found(key, tag, link.source)
}

fn remembers_gap(links: &[Link], at: TreeLink, key: u64, tag: u64) -> bool
    ensures { result ≡ list_any (gap_link at.node at.side key tag) links.now }
{
    links.iter().any(|link| is_gap_link(at, key, tag, *link))
}

/// Whether the plain link is null, and the seat's search ended there with the tag that the link has now.
fn has_gap(sight: &Sight<'_>, view: &View, key: u64, at: TreeLink) -> bool
    ensures { result ≡ gap_there (memory_of sight.now) view.now key at.node at.side }
{
    let node = u64::from(at.node);
    field_of(sight, Field::Link(at.side), node) == 0
        && remembers_gap(
            view.reading.links.as_slice(),
            at,
            key,
            field_of(sight, Field::Tag(at.side), node),
        )
}

/// Whether the update puts a key that is not in the tree.
fn inserts(sight: &Sight<'_>, tree: Subtree, change: Change, key: u64) -> bool
    ensures { result ≡ inserts_key change key (seen sight.now tree) }
{
    match change {
        Change::Put(_) => top(sight, found(sight, tree, key)).is_none(),
        Change::Remove => false,
    }
}

/// Whether a key that is not in the tree is put at such a null link.
pub(crate) fn finds_gap(sight: &Sight<'_>, view: &View, tree: Subtree, update: Update) -> bool
    ensures { result ≡ gap_needed (memory_of sight.now) view.now update (seen sight.now tree) }
{
    let root = TreeLink {
        node: ROOT,
        side: Side::Right,
    };
    !inserts(sight, tree, update.change, update.key)
        || has_gap(
            sight,
            view,
            update.key,
            end_link(sight, tree, update.key, root),
        )
}
