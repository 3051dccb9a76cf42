// The needs of loads and stores of plain links and their tags: the step, if they are met.
ghost use Rattle.std.specs.Prelude.{◌≡◌, ◌==◌, ◌&&◌, ◌+◌, not, IfSome, is_some};
ghost use Rattle.std.specs.List.{list_any};
ghost use Rattle.index_words.specs.Words.{memory};
ghost use Rattle.index_words.specs.declared.word.Field.TheVariants.{Link as LinkField};
ghost use Rattle.index_words.specs.declared.view.update.OwedTag.{OwedTag as Owed};
ghost use Rattle.index_words.specs.declared.view.update.UnsetLink.{UnsetLink as Unset};
ghost use Rattle.core_events.specs.declared.event.Kind.TheVariants.{LoadLink, SetLink, LoadTag, SetTag};
ghost use Rattle.core_events.specs.PlainNeeds.{may_load_link_at as load_link_needs_at, may_load_link as load_link_needs, may_load_tag as load_tag_needs, is_link_of as link_of, sets_to as sets_link_to, unlinks_at as unlinks, sets_others as sets_other_links, keeps_order as order_kept, may_unlink as unlink_needs, may_unlink_at as unlink_needs_at, may_set_link as set_link_needs, is_owed_at as owed_at, owes as owes_tag, may_set_tag as set_tag_needs, is_done_at as done_at};
ghost use Rattle.machine_needs.specs.StepParts.{IsStep};

use crate::seat_needs::{is_marked, is_pending_free};
use crate::step::{Load, Step, Store};
use crate::wait_needs::is_successor;
use core_events::reads::{held, is_locked};
use core_events::searches::{same_side, searches_at};
use core_grace::has_all_others;
use index_words::{Field, Layout, OwedTag, Side, Unlinking, UnsetLink, Updating, View, Word};

/// Whether the seat may load this link: its search stands there, or it has locked the node.
fn may_look(view: &View, node: u32, side: Side) -> bool
    ensures { result ≡ load_link_needs_at view.now (LinkField side) node }
{
    !(view.section_word % 2 == 0)
        && (is_locked(view.held.nodes.as_slice(), node) || searches_at(&view.reading, node, side))
}

pub(crate) fn load_link(view: &View, word: Word, value: u64) -> Option<Step>
    ensures met { is_some result ≡ load_link_needs view.now word value }
    ensures step { IfSome result (IsStep LoadLink word value) }
{
    let Word::Node(Field::Link(side), node) = word else {
        return None;
    };
    if may_look(view, node, side) && value == 0 {
        return Some(Step::Load(Load::Link { node, side }));
    }
    None
}

pub(crate) fn load_tag(view: &View, word: Word, value: u64) -> Option<Step>
    ensures met { is_some result ≡ load_tag_needs view.now word value }
    ensures step { IfSome result (IsStep LoadTag word value) }
{
    let Word::Node(Field::Tag(side), node) = word else {
        return None;
    };
    if !(view.section_word % 2 == 0) && value == 0 {
        return Some(Step::Load(Load::Tag { node, side }));
    }
    None
}

fn is_link_of(node: u32, side: Side, link: UnsetLink) -> bool
    ensures { result ≡ link_of node side link }
{
    link.node == node && same_side(link.side, side)
}

/// Whether the link is to be set to this child.
fn sets_to(links: &[UnsetLink], node: u32, side: Side, child: u64) -> bool
    ensures { result ≡ sets_link_to node side child links.now }
{
    links.iter().any(|link| is_link_of(node, side, *link) && link.child == child)
}

/// Whether another link is to be set.
pub(crate) fn sets_others(links: &[UnsetLink], node: u32, side: Side) -> bool
    ensures { result ≡ sets_other_links node side links.now }
{
    links.iter().any(|link| !is_link_of(node, side, *link))
}

fn unlinks_at(unlinking: Option<Unlinking>, node: u32, side: Side) -> bool
    ensures { result ≡ unlinks node side unlinking }
{
    match unlinking {
        None => false,
        Some(unlinking) => unlinking.parent == node && same_side(unlinking.side, side),
    }
}

/// Whether this is not the link to a successor, or no other link is still to be set: a successor is unlinked last.
fn keeps_order(update: &Updating, node: u32, side: Side) -> bool
    ensures { result ≡ order_kept node side update.now }
{
    !(unlinks_at(update.unlinking, node, side) && sets_others(update.unset.as_slice(), node, side))
}

/// Whether a successor, if there is one, may be unlinked: it is marked, and every other pass was passed since
/// its copy was linked.
fn may_unlink(layout: &Layout, words: &[u64], view: &View) -> bool
    ensures { result ≡ unlink_needs layout.now (memory layout.now words.now) view.now view.now.update.unlinking }
{
    match view.update.unlinking {
        None => true,
        Some(unlinking) => {
            is_marked(layout, words, unlinking.successor)
                && has_all_others(
                    layout.passes,
                    view.number,
                    view.update.waiting.passed.as_slice(),
                )
        }
    }
}

/// Whether the link is not the one to a successor, or the successor may be unlinked.
fn may_unlink_at(layout: &Layout, words: &[u64], view: &View, node: u32, side: Side) -> bool
    ensures { result ≡ unlink_needs_at layout.now (memory layout.now words.now) view.now node side }
{
    !unlinks_at(view.update.unlinking, node, side) || may_unlink(layout, words, view)
}

pub(crate) fn set_link(
    layout: &Layout,
    words: &[u64],
    view: &View,
    word: Word,
    value: u64,
) -> Option<Step>
    ensures met { is_some result ≡ set_link_needs layout.now (memory layout.now words.now) view.now word value }
    ensures step { IfSome result (IsStep SetLink word value) }
{
    let Word::Node(Field::Link(side), node) = word else {
        return None;
    };
    if is_locked(view.held.nodes.as_slice(), node)
        && is_pending_free(layout, words, view)
        && sets_to(view.update.unset.as_slice(), node, side, value)
        && keeps_order(&view.update, node, side)
        && may_unlink_at(layout, words, view, node, side)
    {
        return Some(Step::Store(Store::Link {
            node,
            side,
            child: value,
        }));
    }
    None
}

fn is_owed_at(node: u32, side: Side, owed: OwedTag) -> bool
    ensures { result ≡ owed_at node side owed }
{
    owed.node == node && same_side(owed.side, side)
}

/// Whether the tag is to be raised.
fn owes(owed: &[OwedTag], node: u32, side: Side) -> bool
    ensures { result ≡ owes_tag node side owed.now }
{
    owed.iter().any(|tag| is_owed_at(node, side, *tag))
}

fn is_one_more(value: u64, word: u64) -> bool
    ensures { result ≡ (value == word + 1) }
{
    match word.checked_add(1) {
        None => false,
        Some(next) => value == next,
    }
}

pub(crate) fn set_tag(
    layout: &Layout,
    words: &[u64],
    view: &View,
    word: Word,
    value: u64,
) -> Option<Step>
    ensures met { is_some result ≡ set_tag_needs (memory layout.now words.now) view.now word value }
    ensures step { IfSome result (IsStep SetTag word value) }
{
    let Word::Node(Field::Tag(side), node) = word else {
        return None;
    };
    let tag = held(layout, words, word);
    if is_locked(view.held.nodes.as_slice(), node)
        && owes(view.update.owed.as_slice(), node, side)
        && is_one_more(value, tag)
    {
        return Some(Step::Store(Store::Tag {
            node,
            side,
            tag: value,
        }));
    }
    None
}

fn sets_at(links: &[UnsetLink], node: u32) -> bool
    ensures { result ≡ list_any (λ (x : Unset). x.node == node) links.now }
{
    links.iter().any(|link| link.node == node)
}

fn owes_at(owed: &[OwedTag], node: u32) -> bool
    ensures { result ≡ list_any (λ (o : Owed). o.node == node) owed.now }
{
    owed.iter().any(|tag| tag.node == node)
}

/// Whether the update has set all plain links of the node and raised all their tags, and the node is not a successor
/// that is still to be unlinked.
pub(crate) fn is_done_at(update: &Updating, node: u32) -> bool
    ensures { result ≡ done_at node update.now }
{
    !sets_at(update.unset.as_slice(), node)
        && !owes_at(update.owed.as_slice(), node)
        && !is_successor(update.unlinking, node)
}
