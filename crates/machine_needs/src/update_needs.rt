// The needs of an update's events: the step, if they are met.
ghost use Rattle.std.specs.Prelude.{◌≡◌, Some, IfSome, is_some};
ghost use Rattle.index_words.specs.Words.{memory};
ghost use Rattle.index_words.specs.declared.word.Word.TheVariants.{Stamp};
ghost use Rattle.core_events.specs.declared.event.Kind.TheVariants.{Prepare, Raise, Finalise};
ghost use Rattle.core_events.specs.UpdateNeeds.{side_of as side_named, is_written as written, is_next_of as next_of, is_ready as ready, held_at as held_named, may_prepare_entry as entry_needs, may_prepare as prepare_needs, may_raise_number as number_needs, may_raise as raise_needs, may_finalise as finalise_needs};
ghost use Rattle.machine_needs.specs.StepParts.{parts_of, IsStep};

use crate::seen::Seen;
use crate::step::{Step, Store};
use core_events::reads::{held, is_in};
use index_words::{Field, HeldNode, HeldSide, Layout, LoadedHead, Part, Side, Update, View, Word};
use machine_spelled::tree_steps::is_tree_step;

fn side_of(held: HeldNode, side: Side) -> HeldSide
    ensures { result ≡ side_named side held }
{
    match side {
        Side::Left => held.left,
        Side::Right => held.right,
    }
}

fn is_written(stamp: Option<u64>) -> bool
    ensures { result ≡ written stamp }
{
    match stamp {
        None => false,
        Some(stamp) => !(stamp == 0),
    }
}

fn is_next_of(layout: &Layout, words: &[u64], entry: u32, head: Option<LoadedHead>) -> bool
    ensures { result ≡ next_of (memory layout.now words.now) entry head }
{
    match head {
        None => false,
        Some(head) => {
            (head.entry == 0 || is_written(head.stamp))
                && held(layout, words, Word::Entry(Part::Next, entry)) == head.entry
        }
    }
}

fn is_ready(layout: &Layout, words: &[u64], side: Side, entry: u32, node: Option<HeldNode>) -> bool
    ensures { result ≡ ready (memory layout.now words.now) side entry node }
{
    match node {
        None => false,
        Some(node) => {
            node.mark == Some(0) && is_next_of(layout, words, entry, side_of(node, side).head)
        }
    }
}

fn held_at(nodes: &[HeldNode], node: u32) -> Option<HeldNode>
    ensures { result ≡ held_named node nodes.now }
{
    for held in nodes {
        if held.node == node {
            return Some(*held);
        }
    }
    None
}

fn may_prepare_entry(
    layout: &Layout,
    words: &[u64],
    view: &View,
    side: Side,
    node: u32,
    entry: u32,
) -> bool
    ensures { result ≡ entry_needs (memory layout.now words.now) view.now side node entry }
{
    let locked = held_at(view.held.nodes.as_slice(), node);
    view.update.raised.is_none()
        && is_ready(layout, words, side, entry, locked)
        && is_in(view.free.entries.as_slice(), entry)
        && held(layout, words, Word::Entry(Part::Stamp, entry)) == 0
}

pub(crate) fn prepare(
    layout: &Layout,
    words: &[u64],
    view: &View,
    word: Word,
    value: u64,
) -> Option<Step>
    ensures met { is_some result ≡ prepare_needs (memory layout.now words.now) view.now word value }
    ensures step { IfSome result (IsStep Prepare word value) }
{
    let Word::Node(Field::Head(side), node) = word else {
        return None;
    };
    let Ok(entry) = u32::try_from(value) else {
        return None;
    };
    if may_prepare_entry(layout, words, view, side, node, entry) {
        return Some(Step::Store(Store::Prepare { node, side, entry }));
    }
    None
}

/// Whether the stamp may be raised, apart from what is needed of the tree.
fn may_raise_number(view: &View, value: u64) -> bool
    ensures { result ≡ number_needs view.now Stamp value }
{
    value == 0
        && view.update.raised.is_none()
        && !(view.history.left == 0)
        && !view.update.pending.is_empty()
}

/// The step of a raise of this update.
pub(crate) fn raise(
    seen: &Seen<'_>,
    view: &View,
    word: Word,
    value: u64,
    update: Update,
) -> Option<Step>
    ensures met { is_some result ≡ raise_needs seen.now.layout.now (memory seen.now.layout.now seen.now.words.now)
        seen.now.views.now view.now word value (Some update) }
    ensures step { IfSome result (λ s. parts_of s ≡ record { kind = Raise; word = word; value = value; update = Some update }) }
{
    let Word::Stamp = word else {
        return None;
    };
    if may_raise_number(view, value)
        && is_tree_step(seen.layout, seen.words, seen.views, view, update)
    {
        return Some(Step::Raise { update });
    }
    None
}

pub(crate) fn finalise(view: &View, word: Word, value: u64) -> Option<Step>
    ensures met { is_some result ≡ finalise_needs view.now word value }
    ensures step { IfSome result (IsStep Finalise word value) }
{
    let Word::Entry(Part::Stamp, entry) = word else {
        return None;
    };
    if is_in(view.update.pending.as_slice(), entry) && view.update.raised == Some(value) {
        return Some(Step::Store(Store::Finalise {
            entry,
            number: value,
        }));
    }
    None
}
