// The needs of events that split or join seats, move a section, or fill a word: the step, if they are met.
ghost use Rattle.std.specs.Prelude.{◌≡◌, ◌&&◌, ◌||◌, not, IfSome, is_some};
ghost use Rattle.std.specs.List.{list_all, slice_get};
ghost use Rattle.index_words.specs.Words.{memory};
ghost use Rattle.index_words.specs.declared.word.Word.TheVariants.{Section};
ghost use Rattle.core_grace.specs.Sections.{is_even};
ghost use Rattle.core_events.specs.declared.event.Kind.TheVariants.{SplitSeat, JoinSeat, Enter, Leave, LookSec, Fill};
ghost use Rattle.core_events.specs.Needs.{is_outside as outside_of, is_marked_node, is_marked_out as marked_out, nothing_pending, is_own_section as own_section, is_lock, may_enter as enter_needs, may_fill as fill_needs, may_split as split_needs, may_join as join_needs, may_join_view, may_join_found, has_none_waiting as none_waiting};
ghost use Rattle.core_events.specs.Waits.{has_no_lock, is_waiting as waits, may_leave as leave_needs, may_look as look_needs};
ghost use Rattle.machine_needs.specs.StepParts.{IsStep};

use crate::step::{Load, Step, Store};
use crate::wait_needs::{has_to_look, is_successor, is_waiting};
use core_events::reads::{held, is_in};
use core_grace::{is_own, left_word};
use index_words::{Field, Layout, Updating, View, Word};

fn is_outside(view: &View) -> bool
    ensures { result ≡ outside_of view.now }
{
    view.section_word % 2 == 0 && view.held.nodes.is_empty()
}

pub(crate) fn is_marked(layout: &Layout, words: &[u64], node: u32) -> bool
    ensures { result ≡ is_marked_node (memory layout.now words.now) node }
{
    held(layout, words, Word::Node(Field::Mark, node)) == 1
}

/// Whether a node that the update took out is marked, or is a successor that is still to be unlinked.
fn is_marked_out(layout: &Layout, words: &[u64], update: &Updating, node: u32) -> bool
    ensures { result ≡ marked_out (memory layout.now words.now) update.now node }
{
    is_marked(layout, words, node) || is_successor(update.unlinking, node)
}

fn are_marked(layout: &Layout, words: &[u64], update: &Updating) -> bool
    ensures { result ≡ list_all (marked_out (memory layout.now words.now) update.now) update.now.taken }
{
    let nodes = update.taken.as_slice();
    nodes
        .iter()
        .all(|node| is_marked_out(layout, words, update, *node))
}

/// Whether nothing of the view is pending.
pub(crate) fn is_pending_free(layout: &Layout, words: &[u64], view: &View) -> bool
    ensures { result ≡ nothing_pending (memory layout.now words.now) view.now }
{
    view.update.pending.is_empty() && are_marked(layout, words, &view.update)
}

fn is_lock_word(field: Field) -> bool
    ensures { result ≡ is_lock field }
{
    match field {
        Field::Lock => true,
        _ => false,
    }
}

fn is_own_section(number: Option<u32>, pass: u32) -> bool
    ensures { result ≡ own_section number (Section pass) }
{
    match number {
        Some(number) => pass == number,
        None => false,
    }
}

pub(crate) fn enter(view: &View, word: Word, value: u64) -> Option<Step>
    ensures met { is_some result ≡ enter_needs view.now word value }
    ensures step { IfSome result (IsStep Enter word value) }
{
    let Word::Section(pass) = word else {
        return None;
    };
    if is_own_section(view.number, pass) && is_outside(view) && value == view.section_word + 1 {
        return Some(Step::Store(Store::Enter { pass, value }));
    }
    None
}

fn is_left_by(layout: &Layout, words: &[u64], view: &View, pass: u32) -> bool
    ensures { result ≡ (own_section view.now.number (Section pass) && not (is_even view.now.section_word) && (has_no_lock view.now || waits view.now) && nothing_pending (memory layout.now words.now) view.now) }
{
    is_own_section(view.number, pass)
        && !(view.section_word % 2 == 0)
        && (view.held.nodes.is_empty() || is_waiting(view))
        && is_pending_free(layout, words, view)
}

pub(crate) fn leave(
    layout: &Layout,
    words: &[u64],
    view: &View,
    word: Word,
    value: u64,
) -> Option<Step>
    ensures met { is_some result ≡ leave_needs (memory layout.now words.now) view.now word value }
    ensures step { IfSome result (IsStep Leave word value) }
{
    let Word::Section(pass) = word else {
        return None;
    };
    if is_left_by(layout, words, view, pass) && value == left_word(view.section_word) {
        return Some(Step::Store(Store::Leave { pass, value }));
    }
    None
}

pub(crate) fn look(view: &View, word: Word, value: u64) -> Option<Step>
    ensures met { is_some result ≡ look_needs view.now word value }
    ensures step { IfSome result (IsStep LookSec word value) }
{
    let Word::Section(pass) = word else {
        return None;
    };
    if !is_own(view.number, pass) && view.section_word % 2 == 0 && has_to_look(view) && value == 0 {
        return Some(Step::Load(Load::Section { pass }));
    }
    None
}

fn may_fill(view: &View, word: Word) -> bool
    ensures { result ≡ fill_needs view.now word }
{
    match word {
        Word::Node(field, node) => !is_lock_word(field) && is_in(view.free.nodes.as_slice(), node),
        Word::Entry(_, entry) => is_in(view.free.entries.as_slice(), entry),
        _ => false,
    }
}

pub(crate) fn fill(view: &View, word: Word, value: u64) -> Option<Step>
    ensures met { is_some result ≡ fill_needs view.now word }
    ensures step { IfSome result (IsStep Fill word value) }
{
    if may_fill(view, word) {
        return Some(Step::Store(Store::Fill { word, value }));
    }
    None
}

pub(crate) fn split(view: &View, word: Word, value: u64) -> Option<Step>
    ensures met { is_some result ≡ split_needs view.now word value }
    ensures step { IfSome result (IsStep SplitSeat word value) }
{
    let Word::Stamp = word else {
        return None;
    };
    if value == 0 || (value == 1 && !view.free.nodes.is_empty()) {
        return Some(Step::Split { nodes: value });
    }
    None
}

fn has_none_waiting(view: &View) -> bool
    ensures { result ≡ none_waiting view.now }
{
    view.retired.is_empty() && view.batch.is_empty()
}

fn may_join_with(view: &View, other: &View) -> bool
    ensures { result ≡ may_join_view view.now other.now }
{
    !other.joined
        && ((other.number.is_none() && has_none_waiting(other))
            || (is_outside(view) && is_outside(other)))
}

fn is_joined_by(views: &[View], view: &View, other: u64) -> bool
    ensures { result ≡ may_join_found view.now (slice_get views.now other) }
{
    match views.get(other as usize) {
        None => false,
        Some(other) => may_join_with(view, other),
    }
}

pub(crate) fn join(views: &[View], seat: u32, view: &View, word: Word, other: u64) -> Option<Step>
    ensures met { is_some result ≡ join_needs views.now seat view.now word other }
    ensures step { IfSome result (IsStep JoinSeat word other) }
{
    let Word::Stamp = word else {
        return None;
    };
    if !(other == u64::from(seat)) && is_joined_by(views, view, other) {
        return Some(Step::Join { other });
    }
    None
}
