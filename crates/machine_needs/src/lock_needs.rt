// The needs of events that lock, unlock or mark, and of loads of keys, values and marks: the step, if they are met.
ghost use Rattle.std.specs.Prelude.{◌≡◌, IfSome, is_some};
ghost use Rattle.index_words.specs.Words.{memory};
ghost use Rattle.core_events.specs.declared.event.Kind.TheVariants.{TryLock, Unlock, LoadMark, Mark, LoadKeyOrVal};
ghost use Rattle.core_events.specs.LockNeeds.{names_pass as pass_named, may_lock as lock_needs, may_try_lock as try_lock_needs, may_unlock as unlock_needs, may_load_mark as load_mark_needs, may_mark as mark_needs, may_load_pair as load_pair_needs};
ghost use Rattle.machine_needs.specs.StepParts.{IsStep};

use crate::plain_needs::is_done_at;
use crate::seat_needs::is_pending_free;
use crate::step::{Load, Step, Store};
use core_events::reads::{is_in, is_locked};
use core_events::searches::is_searched;
use index_words::{Field, Layout, View, Word};

fn names_pass(number: Option<u32>, word: u64) -> bool
    ensures { result ≡ pass_named number word }
{
    match number {
        None => false,
        Some(number) => word == u64::from(number) + 1,
    }
}

/// Whether the node is the root, or one that the seat's search knows.
fn may_lock(view: &View, node: u32) -> bool
    ensures { result ≡ lock_needs view.now node }
{
    node == 0 || is_searched(&view.reading, node)
}

pub(crate) fn try_lock(view: &View, word: Word, value: u64) -> Option<Step>
    ensures met { is_some result ≡ try_lock_needs view.now word value }
    ensures step { IfSome result (IsStep TryLock word value) }
{
    let Word::Node(Field::Lock, node) = word else {
        return None;
    };
    if !(view.section_word % 2 == 0)
        && may_lock(view, node)
        && !is_locked(view.held.nodes.as_slice(), node)
        && names_pass(view.number, value)
    {
        return Some(Step::TryLock { node, value });
    }
    None
}

pub(crate) fn unlock(
    layout: &Layout,
    words: &[u64],
    view: &View,
    word: Word,
    value: u64,
) -> Option<Step>
    ensures met { is_some result ≡ unlock_needs (memory layout.now words.now) view.now word value }
    ensures step { IfSome result (IsStep Unlock word value) }
{
    let Word::Node(Field::Lock, node) = word else {
        return None;
    };
    if is_locked(view.held.nodes.as_slice(), node)
        && is_pending_free(layout, words, view)
        && is_done_at(&view.update, node)
        && value == 0
    {
        return Some(Step::Store(Store::Unlock { node }));
    }
    None
}

pub(crate) fn load_mark(view: &View, word: Word, value: u64) -> Option<Step>
    ensures met { is_some result ≡ load_mark_needs view.now word value }
    ensures step { IfSome result (IsStep LoadMark word value) }
{
    let Word::Node(Field::Mark, node) = word else {
        return None;
    };
    if !(view.section_word % 2 == 0) && value == 0 {
        return Some(Step::Load(Load::Mark { node }));
    }
    None
}

pub(crate) fn mark(view: &View, word: Word, value: u64) -> Option<Step>
    ensures met { is_some result ≡ mark_needs view.now word value }
    ensures step { IfSome result (IsStep Mark word value) }
{
    let Word::Node(Field::Mark, node) = word else {
        return None;
    };
    if is_locked(view.held.nodes.as_slice(), node)
        && is_in(view.update.taken.as_slice(), node)
        && value == 1
    {
        return Some(Step::Store(Store::Mark { node }));
    }
    None
}

pub(crate) fn load_pair(view: &View, word: Word, value: u64) -> Option<Step>
    ensures met { is_some result ≡ load_pair_needs view.now word value }
    ensures step { IfSome result (IsStep LoadKeyOrVal word value) }
{
    let load = match word {
        Word::Node(Field::Key, node) => Load::Key { node },
        Word::Node(Field::Val, node) => Load::Val { node },
        _ => return None,
    };
    if !(view.section_word % 2 == 0) && value == 0 {
        return Some(Step::Load(load));
    }
    None
}
