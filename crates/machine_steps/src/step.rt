// The views of a table after a step, and the word that it stores.
ghost use Rattle.std.specs.Prelude.{◌≡◌, ◌+◌, ◌<◌, ◌^◌, OnOk, OnErr, slice_index, vec_len};
ghost use Rattle.index_words.specs.Words.{memory};
ghost use Rattle.index_words.specs.declared.word.Word.TheVariants.{Stamp};
ghost use Rattle.core_events.specs.declared.event.Kind.TheVariants.{Raise};
ghost use Rattle.core_events.specs.Steps.{words_after};
ghost use Rattle.machine_needs.specs.StepParts.{parts_of};
ghost use Rattle.machine_steps.specs.Changes.{IsMet, IsStepped};

use crate::own_views::{after_load, after_store};
use crate::seats::{join_seats, split_seat};
use crate::stamp_seats::{load_stamp_seat, raise_seat};
use core_events::reads::held;
use index_words::{Field, Layout, NoMemory, View, Word};
use machine_needs::step::Step;
use machine_spelled::bundles_now::entries_behind;
use machine_views::cuts::cut;
use machine_views::locks::try_lock;
use std::alloc::Global;

/// Puts the value of a step that stores, at a try of a lock only where the word is 0, and adds one at a raise. The
/// other steps store nothing.
pub fn store(words: &mut Vec<u64>, at: u64, step: Step)
    requires there { at < vec_len words.old }
    requires small { (parts_of step).kind ≡ Raise → slice_index words.old.items at + 1 < 2 ^ 64 }
    ensures { words.new.items ≡ words_after (parts_of step).kind words.old.items at (parts_of step).value }
{
    match step {
        Step::Store(store) => words[at as usize] = store.value(),
        Step::TryLock { value, .. } => {
            if words[at as usize] == 0 {
                words[at as usize] = value;
            }
        }
        Step::Raise { .. } => words[at as usize] += 1,
        Step::Cut { .. } => words[at as usize] = 0,
        Step::Split { .. } | Step::Join { .. } | Step::LoadStamp { .. } | Step::Load(_) => {}
    }
}

/// The views after an allowed step of this seat. After a refusal they are unchanged.
pub fn change(
    alloc: Global,
    layout: &Layout,
    words: &[u64],
    views: &mut Vec<View>,
    seat: u32,
    step: Step,
) -> Result<(), NoMemory>
    requires met { IsMet layout.now words.now views.old.items seat step }
    requires small { (parts_of step).kind ≡ Raise → memory layout.now words.now Stamp + 1 < 2 ^ 64 }
    ensures ok { OnOk result (IsStepped layout.now words.now views.old.items seat step views.new.items) }
    ensures err { OnErr result (views.new.items ≡ views.old.items) }
{
    let at = seat as usize;
    match step {
        Step::Split { nodes } => split_seat(alloc, views, at, nodes),
        Step::Join { other } => join_seats(alloc, views, at, other as usize),
        Step::LoadStamp { fixes } => load_stamp_seat(alloc, layout, words, views, at, fixes),
        Step::Raise { update } => raise_seat(alloc, layout, words, views, at, update),
        Step::TryLock { node, value } => {
            let found = held(layout, words, Word::Node(Field::Lock, node));
            let view = &mut views[at];
            try_lock(view, node, value, found)
        }
        Step::Cut { entry } => {
            let back = entries_behind(alloc, layout, words, entry)?;
            let view = &mut views[at];
            cut(alloc, view, entry, back.as_slice())
        }
        Step::Load(load) => {
            let view = &mut views[at];
            after_load(alloc, layout, words, view, load)
        }
        Step::Store(store) => {
            let view = &mut views[at];
            after_store(alloc, layout.passes, view, store)
        }
    }
}
