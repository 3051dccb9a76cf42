// The views of a table after the kinds that read all views: a load of the stamp and a raise.
ghost use Rattle.std.specs.Prelude.{◌≡◌, ◌+◌, ◌<◌, ◌^◌, OnOk, OnErr, IfOk, Some, true, length, slice_set};
ghost use Rattle.std.specs.List.{slice_get};
ghost use Rattle.index_words.specs.declared.view.View.{View as SeatView};
ghost use Rattle.core_events.specs.LoadMoves.{longest, stamp_loaded};
ghost use Rattle.index_words.specs.Words.{memory};
ghost use Rattle.index_words.specs.declared.word.Word.TheVariants.{Stamp};
ghost use Rattle.core_events.specs.Versions.{tree_nodes};
ghost use Rattle.core_events.specs.SpelledNow.{tree_now};
ghost use Rattle.core_events.specs.UpdateMoves.{raised_view};
ghost use Rattle.core_events.specs.Seats.{HasCalls};
ghost use Rattle.core_events.specs.TreeMoves.{tree_move as move_of, is_tree_step};

use core_events::reads::held;
use index_words::{Items, Layout, NoMemory, Update, View, Word};
use machine_spelled::spelled_now::nodes_now;
use machine_spelled::tree_moves::tree_move;
use machine_views::stamp_loads::load_stamp;
use machine_views::updates::raise;
use std::alloc::Global;

fn longest_history(alloc: Global, views: &[View]) -> Result<Items<Update>, NoMemory>
    ensures { IfOk result (λ known. known ≡ longest views.now) }
{
    let mut best: &[Update] = &[];
    for view in views {
        if best.len() < view.history.seen.len() {
            best = view.history.seen.as_slice();
        }
    }
    let mut known = Items::new(alloc);
    known.append(best)?;
    Ok(known)
}

/// The views after a load of the stamp by this seat. After a refusal they are unchanged.
pub(crate) fn load_stamp_seat(
    alloc: Global,
    layout: &Layout,
    words: &[u64],
    views: &mut Vec<View>,
    seat: usize,
    fixes: bool,
) -> Result<(), NoMemory>
    requires { seat < length views.old.items }
    ensures ok { OnOk result ((v : SeatView) → slice_get views.old.items seat ≡ Some v → views.new.items ≡ slice_set views.old.items seat (stamp_loaded (longest views.old.items) v (memory layout.now words.now Stamp) fixes (tree_nodes (tree_now layout.now (memory layout.now words.now) views.old.items)))) }
    ensures err { OnErr result (views.new.items ≡ views.old.items) }
{
    let stamp = held(layout, words, Word::Stamp);
    let nodes = nodes_now(alloc, layout, words, views.as_slice())?;
    let known = longest_history(alloc, views.as_slice())?;
    let view = &mut views[seat];
    load_stamp(view, known, stamp, fixes, nodes);
    Ok(())
}

/// The views after a raise of this update by this seat, whose tree step the words spell. After a refusal they are
/// unchanged.
pub(crate) fn raise_seat(
    alloc: Global,
    layout: &Layout,
    words: &[u64],
    views: &mut Vec<View>,
    seat: usize,
    update: Update,
) -> Result<(), NoMemory>
    requires calls { HasCalls views.old.items seat }
    requires step { (v : SeatView) → slice_get views.old.items seat ≡ Some v → is_tree_step layout.now (memory layout.now words.now) views.old.items v update ≡ true }
    requires small { memory layout.now words.now Stamp + 1 < 2 ^ 64 }
    ensures ok { OnOk result ((v : SeatView) → slice_get views.old.items seat ≡ Some v → views.new.items ≡ slice_set views.old.items seat (raised_view (longest views.old.items) v (memory layout.now words.now Stamp) update (move_of layout.now (memory layout.now words.now) views.old.items v update))) }
    ensures err { OnErr result (views.new.items ≡ views.old.items) }
{
    let moved = tree_move(alloc, layout, words, views.as_slice(), &views[seat], update)?;
    let stamp = held(layout, words, Word::Stamp);
    let known = longest_history(alloc, views.as_slice())?;
    let view = &mut views[seat];
    raise(alloc, view, known, stamp, update, moved)
}
