// The views of a table after a split and a join of seats.
ghost use Rattle.std.specs.Prelude.{◌≡◌, ◌≢◌, ◌<◌, ◌≤◌, ◌++◌, ◌∷◌, [], OnOk, OnErr, Some, length, slice_set};
ghost use Rattle.std.specs.List.{slice_get};
ghost use Rattle.index_words.specs.Views.{spent_view};
ghost use Rattle.index_words.specs.declared.view.View.{View as SeatView};
ghost use Rattle.core_events.specs.Seats.{HasFree};
ghost use Rattle.core_events.specs.Moves.{split_left, split_right, joined_with};

use index_words::{NoMemory, View};
use machine_views::moves::{gain, keep_rest, split_off, take_gain};
use std::alloc::Global;

pub(crate) fn split_seat(
    alloc: Global,
    views: &mut Vec<View>,
    seat: usize,
    nodes: u64,
) -> Result<(), NoMemory>
    requires few { nodes ≤ 1 }
    requires there { HasFree views.old.items seat nodes }
    ensures ok { OnOk result ((v : SeatView) → slice_get views.old.items seat ≡ Some v → views.new.items ≡ slice_set views.old.items seat (split_left v nodes) ++ split_right v nodes ∷ []) }
    ensures err { OnErr result (views.new.items ≡ views.old.items) }
{
    let part = split_off(alloc, &views[seat], nodes)?;
    views.push(part)?;
    let view = &mut views[seat];
    keep_rest(view, nodes);
    Ok(())
}

pub(crate) fn join_seats(
    alloc: Global,
    views: &mut Vec<View>,
    seat: usize,
    other: usize,
) -> Result<(), NoMemory>
    requires seat { seat < length views.old.items }
    requires other { other < length views.old.items }
    requires apart { other ≢ seat }
    ensures ok { OnOk result ((v u : SeatView) → slice_get views.old.items seat ≡ Some v → slice_get views.old.items other ≡ Some u → views.new.items ≡ slice_set (slice_set views.old.items seat (joined_with v u)) other spent_view) }
    ensures err { OnErr result (views.new.items ≡ views.old.items) }
{
    let gains = gain(alloc, &views[seat], &views[other])?;
    let view = &mut views[seat];
    take_gain(view, gains);
    let joined = std::mem::replace(&mut views[other], View::spent(alloc));
    drop(joined);
    Ok(())
}
