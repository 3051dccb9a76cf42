// The view of a seat after a load of the stamp.
ghost use Rattle.std.specs.Prelude.{◌≡◌, cond, Some, None as Nothing, []};
ghost use Rattle.core_events.specs.Announcing.{has_announced};
ghost use Rattle.core_events.specs.LoadMoves.{stamp_reading, stamp_loaded};

use crate::loads::risen;
use crate::moves::go_nowhere;
use index_words::{Items, Reading, TreeNode, Update, View};

/// Sets what the seat reads after a load of the stamp that found this number, with these nodes of the tree at it.
fn read_at(reading: &mut Reading, stamp: u64, fixes: bool, nodes: Items<TreeNode>)
    ensures { reading.new ≡ record reading.old { section = Some stamp; opened = cond fixes (Some stamp) Nothing; tree = nodes; least = Some stamp; looked = [] } }
{
    reading.section = Some(stamp);
    reading.opened = if fixes { Some(stamp) } else { None };
    reading.tree = nodes;
    reading.least = Some(stamp);
    reading.looked.clear();
}

/// Stands nowhere, and reads at the number from then on if the seat has announced.
fn begin_reading(view: &mut View, stamp: u64, fixes: bool, nodes: Items<TreeNode>)
    ensures { view.new ≡ record view.old { reading = stamp_reading view.old.reading (has_announced view.old) stamp fixes nodes } }
{
    go_nowhere(&mut view.reading);
    if !(view.announced == 0) {
        read_at(&mut view.reading, stamp, fixes, nodes);
    }
}

/// The view after a load of the stamp. `known` is the whole history, and `nodes` are those of the tree, which the seat
/// reads from then on if it has announced.
pub fn load_stamp(
    view: &mut View,
    known: Items<Update>,
    stamp: u64,
    fixes: bool,
    nodes: Items<TreeNode>,
)
    ensures { view.new ≡ stamp_loaded known view.old stamp fixes nodes }
{
    view.history.seen = known;
    if fixes {
        view.history.found = stamp;
        view.history.looks = risen(view.history.looks);
    }
    begin_reading(view, stamp, fixes, nodes);
}
