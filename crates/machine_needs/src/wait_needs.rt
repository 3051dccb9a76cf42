// What the needs of events ask of a removal that waits before it unlinks a successor.
ghost use Rattle.std.specs.Prelude.{◌≡◌, Some};
ghost use Rattle.std.specs.List.{list_all};
ghost use Rattle.core_events.specs.Needs.{is_successor as successor_of};
ghost use Rattle.core_events.specs.Waits.{keeps_lock as lock_kept, is_waiting as waits, is_waiting_for as waits_for, has_to_look as looks_needed};

use crate::plain_needs::sets_others;
use core_events::reads::is_in;
use index_words::{HeldNode, Unlinking, Updating, View};

/// Whether the node is a successor that is still to be unlinked.
pub(crate) fn is_successor(unlinking: Option<Unlinking>, node: u32) -> bool
    ensures { result ≡ successor_of node unlinking }
{
    match unlinking {
        None => false,
        Some(unlinking) => unlinking.successor == node,
    }
}

/// Whether the lock is kept over the wait: the successor's, or its parent's.
fn keeps_lock(taken: &[u32], unlinking: Unlinking, held: HeldNode) -> bool
    ensures { result ≡ lock_kept taken.now unlinking held }
{
    (held.node == unlinking.successor && is_in(taken, held.node))
        || (held.node == unlinking.parent && held.mark == Some(0))
}

/// Whether each of these locks is one that is kept.
fn keep_locks(taken: &[u32], unlinking: Unlinking, nodes: &[HeldNode]) -> bool
    ensures { result ≡ list_all (lock_kept taken.now unlinking) nodes.now }
{
    nodes.iter().all(|node| keeps_lock(taken, unlinking, *node))
}

fn is_waiting_for(update: &Updating, nodes: &[HeldNode], unlinking: Unlinking) -> bool
    ensures { result ≡ waits_for update.now nodes.now (Some unlinking) }
{
    update.raised.is_some()
        && !sets_others(update.unset.as_slice(), unlinking.parent, unlinking.side)
        && keep_locks(update.taken.as_slice(), unlinking, nodes)
}

/// Whether the view's update waits to unlink a successor.
pub(crate) fn is_waiting(view: &View) -> bool
    ensures { result ≡ waits view.now }
{
    match view.update.unlinking {
        None => false,
        Some(unlinking) => is_waiting_for(&view.update, view.held.nodes.as_slice(), unlinking),
    }
}

/// Whether the view has something to look for: slots that wait or, if it holds locks, the wait of its removal.
pub(crate) fn has_to_look(view: &View) -> bool
    ensures { result ≡ looks_needed view.now }
{
    if view.held.nodes.is_empty() {
        return !(view.batch.is_empty() && view.retired.is_empty());
    }
    is_waiting(view)
}
