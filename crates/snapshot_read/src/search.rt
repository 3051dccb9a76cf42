//! The search for the first pair from a key on, down the open snapshot's tree.
ghost use Rattle.std.specs.Prelude.{◌≡◌, ℕ, ◌<◌, Some};
ghost use Rattle.key_map.specs.History.{after};
ghost use Rattle.key_map.specs.Lists.{Every};
ghost use Rattle.key_map.specs.declared.pair.Pair.{Pair};
ghost use Rattle.key_map.specs.Map.{first_from};
ghost use Rattle.index_words.specs.declared.side.Side.TheVariants.{Left};
ghost use Rattle.table_steps.specs.Passes.{IsSamePass, IsAlone};
ghost use Rattle.bundle_reads.specs.Links.{LeadsThere};
ghost use Rattle.bundle_reads.specs.Reads.{HasRead};
ghost use Rattle.snapshot_read.specs.Snapshots.{ReadsAt};
ghost use Rattle.snapshot_read.specs.Looks.{IsAnswer, IfUnknown, waits_after};
ghost use Rattle.snapshot_read.specs.Ways.{Covers, IsOnWay, IsKeptWay, keys_left, right_of};

use crate::kept_way::{Search, Way};
use crate::looks::Look;
use bundle_reads::child_at;
use core_trees::Link;
use index_words::{Pair, Side};
use table_steps::TablePass;

/// One level down, at a node of the snapshot's tree: to the left with the node's pair as the best one so far, or to the
/// right if the node's key is too small. Where it goes to the left, a search to the right of the node would also be on
/// the way, for keys above the node's.
#[inline(always)]
fn go_down(pass: &mut TablePass<'_>, at: u64, key: u64, child: u32, search: Search) -> Search
    requires reads { ReadsAt pass.old.view at }
    requires some { 0 < child }
    requires leads { LeadsThere pass.old.view search.at child }
    requires way { IsOnWay pass.old.view at search }
    requires covers { Covers key search }
    ensures same { IsSamePass pass.old pass.new }
    ensures read { HasRead pass.old.view pass.new.view }
    ensures waits { pass.new.view.counts.waits ≡ pass.old.view.counts.waits }
    ensures way { IsOnWay pass.old.view at result }
    ensures covers { Covers key result }
    ensures closer { keys_left result < keys_left search }
    ensures turned { (here : Pair) → result.at.side ≡ Left → result.best ≡ Some here → IsOnWay pass.old.view at (right_of child here.key search.best) }
{
    pass.facts();
    let here = pass.load_key(child);
    if here < key {
        return Search::right_of(child, here, search.best);
    }
    let val = pass.load_val(child);
    Search {
        at: Link {
            node: child,
            side: Side::Left,
        },
        low: search.low,
        best: Some(Pair { key: here, val }),
    }
}

/// One level down. Where it goes to the left, the search to the right of the node is kept.
fn go_on(
    pass: &mut TablePass<'_>,
    at: u64,
    key: u64,
    child: u32,
    search: Search,
    way: &mut Way,
) -> Search
    requires reads { ReadsAt pass.old.view at }
    requires some { 0 < child }
    requires leads { LeadsThere pass.old.view search.at child }
    requires way { IsOnWay pass.old.view at search }
    requires covers { Covers key search }
    ensures same { IsSamePass pass.old pass.new }
    ensures read { HasRead pass.old.view pass.new.view }
    ensures waits { pass.new.view.counts.waits ≡ pass.old.view.counts.waits }
    ensures way { IsOnWay pass.old.view at result }
    ensures covers { Covers key result }
    ensures closer { keys_left result < keys_left search }
    ensures kept { Every (IsOnWay pass.old.view at) way.old → Every (IsOnWay pass.old.view at) way.new }
{
    let below = go_down(pass, at, key, child, search);
    if let (Side::Left, Some(here)) = (below.at.side, below.best) {
        way.keep_right(pass, key, child, here.key, search.best);
    }
    below
}

/// The first pair from the key on, in the snapshot that is open at `at`. The search goes on from one that is kept, if
/// one covers the key.
pub(crate) fn look_on(pass: &mut TablePass<'_>, at: u64, key: u64, way: &mut Way) -> Look
    requires reads { ReadsAt pass.old.view at }
    requires kept { Every (IsOnWay pass.old.view at) way.old }
    ensures same { IsSamePass pass.old pass.new }
    ensures first { IsAnswer result (first_from key (after pass.old.view.history.seen at)) }
    ensures read { HasRead pass.old.view pass.new.view }
    ensures waits { pass.new.view.counts.waits ≡ waits_after result pass.old.view.counts.waits }
    ensures alone { IfUnknown result (¬ IsAlone pass.new.view) }
    ensures kept { IsKeptWay pass.new.view way.new }
{
    pass.facts();
    let mut search = way.take(key);
    let from_root = search.is_at_root();
    'down: loop {
        if from_root {
            // The child that the bundle gives is mostly this one. The wait for its key and the wait for the bundle's
            // entry, which gives the child, are then one. A search that goes on from a kept one has few levels, and
            // most of them are in the cache.
            pass.fetch_child(search.at.node, search.at.side);
        }
        let Some(child) = child_at(pass, at, search.at) else {
            return Look::Pending;
        };
        if child == 0 {
            return Look::of_best(search.best);
        }
        search = go_on(pass, at, key, child, search, way);
    }
}

/// The first pair from the key on, in the snapshot that is open at `at`. The search begins at the root, and none is
/// kept. It ends early at the node of the key.
pub(crate) fn look_from(pass: &mut TablePass<'_>, at: u64, key: u64) -> Look
    requires reads { ReadsAt pass.old.view at }
    ensures same { IsSamePass pass.old pass.new }
    ensures first { IsAnswer result (first_from key (after pass.old.view.history.seen at)) }
    ensures read { HasRead pass.old.view pass.new.view }
    ensures waits { pass.new.view.counts.waits ≡ waits_after result pass.old.view.counts.waits }
    ensures alone { IfUnknown result (¬ IsAlone pass.new.view) }
{
    pass.facts();
    let mut search = Search::root();
    'down: loop {
        // The wait for the key and the wait for the bundle's entry are one, as in `look_on` from the root.
        pass.fetch_child(search.at.node, search.at.side);
        let Some(child) = child_at(pass, at, search.at) else {
            return Look::Pending;
        };
        if child == 0 {
            return Look::of_best(search.best);
        }
        search = go_down(pass, at, key, child, search);
        if let Some(here) = search.best
            && here.key == key
        {
            return Look::Found(here);
        }
    }
}
