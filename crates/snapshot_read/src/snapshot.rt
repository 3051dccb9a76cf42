//! Snapshots: how one is opened, read and closed.
ghost use Rattle.std.specs.Prelude.{◌≡◌, ℕ, Some};
ghost use Rattle.key_map.specs.History.{after};
ghost use Rattle.key_map.specs.Map.{first_from};
ghost use Rattle.table_steps.specs.Passes.{AtRest, IsAlone, IsSamePass};
ghost use Rattle.table_steps.specs.Stamps.{outside_again, HasOpened, IsFoundAt};
ghost use Rattle.bundle_reads.specs.Reads.{HasRead};
ghost use Rattle.snapshot_read.specs.Snapshots.{ReadsAt, IsReading, HasBegun};
ghost use Rattle.snapshot_read.specs.Looks.{IsAnswer, IsKnown, waits_after};
ghost use Rattle.snapshot_read.specs.Ways.{IsKeptWay};

use crate::kept_way::Way;
use crate::looks::Look;
use crate::search::{look_from, look_on};
use index_words::Pair;
use std::sync::Wait;
use std::thread::yield_now;
use table_steps::TablePass;

/// Opens a snapshot, and answers its number: how many updates a load of the stamp in this call found.
pub fn begin(pass: &mut TablePass<'_>) -> u64
    requires rest { AtRest pass.old.view }
    ensures same { IsSamePass pass.old pass.new }
    ensures event { IsFoundAt pass.old 1 result pass.new.view }
    ensures opened { HasOpened pass.old 1 result pass.new.view }
    ensures begun { HasBegun pass.old.view pass.new.view result }
    ensures reads { ReadsAt pass.new.view result }
{
    pass.open_snapshot()
}

/// Closes the snapshot.
pub fn end(pass: &mut TablePass<'_>)
    requires reads { IsReading pass.old.view }
    ensures same { IsSamePass pass.old pass.new }
    ensures view { pass.new.view ≡ outside_again pass.old.view }
    ensures rest { AtRest pass.new.view }
{
    pass.close_section();
}

/// One look for the first pair of the open snapshot whose key is at least `key`. It does not wait: where an entry has
/// no stamp yet it answers `Pending`, and the count of such entries rises; a pass that is alone on its table meets
/// none. The search goes on from the way that an earlier search of this snapshot has kept, and keeps its own.
pub fn try_next_on(pass: &mut TablePass<'_>, way: &mut Way, key: u64) -> Look
    requires reads { IsReading pass.old.view }
    requires kept { IsKeptWay pass.old.view way.old }
    ensures same { IsSamePass pass.old pass.new }
    ensures first { (at : ℕ) → pass.old.view.reading.opened ≡ Some at → IsAnswer result (first_from key (after pass.old.view.history.seen at)) }
    ensures read { HasRead pass.old.view pass.new.view }
    ensures waits { pass.new.view.counts.waits ≡ waits_after result pass.old.view.counts.waits }
    ensures alone { IsAlone pass.old.view → IsKnown result }
    ensures reads { IsReading pass.new.view }
    ensures kept { IsKeptWay pass.new.view way.new }
{
    let Some(at) = pass.opened() else {
        unreachable!()
    };
    look_on(pass, at, key, way)
}

/// As `try_next_on`, but from the root of the tree.
pub fn try_next_from(pass: &mut TablePass<'_>, key: u64) -> Look
    requires reads { IsReading pass.old.view }
    ensures same { IsSamePass pass.old pass.new }
    ensures first { (at : ℕ) → pass.old.view.reading.opened ≡ Some at → IsAnswer result (first_from key (after pass.old.view.history.seen at)) }
    ensures read { HasRead pass.old.view pass.new.view }
    ensures waits { pass.new.view.counts.waits ≡ waits_after result pass.old.view.counts.waits }
    ensures alone { IsAlone pass.old.view → IsKnown result }
    ensures reads { IsReading pass.new.view }
{
    let Some(at) = pass.opened() else {
        unreachable!()
    };
    look_from(pass, at, key)
}

/// The first pair of the open snapshot whose key is at least `key`. Where an entry has no stamp yet it tries again,
/// until the pass that has it pending has written it. Between the tries it lets other threads run. The search goes on
/// from the way that an earlier search of this snapshot has kept, and keeps its own.
pub fn next_on<R: Wait>(pass: &mut TablePass<'_>, rt: &R, way: &mut Way, key: u64) -> Option<Pair>
    requires reads { IsReading pass.old.view }
    requires kept { IsKeptWay pass.old.view way.old }
    ensures same { IsSamePass pass.old pass.new }
    ensures first { (at : ℕ) → pass.old.view.reading.opened ≡ Some at → result ≡ first_from key (after pass.old.view.history.seen at) }
    ensures read { HasRead pass.old.view pass.new.view }
    ensures reads { IsReading pass.new.view }
    ensures kept { IsKeptWay pass.new.view way.new }
{
    'tries: for _ in rt.forever() {
        if let Some(first) = try_next_on(pass, way, key).known() {
            return first;
        }
        yield_now();
    }
    unreachable!()
}

/// As `next_on`, but from the root of the tree, and no search is kept: for a caller that looks for one pair.
pub fn next_from<R: Wait>(pass: &mut TablePass<'_>, rt: &R, key: u64) -> Option<Pair>
    requires reads { IsReading pass.old.view }
    ensures same { IsSamePass pass.old pass.new }
    ensures first { (at : ℕ) → pass.old.view.reading.opened ≡ Some at → result ≡ first_from key (after pass.old.view.history.seen at) }
    ensures read { HasRead pass.old.view pass.new.view }
    ensures reads { IsReading pass.new.view }
{
    'tries: for _ in rt.forever() {
        if let Some(first) = try_next_from(pass, key).known() {
            return first;
        }
        yield_now();
    }
    unreachable!()
}
