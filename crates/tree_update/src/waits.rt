//! What a call waits for, outside of a section: free slots before an update, and, if it cuts without one, that others
//! no longer read what it could cut.
ghost use Rattle.std.specs.Prelude.{◌≡◌, ◌<◌, ◌≤◌, is_some, true};
ghost use Rattle.table_steps.specs.Passes.{AtRest, Inside, IsSamePass};
ghost use Rattle.tree_update.specs.Calls.{StaysOn};
ghost use Rattle.tree_update.specs.Trying.{OffersSlots};

use crate::settle::try_settle;
use core_updates::PlanSlots;
use std::hint::spin_loop;
use std::sync::Wait;
use std::thread::yield_now;
use table_steps::TablePass;
use update_search::begin_search;
use update_try::{lower, plan_slots};

/// How many pauses of the processor come before the yield.
const PAUSES: u32 = 32;

/// How often, at most, a pass looks at the others again before it tries once more.
const LOOKS: u32 = 256;

/// What a wait does between two tries: a short spin, since a pass that runs on another processor may be done soon, and
/// then a yield, which lets other threads run.
pub(crate) fn pause() {
    for _ in 0..PAUSES {
        spin_loop();
    }
    yield_now();
}

/// What looks at all other passes have shown: the number at which the pass itself read, and the least one that it or
/// another pass had announced.
#[derive(Clone, Copy)]
pub(crate) struct Sight {
    pub own: u64,
    pub least: u64,
}

/// Looks at what a pass has announced, if it is another one, and answers the smaller of that and `least`.
fn look_at_announced(pass: &mut TablePass<'_>, other: u32, least: u64) -> u64
    requires inside { Inside pass.old.view }
    requires reads { is_some pass.old.view.reading.section ≡ true }
    requires there { other < pass.old.view.layout.passes }
    ensures same { IsSamePass pass.old pass.new }
    ensures inside { Inside pass.new.view }
    ensures reads { is_some pass.new.view.reading.section ≡ true }
    ensures stays { StaysOn pass.old.view pass.new.view }
    ensures waits { pass.new.view.counts.waits ≡ pass.old.view.counts.waits }
    ensures lower { result ≤ least }
{
    if pass.is_own(other) {
        return least;
    }
    let word = pass.look_ann(other);
    lower(least, word)
}

/// Looks at what all other passes have announced, in a section of its own.
fn look_around(pass: &mut TablePass<'_>) -> Sight
    requires rest { AtRest pass.old.view }
    ensures same { IsSamePass pass.old pass.new }
    ensures rest { AtRest pass.new.view }
    ensures stays { StaysOn pass.old.view pass.new.view }
    ensures waits { pass.new.view.counts.waits ≡ pass.old.view.counts.waits }
    ensures lower { result.least ≤ result.own }
{
    let own = begin_search(pass);
    let mut least = own;
    let passes = pass.passes();
    'others: for other in 0..passes {
        least = look_at_announced(pass, other, least);
    }
    pass.close_section();
    Sight { own, least }
}

/// Waits until more may be cut: until the least number that is read has risen, which is that of all updates so far if
/// nobody reads at an older one. If keys are left and nobody reads at an older one, the pass may go on at once. The
/// wait is bounded, and there is none for the number `vain`. Answers the number if it has not risen.
pub(crate) fn wait_for_more(
    pass: &mut TablePass<'_>,
    keys_left: bool,
    vain: Option<u64>,
) -> Option<u64>
    requires rest { AtRest pass.old.view }
    ensures same { IsSamePass pass.old pass.new }
    ensures rest { AtRest pass.new.view }
    ensures stays { StaysOn pass.old.view pass.new.view }
    ensures waits { pass.new.view.counts.waits ≡ pass.old.view.counts.waits }
{
    let first = look_around(pass);
    if keys_left && first.least >= first.own {
        return None;
    }
    if vain == Some(first.least) {
        return vain;
    }
    let mut least = first.least;
    'looks: for _ in 0..LOOKS {
        if least > first.least {
            return None;
        }
        pause();
        let next = look_around(pass);
        least = next.least;
    }
    Some(first.least)
}

/// Waits until the pass has the free slots that an update may take. It owns them, so they become free once the passes
/// that were in a section have left it.
pub(crate) fn wait_for_slots<R: Wait>(pass: &mut TablePass<'_>, rt: &R) -> PlanSlots
    requires rest { AtRest pass.old.view }
    ensures slots { OffersSlots pass.new.view result }
    ensures same { IsSamePass pass.old pass.new }
    ensures rest { AtRest pass.new.view }
    ensures stays { StaysOn pass.old.view pass.new.view }
    ensures waits { pass.new.view.counts.waits ≡ pass.old.view.counts.waits }
{
    'tries: for _ in rt.forever() {
        if let Some(slots) = plan_slots(pass) {
            return slots;
        }
        try_settle(pass);
        pause();
    }
    unreachable!()
}
