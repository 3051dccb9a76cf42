//! The bundles that an update changed are cut after the entries that are still read.
//!
//! In a bundle no number that is read, now or later, selects an entry after the first one whose number is at most the
//! pass's least number. That is at first its own section number. Only if something hangs after that entry does the pass
//! look at what the others have announced, once for all bundles of the update.
ghost use Rattle.std.specs.Prelude.{◌≡◌, ◌<◌, ◌≤◌, ℕ, List, IfSome, None, Some, is_some, true};
ghost use Rattle.core_events.specs.Announcing.{smaller};
ghost use Rattle.key_map.specs.Lists.{count};
ghost use Rattle.plan_laws.specs.Prunes.{HasNumbered, KeepsPruned};
ghost use Rattle.table_steps.specs.Passes.{IsSamePass};
ghost use Rattle.update_try.specs.Pruning.{ArePrunedOrLeft, EndsAtLeast, GoesPast, HasGonePast, HasLookedAt, HasStopped, IsChanged, IsLeast, IsPruned, KeepsLeast, KeepsOthers, KeepsPlace, KeepsUpdate, KeepsWalks, StopsAt, walk_limit};

use crate::walking::walk_along;
use core_trees::Link;
use core_updates::{Plan, PlanSlots};
use table_steps::TablePass;

/// The most entries that a walk goes past before it leaves a bundle as it is, if the pass has enough free entries: a
/// pass that has read for long may still need them. Without this bound the n-th put of one key next to an open snapshot
/// makes n loads: 100,000 updates took 10.5 s instead of 0.17 s. What hangs after the entry that the snapshot reads was
/// cut by the first updates after it began.
const PASSED: u32 = 64;

/// With fewer free entries than these a pass walks along the whole bundle, so that snapshots that follow closely on
/// each other cannot keep a bundle from being cut.
const ENOUGH: usize = 16;

/// The least number: nobody reads what is after the first entry of a bundle whose number is not above it.
#[derive(Clone, Copy)]
pub(crate) struct Least {
    pub number: u64,
    /// Whether the pass has looked at the announcements of the others for it.
    pub looked: bool,
}

/// An entry at which a walk has stopped, with its number and its next.
#[derive(Clone, Copy)]
pub(crate) struct Stop {
    pub entry: u32,
    pub number: u64,
    pub next: u32,
}

/// The smaller of a number and the announced one; `word` is what the announcement holds.
pub fn lower(number: u64, word: u64) -> u64
    ensures smaller { result ≡ smaller number word }
    ensures low { result ≤ number }
{
    if 0 < word && word - 1 < number {
        word - 1
    } else {
        number
    }
}

/// Looks at what a pass has announced, if it is another one, and answers the least number then.
fn look_at_other(pass: &mut TablePass<'_>, other: u32, number: u64) -> u64
    requires reads { is_some pass.old.view.reading.section ≡ true }
    requires least { pass.old.view.reading.least ≡ Some number }
    requires there { other < pass.old.view.layout.passes }
    ensures same { IsSamePass pass.old pass.new }
    ensures looks { HasLookedAt pass.old.view other number result pass.new.view }
    ensures update { KeepsUpdate pass.old.view pass.new.view }
{
    if pass.is_own(other) {
        return number;
    }
    let word = pass.look_ann(other);
    lower(number, word)
}

/// Looks at what each other pass has announced, and answers the least number then.
fn look_at_others(pass: &mut TablePass<'_>, own: u64) -> Least
    requires reads { is_some pass.old.view.reading.section ≡ true }
    requires least { pass.old.view.reading.least ≡ Some own }
    ensures same { IsSamePass pass.old pass.new }
    ensures least { IsLeast pass.new.view result }
    ensures looked { result.looked ≡ true }
    ensures lower { result.number ≤ own }
    ensures place { KeepsPlace pass.old.view pass.new.view }
    ensures update { KeepsUpdate pass.old.view pass.new.view }
{
    let mut number = own;
    let passes = pass.passes();
    'others: for other in 0..passes {
        number = look_at_other(pass, other, number);
    }
    Least {
        number,
        looked: true,
    }
}

/// Loads the number and the next of the entry at which the pass stands in a bundle of a locked node. The entry has a
/// number: one without a number is pending, and the pass that has put it there holds the lock of the node.
fn load_entry(pass: &mut TablePass<'_>, at: Link, entry: u32) -> Stop
    requires past { (least : ℕ) × GoesPast pass.old.view at least entry }
    requires some { 0 < entry }
    ensures same { IsSamePass pass.old pass.new }
    ensures stops { (least head : ℕ) (front : List ℕ) → HasGonePast pass.old.view at least head front entry → HasStopped pass.new.view at least head front result }
    ensures walks { KeepsWalks pass.old.view pass.new.view }
    ensures update { KeepsUpdate pass.old.view pass.new.view }
    ensures least { KeepsLeast pass.old.view pass.new.view }
{
    pass.facts();
    let number = pass.load_ts(entry);
    let next = pass.load_next(entry);
    Stop {
        entry,
        number,
        next,
    }
}

/// The most entries that a walk goes past.
pub(crate) fn longest_walk(pass: &TablePass<'_>) -> u32
    ensures { result ≡ walk_limit pass.now.view }
{
    if pass.free_entries() < ENOUGH {
        u32::MAX
    } else {
        PASSED
    }
}

/// Goes on along a bundle to the first entry whose number is not above the least one. `None` if nothing hangs after it,
/// or if there is none among the next ones.
fn go_past(pass: &mut TablePass<'_>, at: Link, least: u64, first: u32, longest: u32) -> Option<Stop>
    requires past { GoesPast pass.old.view at least first }
    ensures same { IsSamePass pass.old pass.new }
    ensures stops { IfSome result (λ stop. StopsAt pass.new.view at least stop) }
    ensures low { IfSome result (λ stop. stop.number ≤ least) }
    ensures pruned { result ≡ None → IsPruned pass.new.view at least longest }
    ensures walks { KeepsWalks pass.old.view pass.new.view }
    ensures update { KeepsUpdate pass.old.view pass.new.view }
    ensures least { KeepsLeast pass.old.view pass.new.view }
{
    let mut entry = first;
    'along: for passed in 0..longest {
        if entry == 0 {
            return None;
        }
        let here = load_entry(pass, at, entry);
        if here.next == 0 {
            return None;
        }
        if here.number <= least {
            return Some(here);
        }
        entry = here.next;
    }
    None
}

/// Cuts a bundle after the entry at which a walk has stopped.
fn cut_behind(pass: &mut TablePass<'_>, at: Link, least: Least, stop: Stop)
    requires stays { count at.node pass.old.view.update.taken ≡ 0 }
    requires least { IsLeast pass.old.view least }
    requires looked { least.looked ≡ true }
    requires stops { StopsAt pass.old.view at least.number stop }
    requires low { stop.number ≤ least.number }
    ensures same { IsSamePass pass.old pass.new }
    ensures ends { EndsAtLeast pass.new.view at least.number }
    ensures others { KeepsOthers pass.old.view at pass.new.view }
    ensures update { KeepsUpdate pass.old.view pass.new.view }
    ensures least { KeepsLeast pass.old.view pass.new.view }
{
    walk_along(pass, at, stop.next);
    pass.cut(stop.entry);
}

/// The least number for which the pass has looked at all others. It looks at them only once.
fn least_of_all(pass: &mut TablePass<'_>, own: Least) -> Least
    requires least { IsLeast pass.old.view own }
    ensures same { IsSamePass pass.old pass.new }
    ensures least { IsLeast pass.new.view result }
    ensures looked { result.looked ≡ true }
    ensures lower { result.number ≤ own.number }
    ensures place { KeepsPlace pass.old.view pass.new.view }
    ensures update { KeepsUpdate pass.old.view pass.new.view }
{
    if own.looked {
        return own;
    }
    look_at_others(pass, own.number)
}

/// Cuts a bundle after the entry at which a walk has stopped, if its number is not above the least one, and else after
/// a later one.
fn cut_from(pass: &mut TablePass<'_>, at: Link, least: Least, stop: Stop, longest: u32)
    requires stays { count at.node pass.old.view.update.taken ≡ 0 }
    requires least { IsLeast pass.old.view least }
    requires looked { least.looked ≡ true }
    requires stops { StopsAt pass.old.view at least.number stop }
    ensures same { IsSamePass pass.old pass.new }
    ensures pruned { IsPruned pass.new.view at least.number longest }
    ensures others { KeepsOthers pass.old.view at pass.new.view }
    ensures update { KeepsUpdate pass.old.view pass.new.view }
    ensures least { KeepsLeast pass.old.view pass.new.view }
{
    if stop.number <= least.number {
        cut_behind(pass, at, least, stop);
        return;
    }
    let Some(later) = go_past(pass, at, least.number, stop.next, longest) else {
        return;
    };
    cut_behind(pass, at, least, later);
}

/// Cuts the bundle of a link that the update changed, if something hangs after what is read. Answers the least number,
/// for which the pass may have looked at the others here.
pub(crate) fn prune_link(pass: &mut TablePass<'_>, at: Link, own: Least, longest: u32) -> Least
    requires changed { IsChanged pass.old.view at }
    requires least { IsLeast pass.old.view own }
    ensures same { IsSamePass pass.old pass.new }
    ensures least { IsLeast pass.new.view result }
    ensures lower { result.number ≤ own.number }
    ensures pruned { IsPruned pass.new.view at result.number longest }
    ensures others { KeepsOthers pass.old.view at pass.new.view }
    ensures update { KeepsUpdate pass.old.view pass.new.view }
{
    let head = pass.load_head(at.node, at.side);
    let Some(stop) = go_past(pass, at, own.number, head, longest) else {
        return own;
    };
    let least = least_of_all(pass, own);
    cut_from(pass, at, least, stop, longest);
    least
}

/// Cuts the bundles in front of which an update has put its entries. `number` is the one at which the pass reads. A
/// pass that owns more than its share leaves them to passes that own too few, which gather them. Else a pass that takes
/// out what another one puts would come to own all entries, since the entries of a node go to whoever takes it out.
pub fn prune_all(pass: &mut TablePass<'_>, plan: &Plan, slots: &PlanSlots, number: u64)
    requires numbered { HasNumbered pass.old.view pass.old.number plan.now slots.now }
    requires least { pass.old.view.reading.least ≡ Some number }
    ensures same { IsSamePass pass.old pass.new }
    ensures numbered { HasNumbered pass.new.view pass.new.number plan.now slots.now }
    ensures pruned { ArePrunedOrLeft pass.new.view plan.now (walk_limit pass.new.view) }
    ensures keeps { KeepsPruned pass.old.view pass.new.view }
{
    if pass.has_surplus() {
        return;
    }
    let longest = longest_walk(pass);
    let own = Least {
        number,
        looked: false,
    };
    let least = prune_link(pass, plan.at(), own, longest);
    if let Some(next) = plan.next_at() {
        prune_link(pass, next, least, longest);
    }
}
