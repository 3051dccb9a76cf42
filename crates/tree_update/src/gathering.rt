//! How a pass that owns too few entries for an update gets some.
//!
//! An update cuts the bundles that it changes, and owns what it cuts. So over time the entries of a pass hang in
//! bundles that other passes change, or that nobody changes any more; without four entries it can make no update that
//! would bring some back. Before its next update such a pass goes along the keys and cuts, without an update, what
//! nobody reads: in sections of its own, in each of which it locks the nodes at one key, cuts, and gives the locks
//! back. If others still read what hangs there, it waits for them, for a bounded time.
ghost use Rattle.std.specs.Prelude.{◌≡◌, ◌≤◌};
ghost use Rattle.plan_laws.specs.Answers.{owned_entries};
ghost use Rattle.table_steps.specs.Passes.{AtRest, IsSamePass};
ghost use Rattle.tree_update.specs.Gathering.{Gathers};

use crate::trying::give_up;
use crate::waits::{pause, wait_for_more};
use index_words::Change;
use table_steps::TablePass;
use update_search::{Aim, begin_search, find_aim};
use update_try::cut_found;

/// How many entries an update may take; with fewer each update is refused.
const NEEDED: usize = 4;

/// A pass that owns this many entries has enough for an update after its next one too, even if nothing is cut: an
/// update puts at most two entries in front of bundles, and for each entry of its new node's links it gets one or more
/// back, with the node that goes out. So a pass that gathers goes on until it owns this many.
const ENOUGH: usize = 6;

/// At how many keys the pass cuts before it looks whether others still read what hangs there.
const STRETCH: u32 = 16;

/// The most stretches that it goes, with a wait between two of them if others read.
const STRETCHES: u32 = 128;

/// Where the next search begins: right after the key that this one has found; if it has found none, at the next key,
/// which it has met on its way. None after the last key.
fn next_key(aim: &Aim) -> Option<u64> {
    match aim {
        Aim::Grow { gap, .. } => gap.above,
        Aim::Replace { pair, .. } => pair.key.checked_add(1),
        Aim::Remove { key, .. } => key.checked_add(1),
    }
}

/// Cuts the bundles at the end of a search for the key, in a section of its own. Answers where the next search begins.
fn cut_at(pass: &mut TablePass<'_>, key: u64) -> Option<u64>
    requires rest { AtRest pass.old.view }
    ensures same { IsSamePass pass.old pass.new }
    ensures rest { AtRest pass.new.view }
    ensures gathers { Gathers pass.old.view pass.new.view }
{
    let at = begin_search(pass);
    pass.facts();
    pass.number_fact();
    match find_aim(pass, key, Change::Put(0)) {
        Ok(Some(aim)) => {
            cut_found(pass, at, &aim);
            next_key(&aim)
        }
        Ok(None) => unreachable!(),
        Err(_) => {
            give_up(pass, at);
            pause();
            Some(key)
        }
    }
}

/// Goes along some keys, from this one on, until the pass owns enough entries. Answers where to go on: after the last
/// key, at the first one again.
#[tactic(auto, using(crate::proofs::GatherSteps::gathers_more))]
fn go_along(pass: &mut TablePass<'_>, from: u64) -> u64
    requires rest { AtRest pass.old.view }
    ensures same { IsSamePass pass.old pass.new }
    ensures rest { AtRest pass.new.view }
    ensures gathers { Gathers pass.old.view pass.new.view }
{
    let mut key = from;
    'keys: for _ in 0..STRETCH {
        if pass.owned_entries() >= ENOUGH {
            return key;
        }
        let Some(next) = cut_at(pass, key) else {
            return 0;
        };
        key = next;
    }
    key
}

/// Cuts old entries, which nobody reads, until the pass owns as many as an update may take. It may find none, if all
/// that hangs is still read. Then it waits for the least number that is read to rise, and tries again, for a bounded
/// time. Answers that number if all was in vain, and gives up as soon as it finds `vain`.
#[tactic(auto, using(crate::proofs::GatherSteps::gathers_more, crate::proofs::GatherSteps::stays_gathers))]
fn gather_needed(pass: &mut TablePass<'_>, vain: Option<u64>) -> Option<u64>
    requires rest { AtRest pass.old.view }
    ensures same { IsSamePass pass.old pass.new }
    ensures rest { AtRest pass.new.view }
    ensures gathers { Gathers pass.old.view pass.new.view }
{
    let mut key = 0;
    let mut waited = None;
    'stretches: for _ in 0..STRETCHES {
        key = go_along(pass, key);
        if pass.owned_entries() >= NEEDED {
            return vain;
        }
        waited = wait_for_more(pass, key != 0, vain);
        if waited.is_some() && waited == vain {
            return vain;
        }
    }
    waited
}

/// Gets entries, if the pass owns a node, and fewer entries than an update may take: it cuts old ones, which nobody
/// reads. It makes no update, and takes no memory. If others still read what hangs it waits for them, for a bounded
/// time. Answers the least number that was read if all was in vain; a later call that is given it as `vain` does not
/// wait for it again.
#[tactic(auto, using(crate::proofs::GatherSteps::gathers_nothing))]
pub fn gather(pass: &mut TablePass<'_>, vain: Option<u64>) -> Option<u64>
    requires rest { AtRest pass.old.view }
    ensures same { IsSamePass pass.old pass.new }
    ensures rest { AtRest pass.new.view }
    ensures gathers { Gathers pass.old.view pass.new.view }
    ensures enough { 4 ≤ owned_entries pass.old.view → pass.new ≡ pass.old }
{
    if pass.owned_entries() >= NEEDED {
        return vain;
    }
    if pass.owned_nodes() == 0 {
        return vain;
    }
    gather_needed(pass, vain)
}
