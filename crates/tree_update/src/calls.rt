//! The calls that update the map: a put, a put that is made only where the key is not there, and a removal.
//!
//! Each tries until a try succeeds. It waits only between the tries: outside of the section, with no lock held and
//! nothing pending, so that no other pass waits for it meanwhile. A removal may also wait after its update, with two
//! locks held, as `ending` says.
ghost use Rattle.std.specs.Prelude.{◌≡◌, ◌↔◌, ℕ, ◌<◌, ◌≤◌, not, None, is_some, IfOk, IfSome, IsErrOf, OnErr};
ghost use Rattle.key_map.specs.Map.{value_at};
ghost use Rattle.table_steps.specs.Passes.{AtRest, IsSamePass};
ghost use Rattle.table_steps.specs.Stamps.{IsFoundSince};
ghost use Rattle.tree_update.specs.Calls.{GoesOn, MakesPut, LooksFor, AnswersCall, AnswersPutNew, AnswersRemoval, IsPlaceOfPut, IsPlaceOfNew, IsPlaceOfRemoval, IsRefusal, IsOutOfSlots, PutsUnlooked, new_by};
ghost use Rattle.tree_update.specs.Trying.{OffersSlots, TriesLater};

use crate::ending::end_removal;
use crate::trying::{Missed, Wanted, try_update};
use crate::waits::{pause, wait_for_slots};
use core_updates::PlanSlots;
use index_words::{Change, Pair};
use key_map::{Done, New, PassError};
use snapshot_read::{begin, end, next_from};
use std::sync::Wait;
use table_steps::TablePass;

/// Whether the pair has this key.
fn is_of_key(pair: Option<Pair>, key: u64) -> bool
    ensures { result ≡ is_some (value_at key pair) }
{
    match pair {
        Some(pair) => pair.key == key,
        None => false,
    }
}

/// Why the pass can make no update, if it cannot.
fn refusal(pass: &TablePass<'_>) -> Option<PassError>
    ensures { IsRefusal pass.now.view result }
{
    if pass.calls_left() == 0 {
        return Some(PassError::Spent);
    }
    if pass.owned_nodes() == 0 {
        return Some(PassError::NoSlot);
    }
    if pass.owned_entries() < 4 {
        return Some(PassError::NoSlot);
    }
    None
}

/// Looks for a key in a snapshot of its own: the snapshot's place, and whether the key was there.
fn look_for<R: Wait>(pass: &mut TablePass<'_>, rt: &R, key: u64) -> Done
    requires rest { AtRest pass.old.view }
    ensures same { IsSamePass pass.old pass.new }
    ensures rest { AtRest pass.new.view }
    ensures found { IsFoundSince pass.old result.at pass.new.view }
    ensures looked { LooksFor pass.old.view pass.new.view key result.was result.at }
{
    let at = begin(pass);
    let first = next_from(pass, rt, key);
    end(pass);
    Done {
        at,
        was: is_of_key(first, key),
    }
}

/// Looks for a key that the search of a try has found, or has not, as `there` says. It answers only if it shows the
/// same.
fn look_again<R: Wait>(pass: &mut TablePass<'_>, rt: &R, key: u64, there: bool) -> Option<Done>
    requires rest { AtRest pass.old.view }
    ensures same { IsSamePass pass.old pass.new }
    ensures rest { AtRest pass.new.view }
    ensures found { IfSome result (λ done. IsFoundSince pass.old done.at pass.new.view) }
    ensures looked { IfSome result (λ done. LooksFor pass.old.view pass.new.view key done.was done.at) }
    ensures was { IfSome result (λ done. done.was ≡ there) }
    ensures otherwise { result ≡ None → (at : ℕ) × LooksFor pass.old.view pass.new.view key (not there) at }
{
    let found = look_for(pass, rt, key);
    if found.was == there {
        return Some(found);
    }
    None
}

/// One try of an update. If its search has shown that the update is not to be made, a snapshot shows whether this is so:
/// the key of a removal is not there, or that of a put is which is made only if it is not.
fn try_once<R: Wait>(
    pass: &mut TablePass<'_>,
    rt: &R,
    wanted: Wanted,
    slots: &PlanSlots,
) -> Option<Done>
    requires rest { AtRest pass.old.view }
    requires left { 0 < pass.old.view.history.left }
    requires slots { OffersSlots pass.old.view slots.now }
    ensures same { IsSamePass pass.old pass.new }
    ensures rest { AtRest pass.new.view }
    ensures answered { IfSome result (AnswersCall wanted.only_new pass.old pass.new.view wanted.line wanted.key wanted.change) }
    ensures unlooked { PutsUnlooked wanted.only_new wanted.change pass.old.view pass.new.view }
    ensures later { result ≡ None → TriesLater wanted.only_new wanted.key wanted.change pass.old.view pass.new.view }
    ensures goes { result ≡ None → GoesOn pass.old.view pass.new.view }
{
    match try_update(pass, wanted, slots) {
        Ok(carried) => {
            end_removal(pass, rt, carried.parted);
            Some(carried.done)
        }
        Err(Missed::Absent) => look_again(pass, rt, wanted.key, false),
        Err(Missed::There) => look_again(pass, rt, wanted.key, true),
        Err(Missed::Failed(_)) => None,
    }
}

/// Tries an update until it is made, or until a snapshot shows that it is not to be made.
fn try_until_answered<R: Wait>(pass: &mut TablePass<'_>, rt: &R, wanted: Wanted) -> Done
    requires rest { AtRest pass.old.view }
    requires left { 0 < pass.old.view.history.left }
    ensures same { IsSamePass pass.old pass.new }
    ensures rest { AtRest pass.new.view }
    ensures answered { AnswersCall wanted.only_new pass.old pass.new.view wanted.line wanted.key wanted.change result }
    ensures unlooked { PutsUnlooked wanted.only_new wanted.change pass.old.view pass.new.view }
{
    'tries: for _ in rt.forever() {
        let slots = wait_for_slots(pass, rt);
        if let Some(done) = try_once(pass, rt, wanted, &slots) {
            return done;
        }
        pause();
    }
    unreachable!()
}

/// Makes the update unless the pass can make none, or the update is not to be made.
fn update<R: Wait>(pass: &mut TablePass<'_>, rt: &R, wanted: Wanted) -> Result<Done, PassError>
    requires rest { AtRest pass.old.view }
    ensures same { IsSamePass pass.old pass.new }
    ensures rest { AtRest pass.new.view }
    ensures answered { IfOk result (AnswersCall wanted.only_new pass.old pass.new.view wanted.line wanted.key wanted.change) }
    ensures unlooked { PutsUnlooked wanted.only_new wanted.change pass.old.view pass.new.view }
    ensures spent { IsErrOf result PassError.Spent ↔ (pass.old.view.history.left ≡ 0) }
    ensures no_slot { IsErrOf result PassError.NoSlot ↔ IsOutOfSlots pass.old.view }
    ensures unchanged { OnErr result (pass.new ≡ pass.old) }
{
    match refusal(pass) {
        Some(error) => Err(error),
        None => Ok(try_until_answered(pass, rt, wanted)),
    }
}

/// The answer of a put that is made only if its key is not there, by whether the key was there.
fn new_answer(done: Done) -> New
    ensures { result ≡ new_by done }
{
    if done.was {
        return New::Kept { at: done.at };
    }
    New::Made { at: done.at }
}

/// Puts the key with this value, for the request line `line`. It takes no memory. While other passes hold the locks
/// that it needs, or are inside sections in which they may use slots that it needs, it lets other threads run.
pub fn put<R: Wait>(
    pass: &mut TablePass<'_>,
    rt: &R,
    line: u32,
    key: u64,
    val: u64,
) -> Result<Done, PassError>
    requires rest { AtRest pass.old.view }
    ensures same { IsSamePass pass.old pass.new }
    ensures rest { AtRest pass.new.view }
    ensures made { IfOk result (MakesPut pass.old.view pass.new.view pass.old.number line key val) }
    ensures place { IfOk result (λ done. IsPlaceOfPut pass.old line key val done pass.new.view) }
    ensures waits { pass.new.view.counts.waits ≡ pass.old.view.counts.waits }
    ensures spent { IsErrOf result PassError.Spent ↔ (pass.old.view.history.left ≡ 0) }
    ensures no_slot { IsErrOf result PassError.NoSlot ↔ IsOutOfSlots pass.old.view }
    ensures unchanged { OnErr result (pass.new ≡ pass.old) }
{
    let wanted = Wanted {
        line,
        key,
        change: Change::Put(val),
        only_new: false,
    };
    update(pass, rt, wanted)
}

/// Puts the key with this value if it is not there, for the request line `line`. If it is there, no update is made: the
/// answer is that of a snapshot. The conditions on calls and slots are the same then.
pub fn put_new<R: Wait>(
    pass: &mut TablePass<'_>,
    rt: &R,
    line: u32,
    key: u64,
    val: u64,
) -> Result<New, PassError>
    requires rest { AtRest pass.old.view }
    ensures same { IsSamePass pass.old pass.new }
    ensures rest { AtRest pass.new.view }
    ensures answered { IfOk result (AnswersPutNew pass.old.view pass.new.view pass.old.number line key val) }
    ensures place { IfOk result (λ answer. IsPlaceOfNew pass.old line key val answer pass.new.view) }
    ensures spent { IsErrOf result PassError.Spent ↔ (pass.old.view.history.left ≡ 0) }
    ensures no_slot { IsErrOf result PassError.NoSlot ↔ IsOutOfSlots pass.old.view }
    ensures unchanged { OnErr result (pass.new ≡ pass.old) }
{
    let wanted = Wanted {
        line,
        key,
        change: Change::Put(val),
        only_new: true,
    };
    match update(pass, rt, wanted) {
        Ok(done) => Ok(new_answer(done)),
        Err(error) => Err(error),
    }
}

/// Takes the key out, for the request line `line`. If it is not there, no update is made: the answer is that of a
/// snapshot. The conditions on calls and slots are the same then.
///
/// It may wait where `put` does, and in one more case: if the removed node has two children and its successor hangs
/// further down, it returns only once each other pass was outside a section since the removal took effect. So it does
/// not return while another pass stays in a section, as a pass does whose snapshot is open; readers, and updates at
/// other nodes, go on meanwhile.
pub fn remove<R: Wait>(
    pass: &mut TablePass<'_>,
    rt: &R,
    line: u32,
    key: u64,
) -> Result<Done, PassError>
    requires rest { AtRest pass.old.view }
    ensures same { IsSamePass pass.old pass.new }
    ensures rest { AtRest pass.new.view }
    ensures answered { IfOk result (AnswersRemoval pass.old.view pass.new.view pass.old.number line key) }
    ensures place { IfOk result (λ done. IsPlaceOfRemoval pass.old line key done pass.new.view) }
    ensures spent { IsErrOf result PassError.Spent ↔ (pass.old.view.history.left ≡ 0) }
    ensures no_slot { IsErrOf result PassError.NoSlot ↔ IsOutOfSlots pass.old.view }
    ensures unchanged { OnErr result (pass.new ≡ pass.old) }
{
    let wanted = Wanted {
        line,
        key,
        change: Change::Remove,
        only_new: false,
    };
    update(pass, rt, wanted)
}
