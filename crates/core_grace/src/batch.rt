// The moves of a view's batch of retired slots.
ghost use Rattle.std.specs.Prelude.{◌≡◌, ℕ, OnOk, OnErr, IfOk, Option, not, filter};
ghost use Rattle.key_map.specs.Lists.{has};
ghost use Rattle.core_grace.specs.Batches.{batch_taken, first_found, lets_pass, looked_at, is_number, all_passed, apart_from, settled};
ghost use Rattle.core_grace.specs.Progress.{SettlesRight};

use crate::section::passed;
use index_words::{Items, Looks, NoMemory, SectionFound, Slots, View};
use std::alloc::Global;

fn is_in(passes: &[u32], pass: u32) -> bool
    ensures { result ≡ has pass passes.now }
{
    passes.contains(&pass)
}

fn find_first(found: &[SectionFound], pass: u32) -> Option<u64>
    ensures { result ≡ first_found pass found.now }
{
    found
        .iter()
        .find(|look| look.pass == pass)
        .map(|look| look.word)
}

fn may_pass(first: Option<u64>, word: u64) -> bool
    ensures { result ≡ lets_pass first word }
{
    match first {
        None => word % 2 == 0,
        Some(first) => passed(first, word),
    }
}

/// Whether this is the view's number.
pub fn is_own(number: Option<u32>, pass: u32) -> bool
    ensures { result ≡ is_number pass number }
{
    number == Some(pass)
}

/// Whether each of the first `passes` except this one is among these.
pub fn has_all_others(passes: u32, number: Option<u32>, passed: &[u32]) -> bool
    ensures { result ≡ all_passed passes number passed.now }
{
    if passes == 0 {
        return true;
    }
    let pass = passes - 1;
    (is_own(number, pass) || is_in(passed, pass)) && has_all_others(pass, number, passed)
}

/// The looks of the batch that waits, or of the one that would be taken now.
pub fn current_looks(alloc: Global, view: &View) -> Result<Looks, NoMemory>
    ensures { IfOk result (λ g. g ≡ (batch_taken view.now).grace) }
{
    if view.batch.is_empty() {
        return Ok(Looks::none(alloc));
    }
    let found = view.grace.found.copy(alloc)?;
    let passed = view.grace.passed.copy(alloc)?;
    Ok(Looks { found, passed })
}

/// Adds a look that found `word` as the section word of `pass`. If memory is refused the looks are unchanged.
pub fn look_at(looks: &mut Looks, pass: u32, word: u64) -> Result<(), NoMemory>
    ensures ok { OnOk result (looks.new ≡ looked_at looks.old pass word) }
    ensures err { OnErr result (looks.new ≡ looks.old) }
{
    if is_in(looks.passed.as_slice(), pass) {
        return Ok(());
    }
    let first = find_first(looks.found.as_slice(), pass);
    if may_pass(first, word) {
        return looks.passed.push(pass);
    }
    looks.found.push(SectionFound { pass, word })
}

fn keep_without(slots: &mut Vec<u32>, out: &[u32])
    ensures { slots.new.items ≡ filter (λ k. not (has k out.now)) slots.old.items }
{
    slots.retain(|own| !is_in(out, *own));
}

fn drop_from(alloc: Global, slots: &mut Items<u32>, out: &[u32])
    ensures { slots.new ≡ filter (λ k. not (has k out.now)) slots.old }
{
    let mut kept = std::mem::replace(slots, Items::new(alloc)).into_vec();
    keep_without(&mut kept, out);
    *slots = Items::from_vec(kept);
}

/// Removes these slots from the list.
pub fn drop_slots(alloc: Global, slots: &mut Slots, out: &Slots)
    ensures { slots.new ≡ apart_from out.now slots.old }
{
    drop_from(alloc, &mut slots.nodes, out.nodes.as_slice());
    drop_from(alloc, &mut slots.entries, out.entries.as_slice());
}

fn take_or_free(alloc: Global, view: &mut View, looks: Looks, passes: u32) -> Result<(), NoMemory>
    ensures ok { OnOk result (view.new ≡ settled passes (record (batch_taken view.old) { grace = looks })) }
    ensures err { OnErr result (view.new ≡ view.old) }
{
    let taking = view.batch.is_empty();
    if has_all_others(passes, view.number, looks.passed.as_slice()) {
        if taking {
            view.free.append(&view.retired)?;
            drop_slots(alloc, &mut view.unused, &view.retired);
            view.retired = Slots::none(alloc);
        } else {
            view.free.append(&view.batch)?;
            drop_slots(alloc, &mut view.unused, &view.batch);
        }
        view.batch = Slots::none(alloc);
        view.grace = Looks::none(alloc);
        return Ok(());
    }
    if taking {
        std::mem::swap(&mut view.batch, &mut view.retired);
    }
    view.grace = looks;
    Ok(())
}

/// If no batch waits, takes the retired slots as the batch. The looks become these, and if they have passed every other
/// of the `passes` the batch becomes free. If memory is refused the view is unchanged.
pub fn settle(alloc: Global, view: &mut View, looks: Looks, passes: u32) -> Result<(), NoMemory>
    ensures ok { OnOk result (view.new ≡ settled passes (record (batch_taken view.old) { grace = looks })) }
    ensures frees { OnOk result (SettlesRight passes (record (batch_taken view.old) { grace = looks }) view.new) }
    ensures err { OnErr result (view.new ≡ view.old) }
{
    take_or_free(alloc, view, looks, passes)
}
