//! How the slots that an update took out become free, with looks at the sections of the other passes.
ghost use Rattle.std.specs.Prelude.{◌≡◌, ◌≢◌, ◌<◌, ◌&&◌, false};
ghost use Rattle.core_grace.specs.Batches.{batch_taken, is_empty};
ghost use Rattle.core_grace.specs.Progress.{PassedOthers};
ghost use Rattle.table_steps.specs.Passes.{AtRest, IsSamePass};
ghost use Rattle.tree_update.specs.Settles.{HasSettled, HasTried, IsSeen, IsSeenAgain, KeepsAllElse, KeepsSlotCounts};

use table_steps::TablePass;

/// The answer of a try to settle.
#[derive(Clone, Copy, Debug, PartialEq, Eq)]
pub enum Settling {
    /// Every slot of the batch is free, or nothing was retired.
    Settled,
    /// The batch waits for this pass: its section word was found to be this odd word by two looks since the batch was
    /// taken.
    Held { seat: u32, word: u64 },
}

/// The answer of looks at another pass.
#[derive(Clone, Copy, PartialEq, Eq)]
pub(crate) enum PassLook {
    /// The batch is free.
    Freed,
    /// The batch has passed the other pass.
    Passed,
    /// The other pass is in the section with this word.
    Inside(u64),
}

/// Looks at another pass, which the batch has not passed.
fn look_once(pass: &mut TablePass<'_>, other: u32) -> PassLook
    requires rest { AtRest pass.old.view }
    requires other { other ≢ pass.old.number }
    requires there { other < pass.old.view.layout.passes }
    requires waiting { (is_empty pass.old.view.batch && is_empty pass.old.view.retired) ≡ false }
    ensures same { IsSamePass pass.old pass.new }
    ensures rest { AtRest pass.new.view }
    ensures seen { IsSeen pass.old other result pass.new.view }
{
    let word = pass.look_sec(other);
    if !pass.has_batch() {
        return PassLook::Freed;
    }
    if pass.was_passed(other) {
        return PassLook::Passed;
    }
    PassLook::Inside(word)
}

/// Looks at another pass, twice at most, if the batch has not passed it. The second look shows whether the pass is
/// still in the section in which the first one found it.
fn look_at(pass: &mut TablePass<'_>, other: u32) -> PassLook
    requires rest { AtRest pass.old.view }
    requires there { other < pass.old.view.layout.passes }
    requires waiting { (is_empty pass.old.view.batch && is_empty pass.old.view.retired) ≡ false }
    ensures same { IsSamePass pass.old pass.new }
    ensures rest { AtRest pass.new.view }
    ensures seen { IsSeenAgain pass.old other result pass.new.view }
{
    if pass.is_own(other) || pass.was_passed(other) {
        return PassLook::Passed;
    }
    match look_once(pass, other) {
        PassLook::Inside(_) => look_once(pass, other),
        seen => seen,
    }
}

/// Frees the batch once each other pass was passed.
fn free_passed(pass: &mut TablePass<'_>)
    requires rest { AtRest pass.old.view }
    requires passed { PassedOthers pass.old.view.layout.passes pass.old.view.number (batch_taken pass.old.view).grace.passed }
    ensures same { IsSamePass pass.old pass.new }
    ensures rest { AtRest pass.new.view }
    ensures keeps { KeepsAllElse pass.old.view pass.new.view }
    ensures settled { HasSettled pass.old.view pass.new.view }
{
    pass.facts();
    pass.enter();
    pass.leave();
}

/// Tries to free the slots that wait. If no batch waits, all retired slots become the batch. It looks at each other
/// pass that the batch has not passed; once the batch has passed the last one, it is free. It takes no memory and never
/// waits.
pub fn try_settle(pass: &mut TablePass<'_>) -> Settling
    requires rest { AtRest pass.old.view }
    ensures same { IsSamePass pass.old pass.new }
    ensures rest { AtRest pass.new.view }
    ensures keeps { KeepsAllElse pass.old.view pass.new.view }
    ensures slots { KeepsSlotCounts pass.old.view pass.new.view }
    ensures tried { HasTried pass.old result pass.new.view }
{
    if pass.is_settled() {
        return Settling::Settled;
    }
    let passes = pass.passes();
    'passes: for other in 0..passes {
        match look_at(pass, other) {
            PassLook::Freed => return Settling::Settled,
            PassLook::Inside(word) => return Settling::Held { seat: other, word },
            PassLook::Passed => {}
        }
    }
    // No look was made that freed the batch: the pass is alone, and an enter frees it.
    free_passed(pass);
    Settling::Settled
}
