//! One try of an update: a search, and the try of the plan that it has found, in one section. It never waits.
ghost use Rattle.std.specs.Prelude.{◌≡◌, ◌↔◌, ◌<◌, ◌&&◌, true, false, Some, None, IfOk, IfErr, IsErrOf, OnErr};
ghost use Rattle.core_updates.specs.Ready.{update_of};
ghost use Rattle.table_steps.specs.Passes.{AtRest, IsAlone, IsSamePass};
ghost use Rattle.table_steps.specs.Raises.{IsRaisedSince};
ghost use Rattle.table_steps.specs.Stamps.{outside_again};
ghost use Rattle.tree_update.specs.Calls.{StaysOn, HasMade, MakesPut, IsPlaceOfPut};
ghost use Rattle.update_search.specs.Aims.{has_found, is_put};
ghost use Rattle.update_search.specs.Outcomes.{HasRisen};
ghost use Rattle.update_try.specs.Parting.{EndsAs};
ghost use Rattle.tree_update.specs.Trying.{IsMissed, IsOutOfFreeSlots, OffersSlots, IfDone, IfBusy, IfMoved, IfPending, UnlessDone, IsMade};
ghost use Rattle.bundle_reads.specs.Links.{InsideAt};

use core_updates::PlanSlots;
use index_words::Change;
use key_map::{Done, PassError};
use table_steps::TablePass;
use update_search::{Aim, Failed, begin_search, find_aim};
use update_try::{Carried, carry_out, plan_slots};

/// The update that a call is to make.
#[derive(Clone, Copy)]
pub(crate) struct Wanted {
    pub line: u32,
    pub key: u64,
    pub change: Change,
    /// Whether it is made only if the key is not there.
    pub only_new: bool,
}

/// Why one try of an update was not made. The try has changed nothing.
#[derive(Clone, Copy, PartialEq, Eq)]
pub(crate) enum Missed {
    /// The search has not found the key of a removal: at the number at which it read the key was not there.
    Absent,
    /// The search has found the key of a put that is made only if the key is not there.
    There,
    /// The count of this failure has risen, because of what another pass did. A later try may succeed.
    Failed(Failed),
}

/// The answer of one try of a put.
#[derive(Clone, Copy, Debug, PartialEq, Eq)]
pub enum Try {
    /// The put is made.
    Done(Done),
    /// A lock was found held: another pass is changing the tree there.
    Busy,
    /// What the search had found has changed since, or was about to go out: a node is marked, or a plain link or its
    /// tag is another one.
    ///
    /// This needs a step of another pass since this try began, or a pass that has stopped between the marks of its
    /// update and the plain link that it sets after them; a pass that has stopped elsewhere in an update is met as
    /// `Busy`.
    Moved,
    /// It never occurs: a search follows plain links, which have no numbers to wait for. The specification requires
    /// this variant.
    Pending,
}

/// Whether an update that is made only if its key is not there is not made, because the key was found.
fn is_kept_out(only_new: bool, aim: &Aim) -> bool
    ensures { result ≡ (only_new && has_found aim.now) }
{
    only_new && !matches!(aim, Aim::Grow { .. })
}

/// Leaves the section if nothing was locked.
pub(crate) fn give_up(pass: &mut TablePass<'_>, at: u64)
    requires reads { InsideAt pass.old.view at }
    ensures same { IsSamePass pass.old pass.new }
    ensures rest { AtRest pass.new.view }
    ensures left { pass.new.view ≡ outside_again pass.old.view }
    ensures stays { StaysOn pass.old.view pass.new.view }
    ensures counts { pass.new.view.counts ≡ pass.old.view.counts }
{
    pass.close_section();
}

/// One try of an update, in a section of its own, with these slots. The enter takes no free slot away, so they are
/// still free where the plan is carried out. The try never waits: a removal that has to wait is not at rest after it.
pub(crate) fn try_update(
    pass: &mut TablePass<'_>,
    wanted: Wanted,
    slots: &PlanSlots,
) -> Result<Carried, Missed>
    requires rest { AtRest pass.old.view }
    requires left { 0 < pass.old.view.history.left }
    requires slots { OffersSlots pass.old.view slots.now }
    ensures same { IsSamePass pass.old pass.new }
    ensures rest { IfErr result (λ missed. AtRest pass.new.view) }
    ensures ends { IfOk result (λ carried. EndsAs pass.new.view pass.new.number carried.parted) }
    ensures put { IfOk result (λ carried. is_put wanted.change ≡ true → carried.parted ≡ None) }
    ensures made { IfOk result (λ carried. HasMade pass.old.view pass.new.view pass.old.number wanted.line wanted.key wanted.change carried.done) }
    ensures raise { IfOk result (λ carried. IsRaisedSince pass.old (update_of pass.old.number wanted.line wanted.key wanted.change) carried.done.at pass.new.view) }
    ensures absent { IfOk result (λ carried. wanted.only_new ≡ true → carried.done.was ≡ false) }
    ensures missed { IfErr result (IsMissed wanted.only_new wanted.key wanted.change pass.old.view pass.new.view) }
    ensures stays { IfErr result (λ missed. StaysOn pass.old.view pass.new.view) }
    ensures waits { pass.new.view.counts.waits ≡ pass.old.view.counts.waits }
{
    let at = begin_search(pass);
    pass.facts();
    pass.number_fact();
    match find_aim(pass, wanted.key, wanted.change) {
        Ok(Some(aim)) => {
            if is_kept_out(wanted.only_new, &aim) {
                pass.facts();
                give_up(pass, at);
                return Err(Missed::There);
            }
            match carry_out(pass, at, wanted.line, &aim, slots) {
                Ok(carried) => Ok(carried),
                Err(failed) => Err(Missed::Failed(failed)),
            }
        }
        Ok(None) => {
            pass.facts();
            give_up(pass, at);
            Err(Missed::Absent)
        }
        Err(failed) => {
            give_up(pass, at);
            Err(Missed::Failed(failed))
        }
    }
}

/// One try of a put with these slots.
fn try_with(pass: &mut TablePass<'_>, line: u32, key: u64, val: u64, slots: &PlanSlots) -> Try
    requires rest { AtRest pass.old.view }
    requires left { 0 < pass.old.view.history.left }
    requires slots { OffersSlots pass.old.view slots.now }
    ensures same { IsSamePass pass.old pass.new }
    ensures rest { AtRest pass.new.view }
    ensures made { IfDone result (MakesPut pass.old.view pass.new.view pass.old.number line key val) }
    ensures place { IfDone result (λ done. IsPlaceOfPut pass.old line key val done pass.new.view) }
    ensures busy { IfBusy result (HasRisen pass.old.view.counts.busy pass.new.view.counts.busy) }
    ensures moved { IfMoved result (HasRisen pass.old.view.counts.moves pass.new.view.counts.moves) }
    ensures never { IfPending result ⊥ }
    ensures waits { pass.new.view.counts.waits ≡ pass.old.view.counts.waits }
    ensures alone { UnlessDone result (¬ IsAlone pass.new.view) }
    ensures kept { UnlessDone result (StaysOn pass.old.view pass.new.view) }
{
    let wanted = Wanted {
        line,
        key,
        change: Change::Put(val),
        only_new: false,
    };
    match try_update(pass, wanted, slots) {
        Ok(carried) => Try::Done(carried.done),
        Err(Missed::Failed(Failed::Busy)) => Try::Busy,
        Err(Missed::Failed(Failed::Moved)) => Try::Moved,
        Err(Missed::Absent | Missed::There) => unreachable!(),
    }
}

/// Tries once to put the key with this value, for the request line `line`. It takes no memory and never waits: if it
/// meets what another pass is doing, it gives everything back and reports what it has met, and the count of this has
/// risen. A pass that is alone on its table meets nothing: its try is made, or refused by an error.
///
/// # Errors
/// `Spent` if no call is left. `NoSlot` if calls are left, but no node or fewer than four entries are free; a try does
/// not free retired slots first. The pass is then unchanged.
pub fn try_put(pass: &mut TablePass<'_>, line: u32, key: u64, val: u64) -> Result<Try, PassError>
    requires rest { AtRest pass.old.view }
    ensures same { IsSamePass pass.old pass.new }
    ensures rest { AtRest pass.new.view }
    ensures made { IfOk result (λ tried. IfDone tried (MakesPut pass.old.view pass.new.view pass.old.number line key val)) }
    ensures place { IfOk result (λ tried. IfDone tried (λ done. IsPlaceOfPut pass.old line key val done pass.new.view)) }
    ensures busy { IfOk result (λ tried. IfBusy tried (HasRisen pass.old.view.counts.busy pass.new.view.counts.busy)) }
    ensures moved { IfOk result (λ tried. IfMoved tried (HasRisen pass.old.view.counts.moves pass.new.view.counts.moves)) }
    ensures never_pending { IfOk result (λ tried. IfPending tried ⊥) }
    ensures waits { pass.new.view.counts.waits ≡ pass.old.view.counts.waits }
    ensures alone { IsAlone pass.old.view → IfOk result IsMade }
    ensures kept { IfOk result (λ tried. UnlessDone tried (StaysOn pass.old.view pass.new.view)) }
    ensures spent { IsErrOf result PassError.Spent ↔ (pass.old.view.history.left ≡ 0) }
    ensures no_slot { IsErrOf result PassError.NoSlot ↔ IsOutOfFreeSlots pass.old.view }
    ensures unchanged { OnErr result (pass.new ≡ pass.old) }
{
    if pass.calls_left() == 0 {
        return Err(PassError::Spent);
    }
    let Some(slots) = plan_slots(pass) else {
        return Err(PassError::NoSlot);
    };
    Ok(try_with(pass, line, key, val, &slots))
}
