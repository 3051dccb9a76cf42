// Laws on the raise, and on the steps after it and after a try that fails. These calls do nothing: their clauses are
// what is proved.
ghost use Rattle.plan_laws.specs.Answers.{AnswerLaw, PreparedOwnsLaw, FourEntriesLaw};
ghost use Rattle.plan_laws.specs.Frames.{StepsKeepLaw, KeepsPassLaw, KeepsTryLaw, KeepsOwnedLaw};
ghost use Rattle.plan_laws.specs.Parting.{StartPartingLaw, LinkCopyLaw, LoadFarTagLaw, UnlockUpperLaw, LeavePartedLaw, LookPartedLaw, MarkFarLaw, UnlinkFarLaw};
ghost use Rattle.plan_laws.specs.PlainLinks.{SetLaw, TagLaw, NoTagLaw};
ghost use Rattle.plan_laws.specs.Prunes.{PruneStepLaw, CutStepLaw, StartCuttingLaw, EndCuttingLaw, KeepsPrunedLaw, OwnedIsPrunedLaw};
ghost use Rattle.plan_laws.specs.Raises.{RaiseStepLaw, FinaliseStepLaw, FinaliseEndLaw, MarkStartLaw, MarkStepLaw, MarkEndLaw};
ghost use Rattle.plan_laws.specs.Releases.{GiveUpLaw, NothingLockedLaw, UnlockStepLaw, LeaveStepLaw, TakeBackStepLaw};

use core_updates::ready_plans_may_raise;

/// A seat that is ready for its plan may raise, at the place after the stamp. Then the numbers of its entries are
/// written, and the nodes that went out are marked.
pub fn updates_raise()
    ensures raise { RaiseStepLaw }
    ensures finalise { FinaliseStepLaw }
    ensures finalised { FinaliseEndLaw }
    ensures mark_start { MarkStartLaw }
    ensures mark { MarkStepLaw }
    ensures marked { MarkEndLaw }
{
    ready_plans_may_raise();
}

/// After the marks the plain link is set at which the tree has another child since the raise, and its tag is raised
/// where a removal has made it null. Then the locks may be given back.
pub fn plain_links_are_set()
    ensures set { SetLaw }
    ensures raise_tag { TagLaw }
    ensures no_tag { NoTagLaw }
{}

/// A removal with a far successor ends in two halves around its wait. Before it the copy is linked, and the section is
/// left with two locks. After it the successor is marked and unlinked, and these locks are given back.
pub fn removals_wait()
    ensures start { StartPartingLaw }
    ensures copy { LinkCopyLaw }
    ensures tag { LoadFarTagLaw }
    ensures unlock { UnlockUpperLaw }
    ensures leave { LeavePartedLaw }
    ensures look { LookPartedLaw }
    ensures mark { MarkFarLaw }
    ensures unlink { UnlinkFarLaw }
{}

/// Between the numbers and the marks the bundles that the update changed may be cut. No step of that takes anything
/// from what the view shows of the update. A try that has filled no slot may cut too, and give its locks back then.
pub fn bundles_are_pruned()
    ensures step { PruneStepLaw }
    ensures cutting { CutStepLaw }
    ensures start { StartCuttingLaw }
    ensures end { EndCuttingLaw }
    ensures keeps { KeepsPrunedLaw }
    ensures owned { OwnedIsPrunedLaw }
{}

/// A try may give up before it fills its slots. It gives its locks back, as an update does at its end, leaves its
/// section, and takes its announcement back.
pub fn locks_are_given_back()
    ensures give_up { GiveUpLaw }
    ensures nothing_locked { NothingLockedLaw }
    ensures unlock { UnlockStepLaw }
    ensures leave { LeaveStepLaw }
    ensures take_back { TakeBackStepLaw }
{}

/// What the steps leave as it was.
pub fn steps_keep_the_rest()
    ensures steps { StepsKeepLaw }
    ensures pass { KeepsPassLaw }
    ensures tried { KeepsTryLaw }
    ensures owned { KeepsOwnedLaw }
{}

/// What the answer of an update needs. The raise is at the place after the stamp, which is the length of the history
/// that the pass has seen then; the key was in the map before or not, as the plan has it; and of the slots that the
/// pass owns there is at most one node fewer, and at most four entries with those that were put in front.
pub fn updates_are_answered()
    ensures answer { AnswerLaw }
    ensures prepared { PreparedOwnsLaw }
    ensures four { FourEntriesLaw }
{
    ready_plans_may_raise();
}
