// Laws on updates before they take effect. These calls do nothing: their clauses are what is proved.
ghost use Rattle.core_trees.specs.LinkSteps.{GrowByLinkLaw, ReplaceByLinkLaw, LiftByLinkLaw, JoinNearLaw, JoinDeepLaw};
ghost use Rattle.core_updates.specs.Held.{GrowFromViewLaw, ReplaceFromViewLaw, LiftFromViewLaw, JoinFromViewLaw};
ghost use Rattle.core_updates.specs.PlanEvents.{LocksLaw, EventsLaw, FailuresLaw};
ghost use Rattle.core_updates.specs.PlanReady.{PlanMayRaiseLaw};
ghost use Rattle.core_updates.specs.Ready.{MayGrowLaw, MayReplaceLaw, MayLiftLaw, MayJoinLaw};

use core_laws::{what_searches_find, where_counts_rise};

/// The tree step by links. Where a few links of a spelled tree are known, and after a change lead to what the
/// update brings in, while all other links stay, the tree after the update is spelled: a put of an absent key,
/// a put of a present key, a removal of a node with at most one child, and one with two children, whose
/// successor is the right child or is deeper. Where the searches end follows from the links.
pub fn links_spell_the_step()
    ensures grow { GrowByLinkLaw }
    ensures replace { ReplaceByLinkLaw }
    ensures lift { LiftByLinkLaw }
    ensures join_near { JoinNearLaw }
    ensures join_deep { JoinDeepLaw }
{}

/// A ready update may raise. In every table that meets the rule, a seat whose update rests on links of the tree
/// at the stamp, and has made its new node and its entries ready at them, meets the need of the raise on trees;
/// and what the raise brings in and takes out is what the update has made ready.
pub fn ready_updates_may_raise()
    ensures grow { MayGrowLaw }
    ensures replace { MayReplaceLaw }
    ensures lift { MayLiftLaw }
    ensures join { MayJoinLaw }
{}

/// What a view shows suffices for a raise. A seat that has found under their locks the plain links on which its update
/// rests, and null links again as its search has found them, has filled its new node and its entries, and has prepared
/// the entries, may raise in every table that meets the rule and has this view at the seat, whatever the words and the
/// other views are.
pub fn validated_updates_may_raise()
    ensures grow { GrowFromViewLaw }
    ensures replace { ReplaceFromViewLaw }
    ensures lift { LiftFromViewLaw }
    ensures join { JoinFromViewLaw }
{
    what_searches_find();
}

/// A plan that is ready may be raised. A seat whose view is ready for a plan may raise its update in every table that
/// meets the rule and has this view at the seat; the raise brings in and takes out what the plan says.
pub fn ready_plans_may_raise()
    ensures plan { PlanMayRaiseLaw }
{
    what_searches_find();
}

/// A plan can be carried out. It has locked what it looks at, where it puts entries in front, and what it takes out;
/// and each of its events before and after the raise is allowed in every table that meets the rule and has this view
/// at the seat. Where a search or a try fails, the count has risen that the answer needs: by a lock that is held, a
/// mark, or another plain link or tag than the remembered one.
pub fn plans_are_carried_out()
    ensures locks { LocksLaw }
    ensures events { EventsLaw }
    ensures failures { FailuresLaw }
{
    where_counts_rise();
    what_searches_find();
}
