// Laws on the steps of a try, up to its raise. These calls do nothing: their clauses are what is proved.
ghost use Rattle.plan_laws.specs.Fills.{FillLaw, MayFillOnLaw};
ghost use Rattle.plan_laws.specs.Fronts.{PrepareStartLaw, PrepareStepLaw, PrepareEndLaw};
ghost use Rattle.plan_laws.specs.Looks.{HeadsStayLaw, KeepsLooksLaw, LookLaw, NumberLaw, StepsKeepLooksLaw};
ghost use Rattle.plan_laws.specs.Slots.{SlotsSomeLaw};
ghost use Rattle.plan_laws.specs.Tries.{LastUnlockLaw, LoadsKeepLaw, LockStepLaw};

/// A try searches, and locks nodes that it has searched, one after another. No load of it takes anything from that, nor
/// does the unlock of the node that it has locked last.
pub fn tries_lock()
    ensures step { LockStepLaw }
    ensures loads { LoadsKeepLaw }
    ensures unlock { LastUnlockLaw }
{}

/// Under its locks a try looks at marks, plain links, tags, keys and values, and at the newest entries of bundles. What
/// it has found stays found.
pub fn tries_look()
    ensures look { LookLaw }
    ensures number { NumberLaw }
    ensures heads { HeadsStayLaw }
    ensures steps { StepsKeepLooksLaw }
    ensures keeps { KeepsLooksLaw }
{}

/// After its last look a try fills its own free slots, which are above 0.
pub fn tries_fill()
    ensures slots { SlotsSomeLaw }
    ensures on { MayFillOnLaw }
    ensures fill { FillLaw }
{}

/// With all its slots filled a try puts its entries in front of bundles. After the last one the seat is ready for its
/// plan.
pub fn tries_prepare()
    ensures start { PrepareStartLaw }
    ensures step { PrepareStepLaw }
    ensures end { PrepareEndLaw }
{}
