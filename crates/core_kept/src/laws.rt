// Why each event keeps the rule, whatever its kind, and what each event keeps of a view. The calls do nothing: their
// clauses are what is proved.
ghost use Rattle.core_kept.specs.KeepsRule.{KeepsLaw};
ghost use Rattle.core_kept.specs.KindLaws.{RuleLaw, SearchesLaw, TurnsLaw};
ghost use Rattle.core_kept.specs.RaiseOwes.{OwesLaw};
ghost use Rattle.core_kept.specs.SeatLaws.{FirstLaw, MakeLaw, MadeLaw, WholeLaw};
ghost use Rattle.core_kept.specs.ViewLaws.{SpentLaw, SpareLaw, PlacesLaw, WaitsLaw, UnusedLaw, LinkingLaw, SeenLaw, SectionsLaw};

/// What every allowed event keeps of each view. Nothing is left of a view that was joined into another one. The section
/// word and the announcement of a number that is still to be given are 0. Each view knows the places of its own
/// updates. It works at no node of its own batch, and its slots wait only where it has a pass number or was given one.
/// The words of its free slots that it never used are 0, but for the locks. A node that its update brings in is linked
/// when nothing is pending any more.
/// No event makes what a seat has seen shorter. An enter takes the own section word from even to odd, a leave
/// from odd to even, and no event changes another pass's; nor is an announcement changed by another event than one that
/// announces, or by another pass.
pub fn views_keep_the_rule()
    ensures spent { SpentLaw }
    ensures spare { SpareLaw }
    ensures places { PlacesLaw }
    ensures waits { WaitsLaw }
    ensures unused { UnusedLaw }
    ensures linking { LinkingLaw }
    ensures seen { SeenLaw }
    ensures sections { SectionsLaw }
{}

/// How seats are made. The table with the first view alone meets the rule, and making a seat keeps it. Made one after
/// another, the seats of the passes stand after the first view, which is empty then. A view that has every number,
/// as its own or given up to it, knows as many updates as the stamp says.
pub fn how_seats_are_made()
    ensures first { FirstLaw }
    ensures make { MakeLaw }
    ensures made { MadeLaw }
    ensures whole { WholeLaw }
{}

/// What an allowed event keeps, whatever its kind. `rule`: the rule, and what the stamp and each section number select.
/// `searches`: what is said of the plain tree, of what each seat's search claims and of what it reaches; a raise keeps
/// it over the tree that is at the stamp then. `turns`: where plain links lead from the place of a search to the plain
/// tree, they reach nodes below its turns; a node that is taken out is marked before it leaves the plain tree; and on a
/// table of one pass what its seat has found stays as it is until it raises. `owes`: after a raise the stamp is a new
/// number, at which the words spell the tree after the update; and the tag of each link that led to a node before, and
/// leads to none then, is owed.
pub fn kinds_keep_the_rule()
    ensures rule { RuleLaw }
    ensures searches { SearchesLaw }
    ensures turns { TurnsLaw }
    ensures owes { OwesLaw }
{}

/// Every allowed event keeps the rule, from every table that meets it: what the laws above show, joined.
pub fn every_event_keeps_the_rule()
    ensures keeps { KeepsLaw }
{}
