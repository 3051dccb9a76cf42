// Laws on plain trees. This call does nothing: its clauses are what is proved.
ghost use Rattle.plain_trees.specs.NullLinks.{NullLinkLaw};
ghost use Rattle.plain_trees.specs.Raises.{AheadLaw, InsertLaw, ReplaceLaw, RemoveLaw};
ghost use Rattle.plain_trees.specs.Reaching.{ReachLaw, ReachedInLaw};
ghost use Rattle.plain_trees.specs.Resting.{RestLaw};
ghost use Rattle.plain_trees.specs.Settling.{SetLaw};
ghost use Rattle.plain_trees.specs.Stores.{StoreLaw};
ghost use Rattle.plain_trees.specs.Turns.{TurnLaw, BelowLaw, TurnsHereLaw, TurnStaysLaw, StoreTurnLaw};
ghost use Rattle.plain_trees.specs.Walks.{BeginLaw, WalkLaw};

/// Why a search on plain links ends at the gap of its key, whatever updates other seats have half done.
///
/// Searches: `begin` and `walk` say what a search may claim at its start and at each step; `gap`, that each key between
/// its turns is in the gap of the null link at which it has ended, in the tree at the stamp. `turn`: a node that was
/// not taken out lies below a turn with its key beyond the turn's. `turns_here` and `turn_stays`: after a turn a search
/// reaches what is below the turn, and stays below the other one.
///
/// Raises leave the plain tree as it is, and it still matches: `insert`, `replace` and `remove`, in each of its cases.
/// `ahead`: before a removal with two children raises, each search below the removed node reaches the successor.
///
/// Stores of one plain link: `set`, if the link is set to the child that the tree at the stamp has there, the plain
/// tree still matches that tree, and this was a store of one of the forms; `store`, what a search claims stays, in each
/// of them; `below`, what is below a turn stays there; `store_turn`, and so does what a search reaches; `reach` and
/// `reached`, which nodes plain links reach then. `rest`: once all links are set, the plain tree is the tree at the
/// stamp.
pub fn plain_links_lead_to_the_gap()
    ensures begin { BeginLaw }
    ensures walk { WalkLaw }
    ensures gap { NullLinkLaw }
    ensures turn { TurnLaw }
    ensures insert { InsertLaw }
    ensures replace { ReplaceLaw }
    ensures remove { RemoveLaw }
    ensures ahead { AheadLaw }
    ensures set { SetLaw }
    ensures store { StoreLaw }
    ensures below { BelowLaw }
    ensures turns_here { TurnsHereLaw }
    ensures turn_stays { TurnStaysLaw }
    ensures store_turn { StoreTurnLaw }
    ensures reach { ReachLaw }
    ensures reached { ReachedInLaw }
    ensures rest { RestLaw }
{}
