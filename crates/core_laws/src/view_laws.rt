// Laws on the tables that meet the rule. These calls do nothing: their clauses are what is proved.
ghost use Rattle.core_laws.specs.Alone.{OthersLaw, NothingLaw, AloneLaw};
ghost use Rattle.core_laws.specs.Changers.{ChangesLaw};
ghost use Rattle.core_laws.specs.Counts.{CountsLaw, OtherHeadLaw, TakenLaw, TreeNotRetiredLaw};
ghost use Rattle.core_laws.specs.Cuts.{CutNeedLaw, UnreadLaw};
ghost use Rattle.core_laws.specs.Falls.{FallsLaw};
ghost use Rattle.core_laws.specs.Found.{ReadLaw, StampLaw, OneTreeLaw, BundleLengthLaw};
ghost use Rattle.core_laws.specs.Owners.{OwnersLaw};
ghost use Rattle.core_laws.specs.PlainNeeds.{ReadLinkLaw, SetLinkLaw, ReadTagLaw, SetTagLaw};
ghost use Rattle.core_laws.specs.PlainTrees.{PlainTreeLaw, PlainLinkLaw, PlainTagLaw, TagRoomLaw};
ghost use Rattle.core_laws.specs.Searching.{LinkFoundLaw, OwnLeftLaw, BeyondLaw, NoReturnLaw, SearchKeysLaw, HeadNumberedLaw, HeldLinkLaw, NullLinkLaw, StillLaw};
ghost use Rattle.core_laws.specs.SlotSums.{SlotSumLaw};
ghost use Rattle.core_laws.specs.Waits.{LeaveWaitingLaw, LookWaitingLaw, NoLooksLaw, LockedStaysLaw, UnlinkLaw, LooksLastLaw};
ghost use Rattle.core_laws.specs.ViewNeeds.{EnterLaw, LeaveLaw, LookLaw, FillLaw, LoadStampLaw, FixLaw, AnnounceLaw, TakeBackLaw, LookAnnLaw, ReadHeadLaw, ReadNumberLaw, ReadChildLaw, ReadNextLaw, PrepareLaw, FinaliseLaw, LockLaw, UnlockLaw, ReadMarkLaw, MarkLaw, ReadKeyLaw, ReadValLaw, SplitLaw, JoinLaw};

/// Who writes what. An event of one seat changes no word that another seat alone changes: its section word and its
/// announcement; each word of its free slots; lock, mark, heads, links and tags of a node that it has locked, and the
/// next of each entry in such a node's bundles; the stamp of an entry that it has pending. No event changes the key or
/// the value of a node that is not free, nor the child of an entry that is not free, nor its stamp once it is written.
pub fn who_writes_what()
    ensures owners { OwnersLaw }
{}

/// What a view shows: where a seat's view meets the need of an event, as it stands over the view alone, the event is
/// allowed in every table that meets the rule and has this view at the seat. A join needs both views.
pub fn needs_of_views()
    ensures enter { EnterLaw }
    ensures leave { LeaveLaw }
    ensures look { LookLaw }
    ensures leave_waiting { LeaveWaitingLaw }
    ensures look_waiting { LookWaitingLaw }
    ensures fill { FillLaw }
    ensures load_stamp { LoadStampLaw }
    ensures fix { FixLaw }
    ensures announce { AnnounceLaw }
    ensures take_back { TakeBackLaw }
    ensures look_ann { LookAnnLaw }
    ensures read_head { ReadHeadLaw }
    ensures read_number { ReadNumberLaw }
    ensures read_child { ReadChildLaw }
    ensures read_next { ReadNextLaw }
    ensures prepare { PrepareLaw }
    ensures finalise { FinaliseLaw }
    ensures lock { LockLaw }
    ensures unlock { UnlockLaw }
    ensures read_mark { ReadMarkLaw }
    ensures mark { MarkLaw }
    ensures cut { CutNeedLaw }
    ensures read_link { ReadLinkLaw }
    ensures set_link { SetLinkLaw }
    ensures read_tag { ReadTagLaw }
    ensures set_tag { SetTagLaw }
    ensures read_key { ReadKeyLaw }
    ensures read_val { ReadValLaw }
    ensures split { SplitLaw }
    ensures join { JoinLaw }
{}

/// What the wait of a removal may rely on, and what it is for. Its looks begin with none: inside a section a view has
/// none. While a view waits, as always, no event of another seat changes the lock, the mark, the heads, the plain links
/// or the tags of a node that the view has locked. A successor that was not the removed node's right child is unlinked
/// only when it is marked, its copy is linked, and every other pass was passed; and no look of the wait was made before
/// the copy was linked.
pub fn what_a_wait_keeps()
    ensures begins { NoLooksLaw }
    ensures stays { LockedStaysLaw }
    ensures unlinks { UnlinkLaw }
    ensures looks { LooksLastLaw }
{}

/// What a cut takes is read by nobody. The section number of a seat selects no entry after the one at which an allowed
/// cut is, in any bundle of the root or of a node that is not free; nor does a number from the stamp on, as each
/// section number is that a seat gets later.
pub fn cuts_take_nothing_read()
    ensures unread { UnreadLaw }
{}

/// Where the counts of a view rise. `busy` rises where a try of a lock finds the word held, which another pass then
/// holds; `waits` where a load of an entry's stamp finds 0 and the seat does not have the entry pending; `moves` where
/// a load of a head finds another entry than the one that the seat remembers, or one of a plain link or a tag another
/// word, and the seat did not store it, or where a load of a mark finds 1 on a node in reach, or one of the seat's
/// search, that is not among its retired ones; `looks` where a load of the stamp fixes a place. At every other event
/// the count stays. A seat with nothing pending, whose own updates are ones that its section number has, did not store
/// the other head. What an update took out is among the seat's retired nodes, and no node of the tree at the stamp is.
pub fn where_counts_rise()
    ensures counts { CountsLaw }
    ensures other_head { OtherHeadLaw }
    ensures taken { TakenLaw }
    ensures not_retired { TreeNotRetiredLaw }
{}

/// What a load finds. A seat with a section number has the nodes of a search tree, whose contents are the map after so
/// many updates. At a node of that tree the key and the value are the node's. The child at the entry whose number is at
/// most the section number, the null link where a head or a next is found 0, and each remembered link are the tree's,
/// and that entry is the selected one. A load of the stamp finds the whole history, of which the seat has seen a
/// beginning. A tree is determined by its list of nodes; a bundle has at most as many entries as the table.
/// Along a bundle the numbers fall: after an entry whose number was found to be above 0, a load of the next entry's
/// number finds one that is above 0 and smaller.
pub fn what_loads_find()
    ensures reads { ReadLaw }
    ensures stamp { StampLaw }
    ensures one_tree { OneTreeLaw }
    ensures bundle_length { BundleLengthLaw }
    ensures falls { FallsLaw }
{}

/// Who makes the counts of a view rise: another pass than the view's. A lock that is found held is one that a view of
/// another pass has locked; an entry that is found without a number is pending in one; another head than the remembered
/// one is pending in one, or its number is the place of an update of another pass; a node that is found marked waits in
/// the slots of one. A plain link is changed by the seat whose update has still to set it, and a tag by the one whose
/// update has still to raise it, under the lock of the node, or by the seat that fills the node, a free one of its own.
/// So another link or tag than the remembered one was stored since by such an event, of another seat or of this one. On
/// a table of one pass nothing of this is met, nor another plain link or tag than the seat remembers or has set itself;
/// and no count rises.
pub fn who_raises_counts()
    ensures changes { ChangesLaw }
    ensures others { OthersLaw }
    ensures nothing { NothingLaw }
    ensures alone { AloneLaw }
{}

/// No slot is lost. The nodes that all views own, free, retired or in a batch, and those of the tree at the stamp are
/// together as many as the layout has; and so are the entries that all views own with those of the bundles of the root
/// and of the tree's nodes.
pub fn slots_add_up()
    ensures sums { SlotSumLaw }
{}

/// Where plain links lead. Where no update has one still to set, the plain links spell the tree at the stamp, word for
/// word. Before that, too, a link of that tree that no update has still to set leads where the tree does. The tag of a
/// link of the tree is at most the greatest number of the link's bundle, and one that is still to be raised has room
/// for it.
pub fn where_plain_links_lead()
    ensures tree { PlainTreeLaw }
    ensures link { PlainLinkLaw }
    ensures tag { PlainTagLaw }
    ensures room { TagRoomLaw }
{}

/// What a search on plain links may rely on, while other seats set links and take nodes out. A link that it loads holds
/// a node of the table. It reaches no node that its own seat has taken out, and the keys that it has loaded are those
/// of the nodes. Where it stands at a node that is locked and unmarked, and the node of a turn is unmarked, the key
/// lies beyond that of the turn; and it does not come back to a locked and unmarked node at which it has turned, nor to
/// a locked one that leads there. A link that is loaded under the lock of an unmarked node is one of the tree at the
/// stamp; and where it is a null link at which the search has ended, each key between those of the turns is in its gap
/// there. The newest entry of such a node's bundle has its number. On a table of one pass nothing moves while a pass
/// searches.
pub fn what_searches_find()
    ensures link { LinkFoundLaw }
    ensures own { OwnLeftLaw }
    ensures keys { SearchKeysLaw }
    ensures beyond { BeyondLaw }
    ensures no_return { NoReturnLaw }
    ensures held { HeldLinkLaw }
    ensures null { NullLinkLaw }
    ensures head { HeadNumberedLaw }
    ensures alone { StillLaw }
{}
