// The plain links that an update changes: the one at which the search for its key ends and, if it removes a node
// with two children whose successor is not its own child, the link to the successor.
ghost use Rattle.std.specs.Prelude.{◌≡◌, ◌++◌, ◌∷◌, ◌&&◌, ◌==◌, [], IfOk, OnOk};
ghost use Rattle.std.specs.List.{list_all};
ghost use Rattle.index_words.specs.declared.side.Side.TheVariants.{Right};
ghost use Rattle.core_links.specs.Bundle.{child_of_entry};
ghost use Rattle.core_trees.specs.Search.{end_node, end_side};
ghost use Rattle.index_words.specs.declared.word.Part.TheVariants.{Child as ChildPart};
ghost use Rattle.index_words.specs.declared.word.Word.TheVariants.{Entry as EntryWord};
ghost use Rattle.core_events.specs.PlainWork.{first_node as first_slot_below, first_parent, first_rest, unset_at as unset_link, removed_links, removed_successor, made_null, plain_move as move_by};
ghost use Rattle.core_events.specs.TreeMoves.{is_plain_at as plain_side, is_plain_new as plain_node, sets_locked};
ghost use Rattle.machine_spelled.specs.Sights.{memory_of, seen};
ghost use Rattle.machine_spelled.specs.LinkPlans.{far_unset, far_unlinking, planned_links, owed_by, planned_move};

use crate::spelled_now::{Sight, field_of, part_of, top_of};
use crate::subtrees::{Subtree, top};
use crate::tree_steps::{end_link, found};
use core_events::PlainMove;
use core_events::reads::is_locked;
use core_trees::{Link, ROOT};
use index_words::{
    Change, Field, Items, NoMemory, OwedTag, Part, Side, Unlinking, UnsetLink, Update, View,
};
use std::alloc::Global;

/// The first node of a tree.
#[derive(Clone, Copy)]
struct FirstNode {
    slot: u32,
    /// The node whose left child it is.
    parent: u32,
    /// Its right child, 0 for none.
    rest: u32,
}

/// The link to a successor that is to be unlinked.
#[derive(Clone, Copy)]
pub(crate) struct FarLink {
    pub link: UnsetLink,
    pub unlinking: Unlinking,
}

/// The links that an update changes.
#[derive(Clone, Copy)]
pub(crate) struct LinkPlan {
    /// The link at which the search for the key ends.
    pub at: UnsetLink,
    pub far: Option<FarLink>,
}

/// The first node of the tree with this top and these children, which is the left child of `parent`.
fn first_node(sight: &Sight<'_>, parent: u32, slot: u32, left: Subtree, right: Subtree) -> FirstNode
    ensures slot { result.slot ≡ first_slot_below slot (seen sight.now left) }
    ensures parent { result.parent ≡ first_parent parent slot (seen sight.now left) }
    ensures rest { result.rest ≡ first_rest (seen sight.now left) (seen sight.now right) }
{
    let Some(node) = top(sight, left) else {
        return FirstNode {
            slot,
            parent,
            rest: top_of(sight, right.depth, right.child),
        };
    };
    first_node(sight, slot, node.slot, node.left, node.right)
}

/// A link that is to be set to this child.
fn unset_at(sight: &Sight<'_>, node: u32, side: Side, child: u64) -> UnsetLink
    ensures { result ≡ unset_link (memory_of sight.now) node side child }
{
    UnsetLink {
        node,
        side,
        was: field_of(sight, Field::Link(side), u64::from(node)),
        child,
    }
}

/// The link to the successor of the top of a tree, if the top has two children and the successor is neither of them.
fn far_link(sight: &Sight<'_>, tree: Subtree) -> Option<FarLink>
    ensures link { far_unset result ≡ removed_links (memory_of sight.now) (seen sight.now tree) }
    ensures unlinking { far_unlinking result ≡ removed_successor (seen sight.now tree) }
{
    let node = top(sight, tree)?;
    let _ = top(sight, node.left)?;
    let right = top(sight, node.right)?;
    let below = top(sight, right.left)?;
    let first = first_node(sight, right.slot, below.slot, below.left, below.right);
    Some(FarLink {
        link: unset_at(sight, first.parent, Side::Left, u64::from(first.rest)),
        unlinking: Unlinking {
            successor: first.slot,
            parent: first.parent,
            side: Side::Left,
            replaced: node.slot,
        },
    })
}

/// The links that an update changes in this tree. The search for the update's key ends at a link whose child after the
/// update is `slot`.
pub(crate) fn link_plan(sight: &Sight<'_>, tree: Subtree, update: Update, slot: u64) -> LinkPlan
    ensures { planned_move update.change result ≡ move_by (memory_of sight.now) update.change update.key slot (seen sight.now tree) }
{
    let top = Link {
        node: ROOT,
        side: Side::Right,
    };
    let link = end_link(sight, tree, update.key, top);
    let at = unset_at(sight, link.node, link.side, slot);
    let far = match update.change {
        Change::Put(_) => None,
        Change::Remove => far_link(sight, found(sight, tree, update.key)),
    };
    LinkPlan { at, far }
}

/// Whether the seat has locked the nodes of the links.
fn are_links_locked(view: &View, plan: LinkPlan) -> bool
    ensures { result ≡ list_all (sets_locked view.now) (planned_links plan) }
{
    let nodes = view.held.nodes.as_slice();
    let far = match plan.far {
        None => true,
        Some(far) => is_locked(nodes, far.link.node),
    };
    is_locked(nodes, plan.at.node) && far
}

/// The child of an entry, 0 for none.
fn child_by(sight: &Sight<'_>, entry: u64) -> u64
    ensures { result ≡ child_of_entry (λ e. memory_of sight.now (EntryWord ChildPart e)) entry }
{
    if entry == 0 {
        0
    } else {
        part_of(sight, Part::Child, entry)
    }
}

fn is_plain_at(sight: &Sight<'_>, node: u64, side: Side) -> bool
    ensures { result ≡ plain_side (memory_of sight.now) node side }
{
    let head = field_of(sight, Field::Head(side), node);
    field_of(sight, Field::Link(side), node) == child_by(sight, head)
        && field_of(sight, Field::Tag(side), node) == 0
}

/// Whether a new node has its children in its plain links, with tags of 0.
fn is_plain_new(sight: &Sight<'_>, added: Option<u64>) -> bool
    ensures { result ≡ plain_node (memory_of sight.now) added }
{
    match added {
        None => true,
        Some(node) => {
            is_plain_at(sight, node, Side::Left) && is_plain_at(sight, node, Side::Right)
        }
    }
}

/// Whether the seat has locked the nodes of the links, and a new node has its children in its plain links.
pub(crate) fn is_plain_step(
    sight: &Sight<'_>,
    view: &View,
    plan: LinkPlan,
    added: Option<u64>,
) -> bool
    ensures { result ≡ (list_all (sets_locked view.now) (planned_links plan) && plain_node (memory_of sight.now) added) }
{
    are_links_locked(view, plan) && is_plain_new(sight, added)
}

fn push_far(far: Option<FarLink>, unset: &mut Items<UnsetLink>) -> Result<(), NoMemory>
    ensures { OnOk result (unset.new ≡ unset.old ++ far_unset far) }
{
    match far {
        None => Ok(()),
        Some(far) => unset.push(far.link),
    }
}

/// Appends the tag of the link to the list if the link is to be null.
fn push_null(link: UnsetLink, owed: &mut Items<OwedTag>) -> Result<(), NoMemory>
    ensures { OnOk result (owed.new ≡ owed.old ++ made_null (link ∷ [])) }
{
    if link.child == 0 {
        return owed.push(OwedTag {
            node: link.node,
            side: link.side,
        });
    }
    Ok(())
}

fn owed_list(alloc: Global, change: Change, links: &[UnsetLink]) -> Result<Items<OwedTag>, NoMemory>
    ensures { IfOk result (λ owed. owed ≡ owed_by change links.now) }
{
    let mut owed = Items::new(alloc);
    if let Change::Remove = change {
        for link in links {
            push_null(*link, &mut owed)?;
        }
    }
    Ok(owed)
}

/// What is to be done to the links after the raise.
pub(crate) fn plain_move(
    alloc: Global,
    change: Change,
    plan: LinkPlan,
) -> Result<PlainMove, NoMemory>
    ensures { IfOk result (λ plain. plain ≡ planned_move change plan) }
{
    let mut unset = Items::new(alloc);
    unset.push(plan.at)?;
    push_far(plan.far, &mut unset)?;
    let owed = owed_list(alloc, change, unset.as_slice())?;
    Ok(PlainMove {
        unset,
        owed,
        unlinking: plan.far.map(|far| far.unlinking),
    })
}
