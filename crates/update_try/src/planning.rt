//! How a try gets from its aim to a plan: it locks the nodes that the update needs, each by one try, and looks at what
//! the search has found there. What the search has not loaded is loaded under the locks.
//!
//! No head is loaded before the last of these steps: the load of a head ends a search, and the walk to a successor is
//! one.
ghost use Rattle.std.specs.Prelude.{◌≡◌, ◌<◌, ◌≤◌, ◌++◌, ℕ, [], ◌∷◌, length, IfOk, IfErr};
ghost use Rattle.index_words.specs.declared.side.Side.TheVariants.{Left, Right};
ghost use Rattle.index_words.specs.declared.view.update.HeldNode.{HeldNode};
ghost use Rattle.core_updates.specs.declared.plan.Plan.TheVariants.{Lift};
ghost use Rattle.core_invariant.specs.Readers.{IsLocked};
ghost use Rattle.core_updates.specs.Held.{HasLoaded, HoldsLink};
ghost use Rattle.core_updates.specs.PlanEvents.{KnowsLink};
ghost use Rattle.core_updates.specs.Plans.{link_of};
ghost use Rattle.plan_laws.specs.Frames.{KeepsTry};
ghost use Rattle.plan_laws.specs.Looks.{HasLookedAll, IsUnmarked, KeepsLooks};
ghost use Rattle.plan_laws.specs.Tries.{IsTrying};
ghost use Rattle.table_steps.specs.Passes.{IsAlone, IsSamePass};
ghost use Rattle.update_search.specs.Aims.{HasStepped, IsAim, IsFoundFor};
ghost use Rattle.update_search.specs.Ends.{EndsMissing, IsFoundAt};
ghost use Rattle.update_search.specs.Outcomes.{IsCounted};
ghost use Rattle.update_search.specs.Searching.{KeepsSearch};
ghost use Rattle.update_search.specs.Turns.{turned_at};
ghost use Rattle.update_search.specs.declared.search.Aim.{Aim as Aimed};
ghost use Rattle.update_try.specs.Outcomes.{HasGivenUp};
ghost use Rattle.update_try.specs.Looking.{IsLockedBy, IsRightOf, KnowsKey, KnowsNothingAt, LearnsAt};
ghost use Rattle.update_try.specs.Planning.{FindsNext, FindsNode, HoldsNext, HoldsNode, IsNextAt, IsPlanOf, next_locks};

use crate::locking::{Locks, lock};
use crate::looking::{look_at_gap, look_key, look_leads, look_link, look_unmarked, look_val};
use crate::release::unlock_all;
use arrayvec::ArrayVec;
use core_trees::Link;
use core_updates::{GrowPlan, JoinPlan, LiftPlan, NextNode, Plan, ReplacePlan};
use index_words::{Pair, Side, Turn};
use table_steps::TablePass;
use update_search::{Aim, Failed, Gap, KeyNode, NextFound, Walk, find_next, search_laws};

/// The plan of a put of a key that the search has not found.
fn plan_grow(
    pass: &mut TablePass<'_>,
    locks: &mut Locks,
    pair: Pair,
    gap: Gap,
) -> Result<Plan, Failed>
    requires trying { IsTrying pass.old.view pass.old.number locks.old.items }
    requires none { locks.old.items ≡ [] }
    requires found { EndsMissing pass.old.view pair.key gap }
    ensures same { IsSamePass pass.old pass.new }
    ensures places { KeepsTry pass.old.view pass.new.view }
    ensures trying { IsTrying pass.new.view pass.new.number locks.new.items }
    ensures looked { IfOk result (HasLookedAll pass.new.view pass.new.number) }
    ensures plan { IfOk result (IsPlanOf (Aim.Grow pair gap)) }
    ensures waits { pass.new.view.counts.waits ≡ pass.old.view.counts.waits }
    ensures counted { IfErr result (λ failed. IsCounted failed pass.old.view pass.new.view) }
    ensures alone { IfErr result (λ failed. ¬ IsAlone pass.new.view) }
{
    search_laws();
    pass.facts();
    lock(pass, locks, gap.at.node)?;
    look_unmarked(pass, gap.at.node)?;
    look_at_gap(pass, gap)?;
    let at = gap.at;
    Ok(Plan::Grow(GrowPlan { pair, at }))
}

/// Looks at the key and at the left link of a node that is locked and unmarked. Answers the left child.
fn look_at_node(pass: &mut TablePass<'_>, node: u32) -> u32
    requires locked { IsLockedBy pass.old.view node }
    requires unmarked { IsUnmarked pass.old.view node }
    requires some { 0 < node }
    ensures same { IsSamePass pass.old pass.new }
    ensures keeps { KeepsSearch pass.old.view pass.new.view }
    ensures learns { LearnsAt (link_of node Left) pass.old.view pass.new.view }
    ensures key { (key : ℕ) → KnowsKey pass.old.view node key → HasLoaded pass.new.view node (λ (h : HeldNode). h.key) key }
    ensures left { HoldsLink pass.new.view node Left result }
    ensures reading { (key right : ℕ) → IsRightOf pass.old.view node key right → pass.new.view.reading ≡ pass.old.view.reading }
{
    search_laws();
    pass.facts();
    look_key(pass, node);
    let side = Side::Left;
    look_link(pass, Link { node, side })
}

/// Locks the key's node and its parent, and looks whether the node still hangs there. Answers its left child.
fn hold_node(pass: &mut TablePass<'_>, locks: &mut Locks, found: &KeyNode) -> Result<u32, Failed>
    requires trying { IsTrying pass.old.view pass.old.number locks.old.items }
    requires none { locks.old.items ≡ [] }
    requires found { (key : ℕ) × FindsNode pass.old.view key found.now }
    ensures same { IsSamePass pass.old pass.new }
    ensures places { KeepsTry pass.old.view pass.new.view }
    ensures trying { IsTrying pass.new.view pass.new.number locks.new.items }
    ensures looks { KeepsLooks pass.old.view pass.new.view }
    ensures waits { pass.new.view.counts.waits ≡ pass.old.view.counts.waits }
    ensures locks { IfOk result (λ left. locks.new.items ≡ found.now.at.node ∷ found.now.node ∷ []) }
    ensures right { IfOk result (λ left. ¬ KnowsLink pass.new.view found.now.node Right) }
    ensures stays { IfOk result (λ left. (key right : ℕ) → HasStepped pass.old.view key found.now right → pass.new.view.reading ≡ pass.old.view.reading) }
    ensures node { IfOk result (λ left. (key : ℕ) → FindsNode pass.old.view key found.now → HoldsNode pass.new.view key found.now left) }
    ensures counted { IfErr result (λ failed. IsCounted failed pass.old.view pass.new.view) }
    ensures alone { IfErr result (λ failed. ¬ IsAlone pass.new.view) }
{
    search_laws();
    pass.facts();
    let KeyNode { at, node, .. } = *found;
    lock(pass, locks, at.node)?;
    lock(pass, locks, node)?;
    look_unmarked(pass, at.node)?;
    look_leads(pass, at, node)?;
    look_unmarked(pass, node)?;
    Ok(look_at_node(pass, node))
}

/// The plan of a put of a key that the search has found.
fn plan_replace(
    pass: &mut TablePass<'_>,
    locks: &mut Locks,
    pair: Pair,
    found: &KeyNode,
) -> Result<Plan, Failed>
    requires trying { IsTrying pass.old.view pass.old.number locks.old.items }
    requires none { locks.old.items ≡ [] }
    requires found { IsFoundAt pass.old.view pair.key found.now }
    ensures same { IsSamePass pass.old pass.new }
    ensures places { KeepsTry pass.old.view pass.new.view }
    ensures trying { IsTrying pass.new.view pass.new.number locks.new.items }
    ensures looked { IfOk result (HasLookedAll pass.new.view pass.new.number) }
    ensures plan { IfOk result (IsPlanOf (Aim.Replace pair found.now)) }
    ensures waits { pass.new.view.counts.waits ≡ pass.old.view.counts.waits }
    ensures counted { IfErr result (λ failed. IsCounted failed pass.old.view pass.new.view) }
    ensures alone { IfErr result (λ failed. ¬ IsAlone pass.new.view) }
{
    search_laws();
    let left = hold_node(pass, locks, found)?;
    let node = found.node;
    let side = Side::Right;
    let right = look_link(pass, Link { node, side });
    Ok(Plan::Replace(ReplacePlan {
        pair,
        at: found.at,
        node: found.node,
        left,
        right,
    }))
}

/// Locks the successor and the node above it, and looks whether the successor still hangs there.
fn hold_far(pass: &mut TablePass<'_>, locks: &mut Locks, found: &NextFound) -> Result<(), Failed>
    requires trying { IsTrying pass.old.view pass.old.number locks.old.items }
    requires few { length locks.old.items ≤ 2 }
    requires found { (key : ℕ) × FindsNext pass.old.view key found.now }
    requires unlocked { ¬ IsLocked pass.old.view found.now.node }
    requires parent { ¬ IsLocked pass.old.view found.now.at.node }
    ensures same { IsSamePass pass.old pass.new }
    ensures trying { IsTrying pass.new.view pass.new.number locks.new.items }
    ensures places { KeepsTry pass.old.view pass.new.view }
    ensures looks { KeepsLooks pass.old.view pass.new.view }
    ensures waits { pass.new.view.counts.waits ≡ pass.old.view.counts.waits }
    ensures reading { pass.new.view.reading ≡ pass.old.view.reading }
    ensures first { IfOk result (λ done. KnowsNothingAt pass.new.view found.now.node) }
    ensures locks { IfOk result (λ done. locks.new.items ≡ locks.old.items ++ found.now.at.node ∷ found.now.node ∷ []) }
    ensures at { IfOk result (λ done. HoldsLink pass.new.view found.now.at.node found.now.at.side found.now.node) }
    ensures counted { IfErr result (λ failed. IsCounted failed pass.old.view pass.new.view) }
    ensures alone { IfErr result (λ failed. ¬ IsAlone pass.new.view) }
{
    search_laws();
    pass.facts();
    let at = found.at;
    lock(pass, locks, at.node)?;
    lock(pass, locks, found.node)?;
    look_unmarked(pass, at.node)?;
    look_leads(pass, at, found.node)?;
    Ok(())
}

/// Looks at the successor, which is locked: whether it is unmarked, and still has no left child.
fn look_next(pass: &mut TablePass<'_>, found: &NextFound) -> Result<NextNode, Failed>
    requires locked { IsLockedBy pass.old.view found.now.node }
    requires found { (key : ℕ) × FindsNext pass.old.view key found.now }
    requires at { HoldsLink pass.old.view found.now.at.node found.now.at.side found.now.node }
    requires first { KnowsNothingAt pass.old.view found.now.node }
    ensures same { IsSamePass pass.old pass.new }
    ensures looks { KeepsSearch pass.old.view pass.new.view }
    ensures is { IfOk result (IsNextAt found.now) }
    ensures next { IfOk result (λ next. (key : ℕ) → FindsNext pass.old.view key found.now → HoldsNext pass.new.view key next) }
    ensures counted { IfErr result (λ failed. IsCounted failed pass.old.view pass.new.view) }
    ensures alone { IfErr result (λ failed. ¬ IsAlone pass.new.view) }
{
    search_laws();
    pass.facts();
    let NextFound { at, node, gap } = *found;
    look_unmarked(pass, node)?;
    let key = look_key(pass, node);
    let val = look_val(pass, node);
    look_at_gap(pass, gap)?;
    let side = Side::Right;
    let right = look_link(pass, Link { node, side });
    Ok(NextNode {
        at,
        node,
        pair: Pair { key, val },
        right,
    })
}

/// Locks the successor and its parent, unless the parent is the node that is to be removed, which is locked already.
/// Looks whether the successor still hangs there, and still has no left child.
fn hold_next(
    pass: &mut TablePass<'_>,
    locks: &mut Locks,
    removed: u32,
    found: &NextFound,
) -> Result<NextNode, Failed>
    requires trying { IsTrying pass.old.view pass.old.number locks.old.items }
    requires few { length locks.old.items ≤ 2 }
    requires found { (key : ℕ) × FindsNext pass.old.view key found.now }
    requires unlocked { ¬ IsLocked pass.old.view found.now.node }
    requires near { found.now.at.node ≡ removed → HoldsLink pass.old.view found.now.at.node found.now.at.side found.now.node }
    requires far { ¬ (found.now.at.node ≡ removed) → ¬ IsLocked pass.old.view found.now.at.node }
    ensures same { IsSamePass pass.old pass.new }
    ensures trying { IsTrying pass.new.view pass.new.number locks.new.items }
    ensures places { KeepsTry pass.old.view pass.new.view }
    ensures looks { KeepsLooks pass.old.view pass.new.view }
    ensures waits { pass.new.view.counts.waits ≡ pass.old.view.counts.waits }
    ensures locks { IfOk result (λ next. locks.new.items ≡ locks.old.items ++ next_locks removed next) }
    ensures is { IfOk result (IsNextAt found.now) }
    ensures next { IfOk result (λ next. (key : ℕ) → FindsNext pass.old.view key found.now → HoldsNext pass.new.view key next) }
    ensures counted { IfErr result (λ failed. IsCounted failed pass.old.view pass.new.view) }
    ensures alone { IfErr result (λ failed. ¬ IsAlone pass.new.view) }
{
    search_laws();
    if found.at.node == removed {
        lock(pass, locks, found.node)?;
        let next = look_next(pass, found)?;
        return Ok(next);
    }
    hold_far(pass, locks, found)?;
    let next = look_next(pass, found)?;
    Ok(next)
}

/// The walk to the successor of a node whose right child is `right`.
fn walk_from(key: u64, found: &KeyNode, right: u32) -> Walk
    ensures at { result.at ≡ link_of found.now.node Right }
    ensures node { result.node ≡ right }
    ensures turns { result.turns ≡ turned_at Right (record { node = found.now.node; key = key }) found.now.turns }
{
    let node = found.node;
    let at = Link {
        node,
        side: Side::Right,
    };
    Walk {
        at,
        node: right,
        turns: found.turns.with(Side::Right, Turn { node, key }),
    }
}

/// The plan of a removal of a node with at most one child. The child may be on either side.
fn plan_lift(key: u64, found: &KeyNode, bare: Side, child: u32) -> Plan
    ensures { result ≡ Lift (record { key = key; at = found.now.at; node = found.now.node; bare = bare; child = child }) }
{
    Plan::Lift(LiftPlan {
        key,
        at: found.at,
        node: found.node,
        bare,
        child,
    })
}

/// The plan of a removal of a key that the search has found.
fn plan_removal(
    pass: &mut TablePass<'_>,
    locks: &mut Locks,
    key: u64,
    found: &KeyNode,
    right: u32,
) -> Result<Plan, Failed>
    requires trying { IsTrying pass.old.view pass.old.number locks.old.items }
    requires none { locks.old.items ≡ [] }
    requires found { HasStepped pass.old.view key found.now right }
    ensures same { IsSamePass pass.old pass.new }
    ensures places { KeepsTry pass.old.view pass.new.view }
    ensures trying { IsTrying pass.new.view pass.new.number locks.new.items }
    ensures looked { IfOk result (HasLookedAll pass.new.view pass.new.number) }
    ensures plan { IfOk result (IsPlanOf (Aim.Remove key found.now right)) }
    ensures waits { pass.new.view.counts.waits ≡ pass.old.view.counts.waits }
    ensures counted { IfErr result (λ failed. IsCounted failed pass.old.view pass.new.view) }
    ensures alone { IfErr result (λ failed. ¬ IsAlone pass.new.view) }
{
    search_laws();
    let left = hold_node(pass, locks, found)?;
    let node = found.node;
    let side = Side::Right;
    look_leads(pass, Link { node, side }, right)?;
    if left == 0 {
        return Ok(plan_lift(key, found, Side::Left, right));
    }
    if right == 0 {
        return Ok(plan_lift(key, found, Side::Right, left));
    }
    let next = find_next(pass, walk_from(key, found, right))?;
    let next = hold_next(pass, locks, node, &next)?;
    Ok(Plan::Join(JoinPlan {
        key,
        at: found.at,
        node,
        left,
        right,
        next,
    }))
}

/// The plan that carries the aim out. On failure the locks that were taken are still held.
fn plan_aim(pass: &mut TablePass<'_>, locks: &mut Locks, aim: &Aim) -> Result<Plan, Failed>
    requires trying { IsTrying pass.old.view pass.old.number locks.old.items }
    requires none { locks.old.items ≡ [] }
    requires found { IsFoundFor pass.old.view aim.now }
    ensures same { IsSamePass pass.old pass.new }
    ensures places { KeepsTry pass.old.view pass.new.view }
    ensures trying { IsTrying pass.new.view pass.new.number locks.new.items }
    ensures looked { IfOk result (HasLookedAll pass.new.view pass.new.number) }
    ensures plan { IfOk result (IsPlanOf aim.now) }
    ensures waits { pass.new.view.counts.waits ≡ pass.old.view.counts.waits }
    ensures counted { IfErr result (λ failed. IsCounted failed pass.old.view pass.new.view) }
    ensures alone { IfErr result (λ failed. ¬ IsAlone pass.new.view) }
{
    match aim {
        Aim::Grow { pair, gap } => plan_grow(pass, locks, *pair, *gap),
        Aim::Replace { pair, found } => plan_replace(pass, locks, *pair, found),
        Aim::Remove { key, found, right } => plan_removal(pass, locks, *key, found, *right),
    }
}

/// The plan that carries the aim out, with its nodes locked, and found to be as the search has found them. If that
/// fails the locks are given back.
pub fn validate(pass: &mut TablePass<'_>, aim: &Aim) -> Result<Plan, Failed>
    requires aim { IsAim pass.old.view aim.now }
    ensures same { IsSamePass pass.old pass.new }
    ensures looked { IfOk result (HasLookedAll pass.new.view pass.new.number) }
    ensures plan { IfOk result (IsPlanOf aim.now) }
    ensures keeps { IfOk result (λ plan. KeepsTry pass.old.view pass.new.view) }
    ensures waits { IfOk result (λ plan. pass.new.view.counts.waits ≡ pass.old.view.counts.waits) }
    ensures given_up { IfErr result (λ failed. HasGivenUp pass.old.view pass.old.number pass.new.view) }
    ensures counted { IfErr result (λ failed. IsCounted failed pass.old.view pass.new.view) }
    ensures alone { IfErr result (λ failed. ¬ IsAlone pass.new.view) }
{
    pass.number_fact();
    let mut locks = ArrayVec::new();
    let made = plan_aim(pass, &mut locks, aim);
    if made.is_err() {
        unlock_all(pass, &locks);
    }
    made
}
