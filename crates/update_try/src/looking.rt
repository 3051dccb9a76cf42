//! What a try looks at under its locks. Each look is one load, or a few of one node; what it finds stays so until the
//! lock is given back.
ghost use Rattle.std.specs.Prelude.{◌≡◌, ℕ, ◌<◌, false, Option, IfOk, IfErr};
ghost use Rattle.index_words.specs.declared.side.Side.TheVariants.{Right};
ghost use Rattle.index_words.specs.declared.view.update.HeldNode.{HeldNode};
ghost use Rattle.key_map.specs.Lists.{count};
ghost use Rattle.core_events.specs.Searches.{key_found, search_nodes, searches_at};
ghost use Rattle.core_updates.specs.Held.{HasLoaded, HoldsGap, HoldsLink, RemembersGap};
ghost use Rattle.core_updates.specs.PlanEvents.{KnowsLink, KnowsTag};
ghost use Rattle.plan_laws.specs.Looks.{IsUnmarked, RemembersLink, RemembersNull};
ghost use Rattle.table_steps.specs.Passes.{IsAlone, IsSamePass};
ghost use Rattle.update_search.specs.Outcomes.{IsCounted};
ghost use Rattle.update_search.specs.Searching.{KeepsSearch};
ghost use Rattle.update_try.specs.Looking.{IsLockedBy, KnowsKey, LearnsAt, LearnsNothing};

use core_trees::Link;
use table_steps::TablePass;
use update_search::{Failed, Gap, search_laws};

/// Looks whether a node is still in the tree.
pub(crate) fn look_unmarked(pass: &mut TablePass<'_>, node: u32) -> Result<(), Failed>
    requires locked { IsLockedBy pass.old.view node }
    requires searched { 0 < count node (search_nodes 0 pass.old.view.reading) }
    ensures same { IsSamePass pass.old pass.new }
    ensures keeps { KeepsSearch pass.old.view pass.new.view }
    ensures reading { pass.new.view.reading ≡ pass.old.view.reading }
    ensures learns { LearnsNothing pass.old.view pass.new.view }
    ensures unmarked { IfOk result (λ done. IsUnmarked pass.new.view node) }
    ensures moved { IfErr result (λ failed. IsCounted failed pass.old.view pass.new.view) }
    ensures alone { IfErr result (λ failed. ¬ IsAlone pass.new.view) }
{
    search_laws();
    pass.facts();
    if pass.load_mark(node) {
        return Err(Failed::Moved);
    }
    Ok(())
}

/// Looks whether a link still leads to the child that the search has found there, 0 for none.
pub(crate) fn look_leads(pass: &mut TablePass<'_>, at: Link, child: u32) -> Result<(), Failed>
    requires locked { IsLockedBy pass.old.view at.node }
    requires unmarked { IsUnmarked pass.old.view at.node }
    requires root { at.node ≡ 0 → at.side ≡ Right }
    requires found { RemembersLink pass.old.view at child }
    requires first { ¬ KnowsLink pass.old.view at.node at.side }
    requires stays { searches_at pass.old.view.reading pass.old.view.reading.place at.node at.side ≡ false }
    ensures same { IsSamePass pass.old pass.new }
    ensures keeps { KeepsSearch pass.old.view pass.new.view }
    ensures reading { pass.new.view.reading ≡ pass.old.view.reading }
    ensures learns { LearnsAt at pass.old.view pass.new.view }
    ensures leads { IfOk result (λ done. HoldsLink pass.new.view at.node at.side child) }
    ensures moved { IfErr result (λ failed. IsCounted failed pass.old.view pass.new.view) }
    ensures alone { IfErr result (λ failed. ¬ IsAlone pass.new.view) }
{
    search_laws();
    pass.facts();
    if pass.load_link(at.node, at.side) != child {
        return Err(Failed::Moved);
    }
    Ok(())
}

/// Looks whether a link is still null, and has not become null again since the search has found it null.
pub(crate) fn look_at_gap(pass: &mut TablePass<'_>, gap: Gap) -> Result<(), Failed>
    requires locked { IsLockedBy pass.old.view gap.at.node }
    requires unmarked { IsUnmarked pass.old.view gap.at.node }
    requires root { gap.at.node ≡ 0 → gap.at.side ≡ Right }
    requires found { (above : Option ℕ) × (below : Option ℕ) × RemembersNull pass.old.view gap.at gap.tag above below }
    requires first_link { ¬ KnowsLink pass.old.view gap.at.node gap.at.side }
    requires first_tag { ¬ KnowsTag pass.old.view gap.at.node gap.at.side }
    requires stays { searches_at pass.old.view.reading pass.old.view.reading.place gap.at.node gap.at.side ≡ false }
    ensures same { IsSamePass pass.old pass.new }
    ensures keeps { KeepsSearch pass.old.view pass.new.view }
    ensures null { IfOk result (λ done. HoldsLink pass.new.view gap.at.node gap.at.side 0) }
    ensures gap { IfOk result (λ done. (key : ℕ) → RemembersGap pass.old.view gap.at.node gap.at.side gap.tag key → HoldsGap pass.new.view gap.at.node gap.at.side key) }
    ensures moved { IfErr result (λ failed. IsCounted failed pass.old.view pass.new.view) }
    ensures alone { IfErr result (λ failed. ¬ IsAlone pass.new.view) }
{
    search_laws();
    let Gap { at, tag, .. } = gap;
    look_leads(pass, at, 0)?;
    pass.facts();
    if pass.load_tag(at.node, at.side) != tag {
        return Err(Failed::Moved);
    }
    Ok(())
}

/// The key of a locked node.
pub(crate) fn look_key(pass: &mut TablePass<'_>, node: u32) -> u64
    requires locked { IsLockedBy pass.old.view node }
    ensures same { IsSamePass pass.old pass.new }
    ensures keeps { KeepsSearch pass.old.view pass.new.view }
    ensures reading { pass.new.view.reading ≡ record pass.old.view.reading { place = key_found node result pass.old.view.reading.place } }
    ensures learns { LearnsNothing pass.old.view pass.new.view }
    ensures key { HasLoaded pass.new.view node (λ (h : HeldNode). h.key) result }
    ensures known { (key : ℕ) → KnowsKey pass.old.view node key → result ≡ key }
{
    search_laws();
    pass.facts();
    pass.load_key(node)
}

/// The value of a locked node.
pub(crate) fn look_val(pass: &mut TablePass<'_>, node: u32) -> u64
    requires locked { IsLockedBy pass.old.view node }
    ensures same { IsSamePass pass.old pass.new }
    ensures keeps { KeepsSearch pass.old.view pass.new.view }
    ensures reading { pass.new.view.reading ≡ pass.old.view.reading }
    ensures learns { LearnsNothing pass.old.view pass.new.view }
    ensures val { HasLoaded pass.new.view node (λ (h : HeldNode). h.val) result }
{
    search_laws();
    pass.facts();
    pass.load_val(node)
}

/// Where a plain link of a locked node leads, 0 for none. A search that stands at the node goes on by the link.
pub(crate) fn look_link(pass: &mut TablePass<'_>, at: Link) -> u32
    requires locked { IsLockedBy pass.old.view at.node }
    requires unmarked { IsUnmarked pass.old.view at.node }
    requires root { at.node ≡ 0 → at.side ≡ Right }
    ensures same { IsSamePass pass.old pass.new }
    ensures keeps { KeepsSearch pass.old.view pass.new.view }
    ensures reading { searches_at pass.old.view.reading pass.old.view.reading.place at.node at.side ≡ false → pass.new.view.reading ≡ pass.old.view.reading }
    ensures learns { LearnsAt at pass.old.view pass.new.view }
    ensures leads { HoldsLink pass.new.view at.node at.side result }
{
    search_laws();
    pass.facts();
    pass.load_link(at.node, at.side)
}
