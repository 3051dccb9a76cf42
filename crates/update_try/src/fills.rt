//! What a try fills into its free slots, and the entries that it puts in front of bundles.
ghost use Rattle.std.specs.Prelude.{◌≡◌, ◌+◌, length};
ghost use Rattle.core_events.specs.UpdateMoves.{prepared};
ghost use Rattle.core_laws.specs.ViewNeeds.{IsInside, MayFill, MayPrepare};
ghost use Rattle.core_updates.specs.PlanEvents.{HasSlots};
ghost use Rattle.core_updates.specs.Plans.{fronts_of};
ghost use Rattle.index_words.specs.declared.view.reading.Filled.{Filled as Fill};
ghost use Rattle.key_map.specs.Lists.{Every};
ghost use Rattle.plan_laws.specs.Answers.{owned_entries};
ghost use Rattle.plan_laws.specs.Fills.{AreApart, HasFilledAll, HasHeads, filled_all, fresh_fills, new_fills_of, next_fills};
ghost use Rattle.plan_laws.specs.Frames.{KeepsPass, KeepsTry};
ghost use Rattle.table_steps.specs.Passes.{IsSamePass};
ghost use Rattle.update_try.specs.Preparing.{HasPreparedAll};
ghost use Rattle.update_try.specs.Walked.{HasWalkedAll};

use core_updates::{Fresh, Front, Heads, NewNode, Plan, PlanSlots};
use index_words::Filled;
use table_steps::TablePass;

/// Fills these words of free slots.
fn fill_words(pass: &mut TablePass<'_>, fills: &[Filled])
    requires inside { IsInside pass.old.view }
    requires free { Every (λ (f : Fill). MayFill pass.old.view f.word) fills.now }
    ensures same { IsSamePass pass.old pass.new }
    ensures filled { pass.new.view ≡ filled_all pass.old.view fills.now }
{
    'words: for fill in fills {
        pass.facts();
        pass.fill_word(fill.word, fill.value);
    }
}

/// Fills the entry of a new node's link, if there is one.
fn fill_fresh(pass: &mut TablePass<'_>, fresh: Option<Fresh>)
    requires inside { IsInside pass.old.view }
    requires free { Every (λ (f : Fill). MayFill pass.old.view f.word) (fresh_fills fresh) }
    ensures same { IsSamePass pass.old pass.new }
    ensures filled { pass.new.view ≡ filled_all pass.old.view (fresh_fills fresh) }
{
    if let Some(fresh) = fresh {
        fill_words(pass, &fresh.fills());
    }
}

/// Fills a new node, if there is one, and the entries of its links.
fn fill_new(pass: &mut TablePass<'_>, node: Option<NewNode>)
    requires inside { IsInside pass.old.view }
    requires free { Every (λ (f : Fill). MayFill pass.old.view f.word) (new_fills_of node) }
    ensures same { IsSamePass pass.old pass.new }
    ensures filled { pass.new.view ≡ filled_all pass.old.view (new_fills_of node) }
{
    let Some(node) = node else {
        return;
    };
    fill_words(pass, &node.fills());
    fill_fresh(pass, node.left);
    fill_fresh(pass, node.right);
}

/// Fills an entry that is to be put in front of a bundle, if there is one. `behind` is the entry after it.
fn fill_front(pass: &mut TablePass<'_>, front: Option<Front>, behind: u32)
    requires inside { IsInside pass.old.view }
    requires free { Every (λ (f : Fill). MayFill pass.old.view f.word) (next_fills behind front) }
    ensures same { IsSamePass pass.old pass.new }
    ensures filled { pass.new.view ≡ filled_all pass.old.view (next_fills behind front) }
{
    if let Some(front) = front {
        fill_words(pass, &front.fills(behind));
    }
}

/// Fills the free slots that a plan takes: the new node first, then the entries in front of bundles. No other pass
/// reads them yet.
pub(crate) fn fill_all(pass: &mut TablePass<'_>, plan: &Plan, slots: &PlanSlots, heads: Heads)
    requires heads { HasHeads pass.old.view pass.old.number plan.now heads }
    requires free { HasSlots pass.old.view slots.now }
    requires apart { AreApart slots.now }
    ensures same { IsSamePass pass.old pass.new }
    ensures filled { HasFilledAll pass.new.view pass.new.number plan.now slots.now heads }
    ensures keeps { KeepsTry pass.old.view pass.new.view }
    ensures held { pass.new.view.held ≡ pass.old.view.held }
    ensures counts { pass.new.view.counts ≡ pass.old.view.counts }
{
    fill_new(pass, plan.new_node(slots));
    fill_front(pass, Some(plan.front(slots)), heads.at);
    fill_front(pass, plan.next_front(slots), heads.next);
}

/// Puts an entry in front of its bundle.
fn prepare_front(pass: &mut TablePass<'_>, front: &Front)
    requires may { MayPrepare pass.old.view front.now.at.node front.now.at.side front.now.entry }
    ensures same { IsSamePass pass.old pass.new }
    ensures view { pass.new.view ≡ prepared pass.old.view front.now.at.side front.now.at.node front.now.entry }
{
    pass.prepare(front.at.node, front.at.side, front.entry);
}

/// Puts the entries of a plan in front of their bundles, in the plan's order. Readers wait at them until they have
/// numbers.
pub(crate) fn prepare_all(pass: &mut TablePass<'_>, plan: &Plan, slots: &PlanSlots, heads: Heads)
    requires filled { HasFilledAll pass.old.view pass.old.number plan.now slots.now heads }
    requires walked { HasWalkedAll pass.old.view plan.now }
    requires apart { AreApart slots.now }
    ensures same { IsSamePass pass.old pass.new }
    ensures prepared { HasPreparedAll pass.new.view pass.new.number plan.now slots.now heads }
    ensures walked { HasWalkedAll pass.new.view plan.now }
    ensures keeps { KeepsPass pass.old.view pass.new.view }
    ensures counts { pass.new.view.counts ≡ pass.old.view.counts }
    ensures entries { owned_entries pass.new.view + length (fronts_of plan.now slots.now) ≡ owned_entries pass.old.view }
{
    pass.facts();
    prepare_front(pass, &plan.front(slots));
    if let Some(next) = plan.next_front(slots) {
        pass.facts();
        prepare_front(pass, &next);
    }
}
