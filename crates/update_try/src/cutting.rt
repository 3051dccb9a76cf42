//! Old entries are cut without an update, so that a pass which owns too few for one gets them back.
//!
//! The pass locks what a search has found and looks at it, as a try of a put does. Then it cuts the bundles of the
//! links there after the entries that are still read, gives the locks back, and leaves its section. Nothing is filled
//! and nothing is raised, so the map, the calls that are left and the free slots are unchanged. What was cut is
//! retired: it becomes free once each other pass was outside of a section.
ghost use Rattle.std.specs.Prelude.{◌≡◌, ◌≤◌, ℕ, List, Some};
ghost use Rattle.core_updates.specs.Plans.{locks_of};
ghost use Rattle.plan_laws.specs.Looks.{HasLookedAll, IsUnmarked};
ghost use Rattle.plan_laws.specs.Prunes.{IsCutting, KeepsPruned};
ghost use Rattle.plan_laws.specs.Releases.{IsReleasing};
ghost use Rattle.table_steps.specs.Passes.{AtRest, IsSamePass};
ghost use Rattle.update_search.specs.Aims.{IsAim};
ghost use Rattle.update_try.specs.Pruning.{IsLeast, IsPrunedAround, IsPrunedNode, KeepsApart, KeepsUpdate, walk_limit};

use crate::planning::validate;
use crate::pruning::{Least, longest_walk, prune_link};
use crate::release::{leave_section, unlock_all};
use core_trees::Link;
use core_updates::Plan;
use index_words::Side;
use table_steps::TablePass;
use update_search::Aim;

/// Cuts the bundles of both links of a node that is locked and unmarked.
fn cut_node(pass: &mut TablePass<'_>, node: u32, own: Least, longest: u32) -> Least
    requires cutting { (nodes : List ℕ) × IsCutting pass.old.view pass.old.number nodes }
    requires unmarked { IsUnmarked pass.old.view node }
    requires least { IsLeast pass.old.view own }
    ensures same { IsSamePass pass.old pass.new }
    ensures least { IsLeast pass.new.view result }
    ensures lower { result.number ≤ own.number }
    ensures pruned { IsPrunedNode pass.new.view node result.number longest }
    ensures others { KeepsApart pass.old.view node pass.new.view }
    ensures update { KeepsUpdate pass.old.view pass.new.view }
{
    let side = Side::Left;
    let least = prune_link(pass, Link { node, side }, own, longest);
    let side = Side::Right;
    prune_link(pass, Link { node, side }, least, longest)
}

/// Cuts the bundle of the link at which a search has ended, and those of the node that it has found there. `number` is
/// the one at which the pass reads.
fn cut_locked(pass: &mut TablePass<'_>, plan: &Plan, number: u64)
    requires looked { HasLookedAll pass.old.view pass.old.number plan.now }
    requires section { pass.old.view.reading.section ≡ Some number }
    ensures same { IsSamePass pass.old pass.new }
    ensures released { IsReleasing pass.new.view pass.new.number (locks_of plan.now) }
    ensures pruned { IsPrunedAround pass.new.view plan.now (walk_limit pass.new.view) }
    ensures keeps { KeepsPruned pass.old.view pass.new.view }
{
    let longest = longest_walk(pass);
    let own = Least {
        number,
        looked: false,
    };
    let least = prune_link(pass, plan.at(), own, longest);
    if let Plan::Replace(found) = plan {
        cut_node(pass, found.node, least, longest);
    }
}

/// Cuts, by one try, the bundle of the link at which a search has ended, and those of the node that it has found. The
/// aim is that of a put, of which nothing else is done; `number` is the one at which the pass reads. If a lock is held,
/// or what the search has found has changed, nothing is cut. It never waits, and the pass is at rest after it.
pub fn cut_found(pass: &mut TablePass<'_>, number: u64, aim: &Aim)
    requires aim { IsAim pass.old.view aim.now }
    requires section { pass.old.view.reading.section ≡ Some number }
    ensures same { IsSamePass pass.old pass.new }
    ensures rest { AtRest pass.new.view }
    ensures keeps { KeepsPruned pass.old.view pass.new.view }
{
    let Ok(plan) = validate(pass, aim) else {
        leave_section(pass);
        return;
    };
    cut_locked(pass, &plan, number);
    unlock_all(pass, plan.locks().as_slice());
    leave_section(pass);
}
