//! The entries of a bundle of a locked node that a raise or a cut retires. The pass has to find each of them.
ghost use Rattle.std.specs.Prelude.{◌≡◌, ℕ, List};
ghost use Rattle.plan_laws.specs.Frames.{KeepsTry};
ghost use Rattle.plan_laws.specs.Looks.{KeepsLooks};
ghost use Rattle.plan_laws.specs.Tries.{KeepsTrying};
ghost use Rattle.table_steps.specs.Passes.{IsSamePass};
ghost use Rattle.table_steps.specs.Raises.{HoldsChain};
ghost use Rattle.update_try.specs.Pruning.{KeepsLeast, KeepsUpdate};
ghost use Rattle.update_try.specs.Walked.{HoldsPart, KeepsNexts, StandsOn};

use core_trees::Link;
use table_steps::TablePass;

/// Walks along a bundle of a locked node, from the entry at which the pass stands to its end. No other pass changes its
/// nexts, and it has at most as many entries as the table.
pub(crate) fn walk_along(pass: &mut TablePass<'_>, at: Link, first: u32)
    requires stands { (head : ℕ) × (front : List ℕ) × StandsOn pass.old.view at head first × HoldsPart pass.old.view at.node head front first }
    ensures same { IsSamePass pass.old pass.new }
    ensures chain { (es : List ℕ) × HoldsChain pass.new.view at.node first es }
    ensures looks { KeepsLooks pass.old.view pass.new.view }
    ensures nexts { KeepsNexts pass.old.view pass.new.view }
    ensures keeps { KeepsTry pass.old.view pass.new.view }
    ensures trying { KeepsTrying pass.old.view pass.new.view }
    ensures counts { pass.new.view.counts ≡ pass.old.view.counts }
    ensures update { KeepsUpdate pass.old.view pass.new.view }
    ensures least { KeepsLeast pass.old.view pass.new.view }
    ensures held { pass.new.view.held.nodes ≡ pass.old.view.held.nodes }
{
    let mut entry = first;
    'along: while entry != 0 {
        pass.facts();
        entry = pass.load_next(entry);
    }
}
