//! How a try locks nodes.
ghost use Rattle.std.specs.Prelude.{◌≡◌, ◌<◌, ◌++◌, [], ◌∷◌, IfOk, IfErr};
ghost use Rattle.arrayvec.specs.ArrayVec.{array_vec_len};
ghost use Rattle.key_map.specs.Lists.{count};
ghost use Rattle.core_events.specs.Searches.{search_nodes};
ghost use Rattle.core_invariant.specs.Readers.{IsLocked};
ghost use Rattle.plan_laws.specs.Frames.{KeepsTry};
ghost use Rattle.plan_laws.specs.Looks.{KeepsLooks};
ghost use Rattle.plan_laws.specs.Tries.{IsTrying};
ghost use Rattle.table_steps.specs.Passes.{IsAlone, IsSamePass};
ghost use Rattle.update_search.specs.Outcomes.{IsCounted};
ghost use Rattle.update_try.specs.Looking.{LearnsNothing};

use arrayvec::ArrayVec;
use table_steps::TablePass;
use update_search::{Failed, search_laws};

/// The nodes that a try has locked, in their order.
pub(crate) type Locks = ArrayVec<u32, 4>;

/// Locks a node, by one try.
pub(crate) fn lock(pass: &mut TablePass<'_>, locks: &mut Locks, node: u32) -> Result<(), Failed>
    requires searched { 0 < count node (search_nodes 0 pass.old.view.reading) }
    requires unlocked { ¬ IsLocked pass.old.view node }
    requires trying { IsTrying pass.old.view pass.old.number locks.old.items }
    requires few { array_vec_len locks.old < 4 }
    ensures same { IsSamePass pass.old pass.new }
    ensures keeps { KeepsTry pass.old.view pass.new.view }
    ensures looks { KeepsLooks pass.old.view pass.new.view }
    ensures waits { pass.new.view.counts.waits ≡ pass.old.view.counts.waits }
    ensures reading { pass.new.view.reading ≡ pass.old.view.reading }
    ensures learns { LearnsNothing pass.old.view pass.new.view }
    ensures trying { IsTrying pass.new.view pass.new.number locks.new.items }
    ensures one_more { IfOk result (λ done. locks.new.items ≡ locks.old.items ++ node ∷ []) }
    ensures none { IfErr result (λ failed. locks.new ≡ locks.old) }
    ensures busy { IfErr result (λ failed. IsCounted failed pass.old.view pass.new.view) }
    ensures alone { IfErr result (λ failed. ¬ IsAlone pass.new.view) }
{
    search_laws();
    pass.facts();
    if !pass.try_lock(node) {
        return Err(Failed::Busy);
    }
    locks.push(node);
    Ok(())
}
