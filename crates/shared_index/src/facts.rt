//! What the rule of the running table says of a pass between two calls.
ghost use Rattle.std.specs.Prelude.{◌≡◌, None};
ghost use Rattle.key_map.specs.History.{own_places};
ghost use Rattle.table_steps.specs.Passes.{AtRest};

use table_steps::TablePass;

/// The pass's own updates stand at its own places in what it has seen, and at rest no snapshot is open. The call does
/// nothing.
pub(crate) fn own_facts(pass: &TablePass<'_>)
    ensures own { pass.now.view.history.mine ≡ own_places pass.now.number pass.now.view.history.seen }
    ensures closed { AtRest pass.now.view → pass.now.view.reading.opened ≡ None }
{
    pass.facts();
    pass.number_fact();
}
