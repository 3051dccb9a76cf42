//! How a pass begins to search.
ghost use Rattle.table_steps.specs.Passes.{AtRest, IsSamePass};
ghost use Rattle.table_steps.specs.Stamps.{HasOpened};
ghost use Rattle.update_search.specs.Searching.{IsAtTop};

use table_steps::TablePass;

/// Opens a section, and answers the number at which the pass reads bundles in it: how many updates it has seen then. A
/// search does not use it; what the update cuts depends on it.
pub fn begin_search(pass: &mut TablePass<'_>) -> u64
    requires rest { AtRest pass.old.view }
    ensures same { IsSamePass pass.old pass.new }
    ensures opened { HasOpened pass.old 0 result pass.new.view }
    ensures top { IsAtTop pass.new.view }
{
    let number = pass.open_section();
    pass.facts();
    pass.number_fact();
    number
}
