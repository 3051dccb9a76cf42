//! How the locks of an update are given back, at its end and after a try that fails.
ghost use Rattle.std.specs.Prelude.{◌≡◌, []};
ghost use Rattle.plan_laws.specs.Frames.{KeepsOwned};
ghost use Rattle.plan_laws.specs.Releases.{IsReleasing};
ghost use Rattle.table_steps.specs.Passes.{AtRest, IsSamePass};

use table_steps::TablePass;

/// Gives back the locks of these nodes, in their order.
pub fn unlock_all(pass: &mut TablePass<'_>, nodes: &[u32])
    requires locked { IsReleasing pass.old.view pass.old.number nodes.now }
    ensures same { IsSamePass pass.old pass.new }
    ensures none { IsReleasing pass.new.view pass.new.number [] }
    ensures keeps { KeepsOwned pass.old.view pass.new.view }
{
    'locks: for node in nodes {
        pass.unlock(*node);
    }
}

/// Leaves the section, with no lock held, and takes the announcement back.
pub fn leave_section(pass: &mut TablePass<'_>)
    requires released { IsReleasing pass.old.view pass.old.number [] }
    ensures same { IsSamePass pass.old pass.new }
    ensures rest { AtRest pass.new.view }
    ensures keeps { KeepsOwned pass.old.view pass.new.view }
{
    pass.close_section();
}
