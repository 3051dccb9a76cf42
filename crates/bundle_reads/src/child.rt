//! The child of a link of the tree that a pass reads, as the entries of the link's bundle give it.
ghost use Rattle.std.specs.Prelude.{◌≡◌, ◌<◌, IfSome, IfNone};
ghost use Rattle.table_steps.specs.Loads.{IsTreeLink};
ghost use Rattle.table_steps.specs.Passes.{IsSamePass, IsAlone};
ghost use Rattle.bundle_reads.specs.Links.{InsideAt, LeadsThere};
ghost use Rattle.bundle_reads.specs.Children.{waits_after, IsAtEntryOf, GoesAlong};
ghost use Rattle.bundle_reads.specs.Reads.{HasRead};

use core_trees::Link;
use table_steps::TablePass;

/// The result of a look at an entry of a link's bundle.
#[derive(Clone, Copy)]
pub(crate) enum Along {
    /// This entry gives the child, 0 for none.
    Found(u32),
    /// The next older entry, which is to be looked at; 0 after the last one.
    Next(u32),
    /// This entry has no number yet.
    Pending,
}

/// One look at an entry of a link's bundle: if its number is at most `at`, it gives the child.
fn look_along(pass: &mut TablePass<'_>, at: u64, link: Link, entry: u32) -> Along
    requires reads { InsideAt pass.old.view at }
    requires link { IsTreeLink pass.old.view link.node link.side }
    requires stands { IsAtEntryOf pass.old.view link entry }
    requires some { 0 < entry }
    ensures same { IsSamePass pass.old pass.new }
    ensures read { HasRead pass.old.view pass.new.view }
    ensures goes { GoesAlong pass.old.view pass.new.view link result }
{
    pass.facts();
    let number = pass.load_ts(entry);
    if number == 0 {
        return Along::Pending;
    }
    if number <= at {
        return Along::Found(pass.load_ptr(entry));
    }
    let next = pass.load_next(entry);
    Along::Next(next)
}

/// The child of a link of the tree that the pass reads at `at`, 0 for none. Of the link's entries, from the newest on,
/// the first one whose number is at most `at` has it. The numbers fall, so the loop ends. None if an entry had no
/// number yet: another pass has it pending, and the count of such entries has then risen.
///
/// It is built into its callers: a search makes it at each level, and a call there would store and load what the caller
/// keeps in registers.
#[inline(always)]
pub fn child_at(pass: &mut TablePass<'_>, at: u64, link: Link) -> Option<u32>
    requires reads { InsideAt pass.old.view at }
    requires link { IsTreeLink pass.old.view link.node link.side }
    ensures same { IsSamePass pass.old pass.new }
    ensures read { HasRead pass.old.view pass.new.view }
    ensures leads { IfSome result (LeadsThere pass.old.view link) }
    ensures waits { pass.new.view.counts.waits ≡ waits_after result pass.old.view.counts.waits }
    ensures alone { IfNone result (¬ IsAlone pass.new.view) }
{
    pass.facts();
    let mut entry = pass.load_head(link.node, link.side);
    'along: loop {
        if entry == 0 {
            return Some(0);
        }
        match look_along(pass, at, link, entry) {
            Along::Found(child) => return Some(child),
            Along::Pending => return None,
            Along::Next(next) => entry = next,
        }
    }
}
