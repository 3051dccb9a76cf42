//! The wait of a removal whose successor hangs further down, and what comes after it.
//!
//! The removal has taken effect, and its copy of the successor is linked. The successor itself stays in its place until
//! each other pass was outside a section since, so that a pass on its way to it still finds it. The pass waits for that
//! outside of a section, with nothing announced and nothing pending: two such waits do not block each other, and no
//! reader, and no pass that cuts or settles, waits for this one.
ghost use Rattle.std.specs.Prelude.{◌≡◌, ◌<◌, Some};
ghost use Rattle.pass_slots.specs.Owned.{KeepsLooks};
ghost use Rattle.plan_laws.specs.Frames.{KeepsOwned};
ghost use Rattle.plan_laws.specs.Parting.{HasPassedAll};
ghost use Rattle.table_steps.specs.Passes.{AtRest, IsSamePass};
ghost use Rattle.update_try.specs.Parting.{EndsAs, HasParted};

use crate::waits::pause;
use pass_slots::Waits;
use std::sync::Wait;
use table_steps::TablePass;
use update_try::{Parted, unlink_successor};

/// Looks at another pass that was not passed.
fn look_at_other(pass: &mut TablePass<'_>, parted: &Parted, waits: &mut Waits, other: u32)
    requires parted { HasParted pass.old.view pass.old.number parted.now }
    requires there { other < pass.old.view.layout.passes }
    requires looks { KeepsLooks pass.old.view.update.waiting waits.old }
    ensures same { IsSamePass pass.old pass.new }
    ensures parted { HasParted pass.new.view pass.new.number parted.now }
    ensures looks { KeepsLooks pass.new.view.update.waiting waits.new }
    ensures keeps { KeepsOwned pass.old.view pass.new.view }
{
    pass.passes_fact();
    if pass.is_own(other) || waits.was_passed(other) {
        return;
    }
    let word = pass.look_waiting(other);
    waits.look_at(other, word);
}

/// Looks at each other pass that was not passed.
fn look_at_others(pass: &mut TablePass<'_>, parted: &Parted, waits: &mut Waits)
    requires parted { HasParted pass.old.view pass.old.number parted.now }
    requires looks { KeepsLooks pass.old.view.update.waiting waits.old }
    ensures same { IsSamePass pass.old pass.new }
    ensures parted { HasParted pass.new.view pass.new.number parted.now }
    ensures looks { KeepsLooks pass.new.view.update.waiting waits.new }
    ensures keeps { KeepsOwned pass.old.view pass.new.view }
{
    let passes = pass.passes();
    'others: for other in 0..passes {
        look_at_other(pass, parted, waits, other);
    }
}

/// Waits until each other pass was outside a section since the copy was linked.
fn wait_for_others<R: Wait>(pass: &mut TablePass<'_>, rt: &R, parted: &Parted)
    requires ends { EndsAs pass.old.view pass.old.number (Some parted.now) }
    ensures same { IsSamePass pass.old pass.new }
    ensures parted { HasParted pass.new.view pass.new.number parted.now }
    ensures passed { HasPassedAll pass.new.view }
    ensures keeps { KeepsOwned pass.old.view pass.new.view }
{
    let mut waits = Waits::none();
    'looks: for _ in rt.forever() {
        look_at_others(pass, parted, &mut waits);
        pass.passes_fact();
        if waits.is_done(pass.passes(), pass.client()) {
            return;
        }
        pause();
    }
    unreachable!()
}

/// Ends a removal that has taken effect: if its successor hangs further down, it waits, and unlinks it. The return
/// depends on the other passes: each has to be outside a section once.
pub(crate) fn end_removal<R: Wait>(pass: &mut TablePass<'_>, rt: &R, parted: Option<Parted>)
    requires ends { EndsAs pass.old.view pass.old.number parted }
    ensures same { IsSamePass pass.old pass.new }
    ensures rest { AtRest pass.new.view }
    ensures keeps { KeepsOwned pass.old.view pass.new.view }
{
    let Some(parted) = parted else {
        return;
    };
    wait_for_others(pass, rt, &parted);
    unlink_successor(pass, &parted);
}
