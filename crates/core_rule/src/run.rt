// Runs of the machine: the events one after another, up to the first that is refused.
ghost use Rattle.std.specs.Prelude.{◌≡◌, All, IfOk, IfErr, None};
ghost use Rattle.index_words.specs.Sizes.{FitTable, layout_of};
ghost use Rattle.core_events.specs.Openings.{opening};
ghost use Rattle.core_invariant.specs.Rule.{IsRight};
ghost use Rattle.core_invariant.specs.OwnPlaces.{KnowsPlaces};
ghost use Rattle.core_laws.specs.TreeLaw.{SpellsMap};
ghost use Rattle.core_laws.specs.Remembered.{KeepsRemembered, RemembersSelected};
ghost use Rattle.core_invariant.specs.FilledRule.{KnowsFilled};
ghost use Rattle.core_rule.specs.Runs.{after_all, first_refused, IsRefusal};

use crate::state::{State, StepError};
use core_events::Event;
use index_words::{Layout, PassSize};
use std::alloc::Global;

/// Why a run was refused.
#[derive(Clone, Copy, Debug, PartialEq, Eq)]
pub enum RunError {
    /// The event at this place is the first one that is not allowed. Places are counted from 0.
    NotAllowed(usize),
    NoMemory,
}

/// The state after the start and the step of every event, in order. Its words spell the maps that it stands for, and
/// its seats remember links and filled words as `State::step` says.
pub fn run_of(
    alloc: Global,
    layout: &Layout,
    sizes: &[PassSize],
    events: &[Event],
) -> Result<State, RunError>
    requires fit { FitTable sizes.now }
    requires sums { layout.now ≡ layout_of sizes.now }
    ensures allowed { IfOk result (λ s. first_refused (opening layout.now sizes.now) events.now ≡ None) }
    ensures state { IfOk result (λ s. s ≡ after_all (opening layout.now sizes.now) events.now) }
    ensures rule { IfOk result IsRight }
    ensures places { IfOk result (λ s. All KnowsPlaces s.views) }
    ensures trees { IfOk result SpellsMap }
    ensures selected { IfOk result RemembersSelected }
    ensures remembered { IfOk result KeepsRemembered }
    ensures filled { IfOk result KnowsFilled }
    ensures refused { IfErr result (IsRefusal (first_refused (opening layout.now sizes.now) events.now)) }
{
    let Ok(mut state) = State::start(alloc, layout, sizes) else {
        return Err(RunError::NoMemory);
    };
    for (place, event) in events.iter().enumerate() {
        match state.step(alloc, event) {
            Ok(()) => {}
            Err(StepError::NotAllowed) => return Err(RunError::NotAllowed(place)),
            Err(StepError::NoMemory) => return Err(RunError::NoMemory),
        }
    }
    Ok(state)
}
