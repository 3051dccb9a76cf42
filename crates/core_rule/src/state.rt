// The state of the machine: its start, its step, and what can be read of it.
ghost use Rattle.std.specs.Prelude.{◌≡◌, ◌↔◌, ◌≤◌, All, OnOk, OnErr, IfOk, IsNone, IfSome, true, false, slice_index};
ghost use Rattle.std.specs.List.{slice_get};
ghost use Rattle.std.specs.Option.{option_copied};
ghost use Rattle.index_words.specs.Sizes.{FitTable, layout_of};
ghost use Rattle.index_words.specs.Words.{word_count};
ghost use Rattle.core_events.specs.Steps.{allowed, after};
ghost use Rattle.core_invariant.specs.Rule.{IsRight};
ghost use Rattle.core_invariant.specs.LinkLaw.{KeepsSelections};
ghost use Rattle.core_kept.specs.KeepsSeen.{KeepsSeen};
ghost use Rattle.core_kept.specs.SectionMoves.{MovesSections};
ghost use Rattle.core_invariant.specs.OwnPlaces.{KnowsPlaces};
ghost use Rattle.core_laws.specs.TreeLaw.{SpellsMap};
ghost use Rattle.core_laws.specs.Remembered.{KeepsRemembered, RemembersSelected};
ghost use Rattle.core_invariant.specs.FilledRule.{KnowsFilled};
ghost use Rattle.core_laws.specs.Owners.{KeepsOwners};
ghost use Rattle.core_events.specs.Openings.{opening};

use crate::opening::{opening_views, zeros};
use core_events::Event;
use index_words::{Layout, NoMemory, PassSize, View};
use machine_needs::needs::allowed_step;
use machine_steps::step::{change, store};
use std::alloc::Global;
use std::marker::Model;

/// A table as plain data, which meets the rule at every moment.
#[derive(Drop)]
pub struct State {
    layout: Layout,
    words: Vec<u64>,
    views: Vec<View>,
}

impl Model for State {
    ghost use Rattle.core_events.specs.Tables.{Table};

    ghost Value = { Table };

    ghost use Rattle.core_invariant.specs.Rule.{InRule};

    ghost view = { λ s. record { layout = s.layout; words = s.words.items; views = s.views.items } };

    ghost invariant = { λ s. InRule s.layout s.words.items s.views.items };
}

/// Why an event was refused. The state is then unchanged.
#[derive(Clone, Copy, Debug, PartialEq, Eq)]
pub enum StepError {
    /// The event's needs are not met.
    NotAllowed,
    NoMemory,
}

impl State {
    /// The word with this number. None exactly where the table has no such word.
    pub fn word(&self, word: u64) -> Option<u64>
        ensures none { IsNone result ↔ (word_count self.now.layout ≤ word) }
        ensures value { IfSome result (λ x. x ≡ slice_index self.now.words word) }
    {
        self.words.get(word as usize).copied()
    }

    /// The view of this seat. None exactly where there is no such seat.
    pub fn view(&self, seat: u32) -> Option<&View>
        ensures { option_copied result ≡ slice_get self.now.views seat }
    {
        self.views.get(seat as usize)
    }

    /// The state at the start: all words are 0, and there is one view per pass, with that pass's slots free and its
    /// calls left, and after them the emptied first view.
    pub fn start(alloc: Global, layout: &Layout, sizes: &[PassSize]) -> Result<State, NoMemory>
        requires fit { FitTable sizes.now }
        requires sums { layout.now ≡ layout_of sizes.now }
        ensures state { IfOk result (λ s. s ≡ opening layout.now sizes.now) }
        ensures rule { IfOk result IsRight }
    {
        let words = zeros(alloc, layout.word_count() as usize)?;
        let views = opening_views(alloc, layout, sizes)?;
        Ok(State {
            layout: *layout,
            words,
            views,
        })
    }

    /// Makes one step. It is refused exactly if the event's needs are not met, or when out of memory; the state is
    /// then unchanged. No word has changed that only another seat may change, and none that nobody may change. No
    /// event changes which entry of a bundle of the root, or of a node that is not free, is selected by the stamp
    /// before it or by a number that a seat reads at. At the stamp, and at each number that a seat reads at, the words
    /// spell a search tree whose contents are the map after so many updates. A seat that has not raised remembers a
    /// bundle's link as its number selects it, or as null without a number; if it finds the link's node unmarked and
    /// not locked by another, and the bundle's head as it was, the link is the same in the tree at the stamp. What a
    /// seat has filled in its section is what the word holds, as long as the slot is its own free one, or its own
    /// pending entry before the raise.
    ///
    /// No event makes what a seat has seen shorter; a load of the stamp makes it the whole history, a split copies it,
    /// and a join is given what the other seat had seen. An enter takes the own section word from even to odd, a leave
    /// from odd to even, and no event changes the section word of another pass, nor what another pass has announced.
    /// Each view knows the places of its own updates.
    pub fn step(&mut self, alloc: Global, event: &Event) -> Result<(), StepError>
        ensures ok { OnOk result ((allowed self.old event.now ≡ true) × (self.new ≡ after self.old event.now)) }
        ensures refused { (result ≡ Err StepError.NotAllowed) ↔ (allowed self.old event.now ≡ false) }
        ensures unchanged { OnErr result (self.new ≡ self.old) }
        ensures rule { IsRight self.new }
        ensures owners { KeepsOwners event.now.seat self.old self.new }
        ensures links { KeepsSelections self.old self.new }
        ensures seen { OnOk result (KeepsSeen self.old event.now self.new) }
        ensures sections { OnOk result (MovesSections self.old event.now self.new) }
        ensures places { All KnowsPlaces self.new.views }
        ensures trees { SpellsMap self.new }
        ensures selected { RemembersSelected self.new }
        ensures remembered { KeepsRemembered self.new }
        ensures filled { KnowsFilled self.new }
    {
        let Some(word) = self.layout.word_at(event.word) else {
            return Err(StepError::NotAllowed);
        };
        let Some(step) = allowed_step(
            &self.layout,
            self.words.as_slice(),
            self.views.as_slice(),
            word,
            event,
        ) else {
            return Err(StepError::NotAllowed);
        };
        if change(
            alloc,
            &self.layout,
            self.words.as_slice(),
            &mut self.views,
            event.seat,
            step,
        )
        .is_err()
        {
            return Err(StepError::NoMemory);
        }
        store(&mut self.words, event.word, step);
        Ok(())
    }
}
