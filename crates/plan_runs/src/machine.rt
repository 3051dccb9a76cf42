// The state of the pure machine, by words with names.
ghost use Rattle.std.specs.Prelude.{◌≡◌};
ghost use Rattle.index_words.specs.Sizes.{FitTable, layout_of};

use core_rule::{Event, Kind, State, StepError};
use index_words::{Layout, NoMemory, PassSize, Update, View, Word};
use std::alloc::{AllocFailed, Global};

#[derive(Drop)]
pub(crate) struct Machine {
    pub(crate) state: State,
    pub(crate) layout: Layout,
    /// How many events there were.
    pub(crate) events: u64,
}

/// Why a run ends early.
#[derive(Clone, Copy)]
pub(crate) enum Stop {
    NoMemory,
    /// An event of this kind was not allowed.
    Refused(Kind),
    /// A link, a key or a value was not as the plan has it.
    Wrong,
}

impl From<NoMemory> for Stop {
    fn from(_cause: NoMemory) -> Stop {
        Stop::NoMemory
    }
}

impl<T: Drop> From<AllocFailed<T>> for Stop {
    fn from(_refused: AllocFailed<T>) -> Stop {
        Stop::NoMemory
    }
}

impl Machine {
    pub(crate) fn start(
        alloc: Global,
        layout: &Layout,
        sizes: &[PassSize],
    ) -> Result<Machine, NoMemory>
        requires fit { FitTable sizes.now }
        requires sums { layout.now ≡ layout_of sizes.now }
    {
        let state = State::start(alloc, layout, sizes)?;
        Ok(Machine {
            state,
            layout: *layout,
            events: 0,
        })
    }

    pub(crate) fn view(&self, seat: u32) -> Option<&View> {
        self.state.view(seat)
    }

    pub(crate) fn word(&self, word: Word) -> u64 {
        self.state.word(self.layout.address(word)).unwrap_or(0)
    }

    /// Makes one event, which is not a raise.
    pub(crate) fn step(
        &mut self,
        alloc: Global,
        seat: u32,
        kind: Kind,
        word: Word,
        value: u64,
    ) -> Result<(), Stop> {
        let layout = self.layout;
        self.event(
            alloc,
            &Event {
                seat,
                kind,
                word: layout.address(word),
                value,
                update: None,
            },
        )
    }

    pub(crate) fn raise(&mut self, alloc: Global, seat: u32, update: Update) -> Result<(), Stop> {
        let layout = self.layout;
        self.event(
            alloc,
            &Event {
                seat,
                kind: Kind::Raise,
                word: layout.address(Word::Stamp),
                value: 0,
                update: Some(update),
            },
        )
    }

    fn event(&mut self, alloc: Global, event: &Event) -> Result<(), Stop> {
        self.events = self.events.saturating_add(1);
        match self.state.step(alloc, event) {
            Ok(()) => Ok(()),
            Err(StepError::NotAllowed) => Err(Stop::Refused(event.kind)),
            Err(StepError::NoMemory) => Err(Stop::NoMemory),
        }
    }
}
