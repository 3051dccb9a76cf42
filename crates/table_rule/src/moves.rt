//! One move of a word, which is one event of the pure machine.
ghost use Rattle.std.specs.Prelude.{◌≡◌, ◌+◌, Some};
ghost use Rattle.core_events.specs.declared.event.Kind.TheVariants.{Raise, TryLock};
ghost use Rattle.table_rule.specs.Homes.{Asks, IsOf, with_view};
ghost use Rattle.table_rule.specs.Running.{Happened, Stored, IsLoad, IsStore};

use crate::ruled::{RuledTable, TableSeat};
use atomic_table::Play;
use index_words::{Update, View, Word};
use std::marker::{Brand, PhantomData};

/// The event that a move is. Each call of a move picks it.
pub trait Asked {
    ghost use Rattle.core_events.specs.declared.event.Event.{Event};

    ghost event: { Event };
}

impl Asked for Brand {
    ghost use Rattle.std.specs.Prelude.{None};
    ghost use Rattle.core_events.specs.declared.event.Kind.TheVariants.{MakeSeat};

    ghost event = { record { seat = 0; kind = MakeSeat; word = 0; value = 0; update = None } };
}

/// What a load, or another move that finds the word, reports: the event, with the word found.
pub struct Found<E: Asked> {
    event: PhantomData<E>,
}

impl<E: Asked> Play<u8, View> for Found<E> {
    ghost use Rattle.std.specs.Prelude.{◌≡◌};
    ghost use Rattle.table_rule.specs.Running.{Happened};

    ghost then = { λ s m n w. (w.1 ≡ m.1) × Happened m.0.layout E.event m.0 n w.0 };
}

/// What a store reports: the event.
pub struct Puts<E: Asked> {
    event: PhantomData<E>,
}

impl<E: Asked> Play<u8, View> for Puts<E> {
    ghost use Rattle.std.specs.Prelude.{◌≡◌};
    ghost use Rattle.table_rule.specs.Running.{Stored};

    ghost then = { λ s m n w. (w.1 ≡ m.1) × Stored m.0.layout E.event m.0 w.0 };
}

impl RuledTable {
    /// Loads a word.
    pub fn load<E: Asked>(&self, seat: &mut TableSeat, word: Word) -> u64
        requires asks { Asks self.now seat.old word E.event }
        requires kind { IsLoad E.event.kind }
        ensures seat { seat.new ≡ with_view seat.old seat.new.view }
        ensures of { IsOf self.now seat.new }
        ensures event { Happened self.now.layout E.event seat.old.view result seat.new.view }
    {
        let at = self.layout.address(word) as usize;
        self.table.shared.load::<Found<E>>(&mut seat.seat, at)
    }

    /// Stores a value to a word.
    pub fn store<E: Asked>(&self, seat: &mut TableSeat, word: Word, value: u64)
        requires asks { Asks self.now seat.old word E.event }
        requires kind { IsStore E.event.kind }
        requires value { E.event.value ≡ value }
        ensures seat { seat.new ≡ with_view seat.old seat.new.view }
        ensures of { IsOf self.now seat.new }
        ensures event { Stored self.now.layout E.event seat.old.view seat.new.view }
    {
        let at = self.layout.address(word) as usize;
        self.table
            .shared
            .store::<Puts<E>>(&mut seat.seat, at, value);
    }

    /// Adds one to the stamp, and answers what it was. Only for a raise: the stamp is below its last value then. The
    /// update that is raised is needed for the event alone.
    pub fn add<E: Asked>(&self, seat: &mut TableSeat, update: &Update) -> u64
        requires asks { Asks self.now seat.old Word.Stamp E.event }
        requires kind { E.event.kind ≡ Raise }
        requires update { E.event.update ≡ Some update.now }
        ensures seat { seat.new ≡ with_view seat.old seat.new.view }
        ensures of { IsOf self.now seat.new }
        ensures event { Happened self.now.layout E.event seat.old.view result seat.new.view }
    {
        let _ = update;
        self.table
            .shared
            .fetch_add::<Found<E>>(&mut seat.seat, 0, 1)
    }

    /// Stores a value to a word where the word is 0, and answers what it was. Only for a try of a lock.
    pub fn exchange<E: Asked>(&self, seat: &mut TableSeat, word: Word, value: u64) -> u64
        requires asks { Asks self.now seat.old word E.event }
        requires kind { E.event.kind ≡ TryLock }
        requires value { E.event.value ≡ value }
        ensures seat { seat.new ≡ with_view seat.old seat.new.view }
        ensures of { IsOf self.now seat.new }
        ensures event { Happened self.now.layout E.event seat.old.view result seat.new.view }
    {
        let at = self.layout.address(word) as usize;
        self.table
            .shared
            .compare_exchange::<Found<E>>(&mut seat.seat, at, 0, value)
    }
}
