//! The rule of the queue, and what each step on it shows.

use crate::book::Book;
use bucket_terms::Tagged;
use crossbeam_queue::protocol::{Join, Lesson, Outcome, Protocol, Split};
use crossbeam_queue::{Pass, RuledArrayQueue};
use std::marker::{Brand, PhantomData};

/// The rule that the books balance.
pub struct Even<T> {
    parcel: PhantomData<T>,
}

impl<T: Tagged> Protocol<T, Book> for Even<T> {
    ghost use Rattle.slot_depot.specs.Books.{Ruled, unopened};

    ghost holds = { Ruled T.home T.tag };

    ghost first = { unopened };
}

pub type ParcelQueue<T> = RuledArrayQueue<T, Book, Even<T>>;

pub type ParcelPass<T> = Pass<T, Book>;

/// A parcel was given, or the depot was full.
pub struct Gives<T> {
    parcel: PhantomData<T>,
}

impl<T: Tagged> Outcome<T, Book> for Gives<T> {
    ghost use Rattle.std.specs.Prelude.{◌≡◌};
    ghost use Rattle.slot_depot.specs.Books.{with_given};

    ghost then = { λ b x after. after ≡ with_given (T.tag x) b };
}

impl<T: Tagged> Lesson<T, Book> for Gives<T> {
    ghost use Rattle.slot_depot.specs.Books.{Shows};

    ghost fact = { Shows T.home T.tag };
}

/// A parcel was taken, or the depot was empty.
pub struct Takes<T> {
    parcel: PhantomData<T>,
}

impl<T: Tagged> Outcome<T, Book> for Takes<T> {
    ghost use Rattle.slot_depot.specs.Books.{HasTaken};

    ghost then = { HasTaken T.home T.tag };
}

impl<T: Tagged> Lesson<T, Book> for Takes<T> {
    ghost use Rattle.slot_depot.specs.Books.{Shows};

    ghost fact = { Shows T.home T.tag };
}

/// How a depot is opened.
pub trait Opening {
    ghost use Rattle.slot_depot.specs.declared.book.Terms.{Terms};

    ghost terms: { Terms };
}

impl Opening for Brand {
    ghost use Rattle.slot_depot.specs.Books.{terms_for};
    ghost use Rattle.std.specs.Prelude.{[]};

    ghost terms = { terms_for [] 0 0 };
}

/// The first book gets the depot's terms, and stands for all its seats.
pub struct Opens<O: Opening> {
    opening: PhantomData<O>,
}

impl<O: Opening> Split<Book> for Opens<O> {
    ghost use Rattle.std.specs.Prelude.{true};
    ghost use Rattle.slot_depot.specs.Books.{empty_book, spent};

    ghost left = { λ _. empty_book true O.terms O.terms.seats };

    ghost right = { λ _. spent };
}

/// A seat is dealt out of a book that stands for several.
pub struct Deals;

impl Split<Book> for Deals {
    ghost use Rattle.std.specs.Prelude.{◌-◌, true};
    ghost use Rattle.slot_depot.specs.Books.{empty_book};

    ghost left = { λ b. record b { shares = b.shares - 1 } };

    ghost right = { λ b. empty_book true b.terms 1 };
}

/// A look has found the depot empty.
pub struct NotesEmpty;

impl Split<Book> for NotesEmpty {
    ghost use Rattle.slot_depot.specs.Books.{with_empty, spent};

    ghost left = { with_empty };

    ghost right = { λ _. spent };
}

/// A look has found the depot full.
pub struct NotesFull;

impl Split<Book> for NotesFull {
    ghost use Rattle.slot_depot.specs.Books.{with_full, spent};

    ghost left = { with_full };

    ghost right = { λ _. spent };
}

/// Two books are put together.
pub struct PutsTogether;

impl Join<Book> for PutsTogether {
    ghost use Rattle.slot_depot.specs.Books.{both_books, spent};

    ghost both = { both_books };

    ghost spent = { spent };
}
