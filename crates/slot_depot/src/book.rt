//! What a pass of the queue knows. Contracts and proofs alone speak of it: no value of it is made.

use std::collections::LinkedList;

/// How a depot was opened.
pub struct Terms {
    /// The index whose parcels it takes, as `Homed` names it.
    pub home: LinkedList<u64>,
    /// How many parcels it holds at most, and how many seats it has.
    pub room: u64,
    pub seats: u64,
}

/// The book of a seat.
pub struct Book {
    /// Whether the terms are those of the depot. They are not before it is opened, and after it is closed.
    pub opened: bool,
    pub terms: Terms,
    /// For how many seats it stands: one, or none for the depot's own book, or all while the depot is opened or closed.
    pub shares: u64,
    /// The tags of the parcels that were given and taken, in order.
    pub gave: LinkedList<u64>,
    pub took: LinkedList<u64>,
    /// How many looks have found the depot empty, and how many have found it full.
    pub empties: u64,
    pub fulls: u64,
}
