// Calls of a pass as rows, each with the answer that it is to have.
ghost use Rattle.std.specs.Prelude.{◌≡◌, None, IsSome};

use crate::set_up::{put, remove};
use crate::tested_pass::TestedPass;
use bucket_terms::KeyPass;
use index_words::Pair;
use key_map::{Done, New, PassError};
use shared_index::{Look, Settling, Try};
use std::sync::Wait;

/// A call of a pass that has no snapshot open, and the answer that it is to have.
#[derive(Clone, Copy)]
pub(crate) enum Row {
    Put(u64, u64, Result<Done, PassError>),
    PutNew(u64, u64, Result<New, PassError>),
    Remove(u64, Result<Done, PassError>),
    TryPut(u64, u64, Result<Try, PassError>),
    TrySettle(Settling),
    /// The pass gathers entries.
    Gather,
    /// The first pair from a key on, in a snapshot of its own.
    First(u64, Option<Pair>),
    /// The number of the pass.
    Client(u32),
}

/// A put that is made only where its key is not there, which leaves no snapshot open.
fn put_new<P: KeyPass, R: Wait>(
    rt: &R,
    pass: &mut P,
    line: u32,
    key: u64,
    val: u64,
) -> Result<New, PassError>
    requires closed { (P.view pass.old).opened ≡ None }
    ensures closed { (P.view pass.new).opened ≡ None }
    ensures number { (P.view pass.new).number ≡ (P.view pass.old).number }
    ensures home { P.home pass.new ≡ P.home pass.old }
{
    match pass.put_new(rt, line, key, val) {
        Ok(New::Made { at }) => Ok(New::Made { at }),
        Ok(New::Kept { at }) => Ok(New::Kept { at }),
        Err(error) => Err(error),
    }
}

/// The pass gathers entries, and leaves no snapshot open.
fn gather<P: KeyPass, R: Wait>(rt: &R, pass: &mut P) -> bool
    requires closed { (P.view pass.old).opened ≡ None }
    ensures closed { (P.view pass.new).opened ≡ None }
    ensures number { (P.view pass.new).number ≡ (P.view pass.old).number }
    ensures home { P.home pass.new ≡ P.home pass.old }
{
    pass.gather(rt);
    true
}

/// What a look finds if this is the first pair.
fn look_of(pair: Option<Pair>) -> Look {
    match pair {
        Some(pair) => Look::Found(pair),
        None => Look::Nothing,
    }
}

/// Whether the open snapshot has this first pair from the key on, by a read and by a single look.
pub(crate) fn shows<P: TestedPass, R: Wait>(
    rt: &R,
    pass: &mut P,
    key: u64,
    pair: Option<Pair>,
) -> bool
    requires open { IsSome (P.view pass.old).opened }
    ensures same { P.view pass.new ≡ P.view pass.old }
    ensures home { P.home pass.new ≡ P.home pass.old }
{
    let read = pass.next_from(rt, key);
    let look = pass.find_by_look(key);
    read == pair && look == look_of(pair)
}

/// Whether a snapshot that is opened now has this first pair from the key on.
fn has_first<P: TestedPass, R: Wait>(rt: &R, pass: &mut P, key: u64, pair: Option<Pair>) -> bool
    requires closed { (P.view pass.old).opened ≡ None }
    ensures closed { (P.view pass.new).opened ≡ None }
    ensures number { (P.view pass.new).number ≡ (P.view pass.old).number }
    ensures home { P.home pass.new ≡ P.home pass.old }
{
    pass.begin();
    let is_shown = shows(rt, pass, key, pair);
    pass.end();
    is_shown
}

/// Makes the row's call for the request line. Returns whether it has the row's answer.
fn has_answer<P: TestedPass, R: Wait>(rt: &R, pass: &mut P, line: u32, row: &Row) -> bool
    requires closed { (P.view pass.old).opened ≡ None }
    ensures closed { (P.view pass.new).opened ≡ None }
    ensures number { (P.view pass.new).number ≡ (P.view pass.old).number }
    ensures home { P.home pass.new ≡ P.home pass.old }
{
    match *row {
        Row::Put(key, val, answer) => put(rt, pass, line, key, val) == answer,
        Row::PutNew(key, val, answer) => put_new(rt, pass, line, key, val) == answer,
        Row::Remove(key, answer) => remove(rt, pass, line, key) == answer,
        Row::TryPut(key, val, answer) => pass.put_by_try(line, key, val) == answer,
        Row::TrySettle(answer) => pass.settle_by_try() == answer,
        Row::Gather => gather(rt, pass),
        Row::First(key, answer) => has_first(rt, pass, key, answer),
        Row::Client(answer) => pass.client() == answer,
    }
}

/// Whether all rows have their answers.
pub(crate) fn have_answers<P: TestedPass, R: Wait>(
    rt: &R,
    pass: &mut P,
    line: u32,
    rows: &[Row],
) -> bool
    requires closed { (P.view pass.old).opened ≡ None }
    ensures closed { (P.view pass.new).opened ≡ None }
    ensures number { (P.view pass.new).number ≡ (P.view pass.old).number }
    ensures home { P.home pass.new ≡ P.home pass.old }
{
    'rows: for row in rows {
        if !has_answer(rt, pass, line, row) {
            return false;
        }
    }
    true
}
