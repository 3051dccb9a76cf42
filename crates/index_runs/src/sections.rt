// Four passes at work at once on threads over the table itself, which take in each other's notes. A fifth pass stays
// inside its section: so the slots that the four have taken out wait, and there is something to look for.
ghost use Rattle.std.specs.Prelude.{◌≡◌, ◌∷◌, [], IfSome};
ghost use Rattle.std.specs.Thread.{IsSync};
ghost use Rattle.table_steps.specs.Closes.{AreAllKeys};
ghost use Rattle.table_steps.specs.Notes.{IsNoteOf};
ghost use Rattle.table_steps.specs.Passes.{IsPassOf};
ghost use Rattle.index_runs.specs.Sections.{AreBack, AreOf, IsBack, keys_of};

use crate::gate::Gate;
use crate::run::Stopped;
use crate::turns::{Found, Seat, Work, hear_and_work, look_around, work_and_tell};
use index_words::{Layout, PassSize, Update};
use std::alloc::Global;
use std::sync::Wait;
use std::thread::{Threads, join};
use table_steps::{Note, PassKey, SharedTable};
use tree_update::put;

/// Two puts of one key: the second takes a node out.
const SIZE: PassSize = PassSize {
    nodes: 3,
    entries: 12,
    calls: 2,
};

/// The four that work.
#[derive(Drop)]
pub(crate) struct Four {
    pub(crate) a: Seat,
    pub(crate) b: Seat,
    pub(crate) c: Seat,
    pub(crate) d: Seat,
}

/// What a run found.
#[derive(Drop)]
pub(crate) struct Sectioned {
    pub(crate) found: [Found; 4],
    pub(crate) history: Vec<Update>,
}

/// Two passes work at once, each hears on another thread what the other one has reported, and both work on.
fn exchange<R: Threads + Sync>(
    rt: &R,
    table: &SharedTable,
    work: &Work,
    meeting: u64,
    first: Seat,
    second: Seat,
) -> (Seat, Seat)
    requires first { IsPassOf table.now first.key }
    requires second { IsPassOf table.now second.key }
    ensures first { IsBack table.now first.key result.0.key }
    ensures second { IsBack table.now second.key result.1.key }
{
    let (one, two) = join(
        rt,
        || -> (Seat, Note)
            requires { IsPassOf table.now first.key }
            ensures { IsBack table.entry.now first.key result.0.key × IsNoteOf result.0.key result.1 }
        { work_and_tell(table, work, meeting, first) },
        || -> (Seat, Note)
            requires { IsPassOf table.now second.key }
            ensures { IsBack table.entry.now second.key result.0.key × IsNoteOf result.0.key result.1 }
        { work_and_tell(table, work, meeting, second) },
    );
    let (first, from_first) = one;
    let (second, from_second) = two;
    let next = meeting.saturating_add(1);
    join(
        rt,
        || -> Seat
            requires { IsPassOf table.now first.key × IsNoteOf first.key from_second }
            ensures { IsBack table.entry.now first.key result.key }
        { hear_and_work(table, work, next, first, from_second) },
        || -> Seat
            requires { IsPassOf table.now second.key × IsNoteOf second.key from_first }
            ensures { IsBack table.entry.now second.key result.key }
        { hear_and_work(table, work, next, second, from_first) },
    )
}

/// All four work at once, and exchange their notes by pairs.
fn work_at_once<R: Threads + Sync>(
    rt: &R,
    table: &SharedTable,
    work: &Work,
    meeting: u64,
    four: Four,
) -> Four
    requires of { AreOf table.now four }
    ensures back { AreBack table.now four result }
{
    let Four { a, b, c, d } = four;
    let (one, two) = join(
        rt,
        || -> (Seat, Seat)
            requires { IsSync R.row × IsPassOf table.now a.key × IsPassOf table.now b.key }
            ensures { IsBack table.entry.now a.key result.0.key × IsBack table.entry.now b.key result.1.key }
        { exchange(rt, table, work, meeting, a, b) },
        || -> (Seat, Seat)
            requires { IsSync R.row × IsPassOf table.now c.key × IsPassOf table.now d.key }
            ensures { IsBack table.entry.now c.key result.0.key × IsBack table.entry.now d.key result.1.key }
        { exchange(rt, table, work, meeting, c, d) },
    );
    let (a, b) = one;
    let (c, d) = two;
    Four { a, b, c, d }
}

/// Puts the pass's number as a key, twice.
fn put_twice<R: Wait>(rt: &R, table: &SharedTable, seat: Seat) -> Seat
    requires of { IsPassOf table.now seat.key }
    ensures back { IsBack table.now seat.key result.key }
{
    let Seat { key, found } = seat;
    let mut pass = table.attach(key);
    let number = u64::from(pass.client());
    let _first = put(&mut pass, rt, 1, number, 1);
    let _second = put(&mut pass, rt, 2, number, 2);
    let key = pass.detach();
    Seat { key, found }
}

fn put_each<R: Wait>(rt: &R, table: &SharedTable, four: Four) -> Four
    requires of { AreOf table.now four }
    ensures back { AreBack table.now four result }
{
    let Four { a, b, c, d } = four;
    let a = put_twice(rt, table, a);
    let b = put_twice(rt, table, b);
    let c = put_twice(rt, table, c);
    let d = put_twice(rt, table, d);
    Four { a, b, c, d }
}

fn look_each(table: &SharedTable, four: Four) -> Four
    requires of { AreOf table.now four }
    ensures back { AreBack table.now four result }
{
    let Four { a, b, c, d } = four;
    let a = look_around(table, a);
    let b = look_around(table, b);
    let c = look_around(table, c);
    let d = look_around(table, d);
    Four { a, b, c, d }
}

/// The four work at once, then again with other pairs.
fn work_twice<R: Threads + Sync>(rt: &R, table: &SharedTable, work: &Work, four: Four) -> Four
    requires of { AreOf table.now four }
    ensures back { AreBack table.now four result }
{
    let Four { a, b, c, d } = work_at_once(rt, table, work, 1, four);
    let crossed = Four { a, b: c, c: b, d };
    let Four { a, b: c, c: b, d } = work_at_once(rt, table, work, 3, crossed);
    Four { a, b, c, d }
}

/// All that the four do, while the fifth pass stays inside its section.
fn work_around<R: Threads + Wait + Sync>(
    rt: &R,
    table: &SharedTable,
    turns: u32,
    four: Four,
    fifth: PassKey,
) -> (Four, PassKey)
    requires of { AreOf table.now four }
    requires fifth { IsPassOf table.now fifth }
    ensures back { AreBack table.now four result.0 }
    ensures fifth { IsBack table.now fifth result.1 }
{
    let work = Work {
        turns,
        gate: Gate::new(),
    };
    let mut inside = table.attach(fifth);
    inside.enter();
    let four = put_each(rt, table, four);
    let four = look_each(table, four);
    let four = work_twice(rt, table, &work, four);
    let four = look_each(table, four);
    inside.leave();
    (four, inside.detach())
}

fn seat_of(key: PassKey) -> Seat
    ensures { result.key ≡ key }
{
    Seat {
        key,
        found: Found::new(),
    }
}

/// The items of a list of two. What is proved of any type is proved faster: a key has many parts to drop.
fn both<T: Drop>(items: Vec<T>) -> Option<(T, T)>
    ensures { IfSome result (λ two. items.items ≡ two.0 ∷ two.1 ∷ []) }
{
    let mut items = items;
    let second = items.pop()?;
    let first = items.pop()?;
    if !items.is_empty() {
        return None;
    }
    Some((first, second))
}

/// The items of a list of four.
fn all_four<T: Drop>(items: Vec<T>) -> Option<(T, T, T, T)>
    ensures { IfSome result (λ four. items.items ≡ four.0 ∷ four.1 ∷ four.2 ∷ four.3 ∷ []) }
{
    let mut items = items;
    let d = items.pop()?;
    let c = items.pop()?;
    let (a, b) = both(items)?;
    Some((a, b, c, d))
}

/// The seats of four keys.
fn four_of(keys: Vec<PassKey>) -> Option<Four>
    ensures { IfSome result (λ four. keys.items ≡ four.a.key ∷ four.b.key ∷ four.c.key ∷ four.d.key ∷ []) }
{
    let (a, b, c, d) = all_four(keys)?;
    Some(Four {
        a: seat_of(a),
        b: seat_of(b),
        c: seat_of(c),
        d: seat_of(d),
    })
}

/// The five passes of the keys.
fn taken_up(keys: Vec<PassKey>) -> Option<(Four, PassKey)>
    ensures { IfSome result (λ five. keys.items ≡ keys_of five.0 five.1) }
{
    let mut keys = keys;
    let fifth = keys.pop()?;
    let four = four_of(keys)?;
    Some((four, fifth))
}

/// Ends the table.
fn closed(
    alloc: Global,
    table: SharedTable,
    four: Four,
    fifth: PassKey,
) -> Result<Sectioned, Stopped>
    requires all { AreAllKeys table (keys_of four fifth) }
{
    let Four { a, b, c, d } = four;
    let found = [a.found, b.found, c.found, d.found];
    let Ok(keys) = vec![in alloc; a.key, b.key, c.key, d.key, fifth] else {
        return Err(Stopped::NoMemory);
    };
    match table.close(alloc, keys) {
        Ok(history) => Ok(Sectioned { found, history }),
        Err(_) => Err(Stopped::NoMemory),
    }
}

/// Opens a table of five passes, lets four of them work at once, and closes it.
pub(crate) fn make_sections<R: Threads + Wait + Sync>(
    rt: &R,
    alloc: Global,
    turns: u32,
) -> Result<Sectioned, Stopped> {
    let sizes = [SIZE; 5];
    let Some(layout) = Layout::new(&sizes) else {
        return Err(Stopped::BadSizes);
    };
    let Ok((table, keys)) = SharedTable::open(alloc, &layout, &sizes) else {
        return Err(Stopped::NoMemory);
    };
    let Some((four, fifth)) = taken_up(keys) else {
        return Err(Stopped::BadSizes);
    };
    let (four, fifth) = work_around(rt, &table, turns, four, fifth);
    closed(alloc, table, four, fifth)
}
