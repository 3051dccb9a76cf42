// Answers of a plain pass as rows, handwritten from the definitions; tests/program/rows.py has rows of pages and
// queries.
ghost use Rattle.std.specs.Prelude.{◌≡◌, None};

use crate::steps::{put, put_new, remove, snapshot};
use bucket_terms::{KeyPass, PlainPass};
use key_map::{Change, Done, New, Pair, PassError, PassSize, Update};
use std::alloc::Global;
use std::sync::Wait;
use std::test::Fail;

/// A call of a pass that has no snapshot open, and the answer that it is to have.
#[derive(Clone, Copy)]
enum Row {
    /// A put for a request line: its number, the key and the value.
    Put(u32, u64, u64, Result<Done, PassError>),
    PutNew(u32, u64, u64, Result<New, PassError>),
    Remove(u32, u64, Result<Done, PassError>),
    /// A key, the place of a snapshot, and its first pair from the key on.
    First(u64, u64, Option<Pair>),
    /// The number of the pass.
    Client(u32),
}

/// Makes the row's call. Returns whether it has the row's answer.
fn has_answer<P: KeyPass, R: Wait>(rt: &R, pass: &mut P, row: &Row) -> bool
    requires { (P.view pass.old).opened ≡ None }
    ensures { (P.view pass.new).opened ≡ None }
{
    match *row {
        Row::Put(line, key, val, answer) => put(rt, pass, line, key, val) == answer,
        Row::PutNew(line, key, val, answer) => put_new(rt, pass, line, key, val) == answer,
        Row::Remove(line, key, answer) => remove(rt, pass, line, key) == answer,
        Row::First(key, at, first) => snapshot(rt, pass, key) == (at, first),
        Row::Client(number) => pass.client() == number,
    }
}

/// Whether each of the rows has its answer.
fn have_answers<P: KeyPass, R: Wait>(rt: &R, pass: &mut P, rows: &[Row]) -> bool
    requires { (P.view pass.old).opened ≡ None }
{
    'rows: for row in rows {
        if !has_answer(rt, pass, row) {
            return false;
        }
    }
    true
}

/// A fact, and the rows that show it, of a pass with so many node slots, entry slots and calls.
#[derive(Clone, Copy)]
struct Story {
    fact: &'static str,
    size: (u32, u32, u32),
    rows: &'static [Row],
}

fn size_of(story: &Story) -> PassSize {
    let (nodes, entries, calls) = story.size;
    PassSize {
        nodes,
        entries,
        calls,
    }
}

/// The fact of the first story whose rows do not have their answers.
fn first_wrong<R: Wait>(rt: &R, alloc: Global) -> Result<Option<&'static str>, Fail> {
    for story in &STORIES {
        let mut pass = PlainPass::new(alloc, 7, size_of(story))?;
        let is_right = have_answers(rt, &mut pass, story.rows);
        drop(pass);
        if !is_right {
            return Ok(Some(story.fact));
        }
    }
    Ok(None)
}

#[test]
fn each_story_has_its_answers(rt: HostRuntime) -> Result<(), Fail> {
    assert_eq!(rt; first_wrong(&rt, rt.alloc())?, None);
    Ok(())
}

const STORIES: [Story; 8] = [
    Story {
        fact: "a story of updates and snapshots",
        size: (3, 4, 10_000),
        rows: &UPDATES_AND_SNAPSHOTS,
    },
    Story {
        fact: "every update wants a node slot",
        size: (1, 4, 9),
        rows: &ONE_NODE,
    },
    Story {
        fact: "a new key alone is put",
        size: (2, 4, 3),
        rows: &NEW_KEYS,
    },
    Story {
        fact: "a put of a new key wants a call",
        size: (2, 4, 0),
        rows: &NEW_AND_NO_CALL,
    },
    Story {
        fact: "a removed key is put anew, with the call that is left",
        size: (2, 4, 3),
        rows: &REMOVED_KEY,
    },
    Story {
        fact: "an update wants four entry slots",
        size: (1, 3, 1),
        rows: &THREE_ENTRIES,
    },
    Story {
        fact: "an update wants a call",
        size: (0, 0, 0),
        rows: &NO_CALL,
    },
    Story {
        fact: "the last call is taken by an update alone",
        size: (2, 4, 1),
        rows: &LAST_CALL,
    },
];

const UPDATES_AND_SNAPSHOTS: [Row; 12] = [
    Row::Client(7),
    Row::First(0, 0, None),
    Row::Put(1, 5, 50, Ok(Done { at: 1, was: false })),
    Row::Put(2, 2, 20, Ok(Done { at: 2, was: false })),
    Row::Put(3, 5, 51, Ok(Done { at: 3, was: true })),
    // a removal of a key that is not there makes no update
    Row::Remove(4, 7, Ok(Done { at: 3, was: false })),
    Row::First(0, 3, Some(Pair { key: 2, val: 20 })),
    Row::First(3, 3, Some(Pair { key: 5, val: 51 })),
    Row::First(5, 3, Some(Pair { key: 5, val: 51 })),
    Row::First(6, 3, None),
    Row::Remove(5, 2, Ok(Done { at: 4, was: true })),
    Row::First(0, 4, Some(Pair { key: 5, val: 51 })),
];

const ONE_NODE: [Row; 6] = [
    Row::Put(1, 5, 50, Ok(Done { at: 1, was: false })),
    Row::Put(2, 6, 60, Err(PassError::NoSlot)),
    Row::Put(3, 5, 51, Err(PassError::NoSlot)),
    Row::Remove(4, 5, Err(PassError::NoSlot)),
    Row::Remove(5, 6, Err(PassError::NoSlot)),
    Row::First(0, 1, Some(Pair { key: 5, val: 50 })),
];

// The slots are checked before the key, so a key that is there makes no difference.
const NEW_KEYS: [Row; 7] = [
    Row::PutNew(1, 5, 50, Ok(New::Made { at: 1 })),
    Row::PutNew(2, 5, 51, Ok(New::Kept { at: 1 })),
    Row::First(0, 1, Some(Pair { key: 5, val: 50 })),
    Row::PutNew(3, 6, 60, Ok(New::Made { at: 2 })),
    Row::PutNew(4, 6, 61, Err(PassError::NoSlot)),
    Row::PutNew(5, 7, 70, Err(PassError::NoSlot)),
    Row::First(6, 2, Some(Pair { key: 6, val: 60 })),
];

const NEW_AND_NO_CALL: [Row; 1] = [Row::PutNew(1, 5, 50, Err(PassError::Spent))];

const REMOVED_KEY: [Row; 5] = [
    Row::Put(1, 5, 50, Ok(Done { at: 1, was: false })),
    Row::Remove(2, 5, Ok(Done { at: 2, was: true })),
    Row::PutNew(3, 5, 51, Ok(New::Made { at: 3 })),
    Row::PutNew(4, 5, 52, Err(PassError::Spent)),
    Row::First(0, 3, Some(Pair { key: 5, val: 51 })),
];

const THREE_ENTRIES: [Row; 2] = [
    Row::Put(1, 5, 50, Err(PassError::NoSlot)),
    Row::First(0, 0, None),
];

const NO_CALL: [Row; 2] = [
    Row::Put(1, 5, 50, Err(PassError::Spent)),
    Row::Remove(2, 5, Err(PassError::Spent)),
];

const LAST_CALL: [Row; 4] = [
    Row::Remove(1, 5, Ok(Done { at: 0, was: false })),
    Row::Put(2, 5, 50, Ok(Done { at: 1, was: false })),
    Row::Remove(3, 5, Err(PassError::Spent)),
    Row::First(0, 1, Some(Pair { key: 5, val: 50 })),
];

const PUT_AND_REMOVED: [Row; 2] = [
    Row::Put(1, 5, 50, Ok(Done { at: 1, was: false })),
    Row::Remove(3, 5, Ok(Done { at: 2, was: true })),
];

const UPDATES: [Update; 2] = [
    Update {
        client: 7,
        line: 1,
        key: 5,
        change: Change::Put(50),
    },
    Update {
        client: 7,
        line: 3,
        key: 5,
        change: Change::Remove,
    },
];

/// Whether a put and a removal are the updates of their pass.
fn keeps_updates<R: Wait>(rt: &R, alloc: Global) -> Result<bool, Fail> {
    let size = PassSize {
        nodes: 3,
        entries: 4,
        calls: 9,
    };
    let mut pass = PlainPass::new(alloc, 7, size)?;
    let is_right = have_answers(rt, &mut pass, &PUT_AND_REMOVED);
    Ok(is_right && pass.updates() == UPDATES.as_slice())
}

#[test]
fn keeps_its_updates_in_order(rt: HostRuntime) -> Result<(), Fail> {
    assert!(rt; keeps_updates(&rt, rt.alloc())?);
    Ok(())
}
