// Tests of two passes in turn on one thread: their scenes and the history that these make, handwritten.
use crate::rows::Row;
use crate::scenes::{Scene, Snapshot, told};
use crate::set_up::size;
use index_words::{Change, Pair, Update};
use key_map::{Done, New, PassError};
use shared_index::{Settling, Try};
use std::test::Fail;

/// Calls of pass 0, with no snapshot open.
const fn first(rows: &[Row]) -> Scene<'_> {
    Scene {
        is_of_first: true,
        line: 1,
        rows,
        beside: None,
    }
}

/// Calls of pass 1, with no snapshot open.
const fn second(rows: &[Row]) -> Scene<'_> {
    Scene {
        is_of_first: false,
        line: 1,
        rows,
        beside: None,
    }
}

/// Calls of pass 0 while pass 1 has a snapshot open.
const fn first_beside<'a>(line: u32, rows: &'a [Row], snapshot: Snapshot<'a>) -> Scene<'a> {
    Scene {
        is_of_first: true,
        line,
        rows,
        beside: Some(snapshot),
    }
}

/// A put for a request line.
const fn update(client: u32, line: u32, key: u64, val: u64) -> Update {
    Update {
        client,
        line,
        key,
        change: Change::Put(val),
    }
}

/// A removal for request line 1.
const fn removal(client: u32, key: u64) -> Update {
    Update {
        client,
        line: 1,
        key,
        change: Change::Remove,
    }
}

const FIRST_OF_FIVE: [Row; 1] = [Row::Put(5, 7, Ok(Done { at: 1, was: false }))];

const SECOND_OF_FIVE: [Row; 1] = [Row::Put(5, 8, Ok(Done { at: 2, was: true }))];

const OLD_OF_FIVE: [(u64, Option<Pair>); 1] = [(5, Some(Pair { key: 5, val: 7 }))];

const NEW_OF_FIVE: [(u64, Option<Pair>); 2] = [(5, Some(Pair { key: 5, val: 8 })), (6, None)];

#[test]
fn two_passes_on_one_thread(rt: HostRuntime) -> Result<(), Fail> {
    let old = Snapshot {
        at: 1,
        hears: false,
        pairs: &OLD_OF_FIVE,
    };
    let new = Snapshot {
        at: 2,
        hears: false,
        pairs: &NEW_OF_FIVE,
    };
    let scenes = [
        first(&FIRST_OF_FIVE),
        first_beside(2, &SECOND_OF_FIVE, old),
        first_beside(3, &[], new),
    ];
    let updates = [update(0, 1, 5, 7), update(0, 2, 5, 8)];
    let ended = told(&rt, rt.alloc(), &[size(4, 16, 8); 2], &scenes, &updates);
    assert_eq!(rt; ended, Some((3, true)));
    Ok(())
}

const THREE_PUTS: [Row; 3] = [
    Row::Put(1, 7, Ok(Done { at: 1, was: false })),
    Row::Put(2, 7, Ok(Done { at: 2, was: false })),
    Row::Put(3, 7, Ok(Done { at: 3, was: false })),
];

const HELD_PUT: [Row; 2] = [
    Row::Put(2, 8, Ok(Done { at: 4, was: true })),
    Row::TrySettle(Settling::Held { seat: 1, word: 1 }),
];

const OLD_OF_TWO: [(u64, Option<Pair>); 1] = [(2, Some(Pair { key: 2, val: 7 }))];

const SETTLED: [Row; 1] = [Row::TrySettle(Settling::Settled)];

const CLIENT: [Row; 1] = [Row::Client(1)];

#[test]
fn a_heard_note_and_slots_that_settle(rt: HostRuntime) -> Result<(), Fail> {
    let hearing = Snapshot {
        at: 3,
        hears: true,
        pairs: &OLD_OF_TWO,
    };
    let scenes = [
        first(&THREE_PUTS),
        first_beside(2, &HELD_PUT, hearing),
        first(&SETTLED),
        second(&CLIENT),
    ];
    let updates = [
        update(0, 1, 1, 7),
        update(0, 1, 2, 7),
        update(0, 1, 3, 7),
        update(0, 2, 2, 8),
    ];
    let ended = told(&rt, rt.alloc(), &[size(4, 16, 8); 2], &scenes, &updates);
    assert_eq!(rt; ended, Some((4, true)));
    Ok(())
}

const NO_CALL: [Row; 1] = [Row::Put(5, 7, Err(PassError::Spent))];

const ONE_CALL: [Row; 2] = [
    Row::Put(5, 7, Ok(Done { at: 1, was: false })),
    Row::Put(5, 8, Err(PassError::Spent)),
];

#[test]
fn a_pass_of_no_calls_is_spent(rt: HostRuntime) -> Result<(), Fail> {
    let sizes = [size(1, 4, 0), size(1, 4, 1)];
    let scenes = [first(&NO_CALL), second(&ONE_CALL)];
    let updates = [update(1, 1, 5, 7)];
    let ended = told(&rt, rt.alloc(), &sizes, &scenes, &updates);
    assert_eq!(rt; ended, Some((2, true)));
    Ok(())
}

const FOUR_KEYS: [Row; 6] = [
    Row::Remove(4, Ok(Done { at: 0, was: false })),
    Row::Put(4, 40, Ok(Done { at: 1, was: false })),
    Row::Put(2, 20, Ok(Done { at: 2, was: false })),
    Row::TryPut(7, 70, Ok(Try::Done(Done { at: 3, was: false }))),
    Row::Put(5, 50, Ok(Done { at: 4, was: false })),
    Row::First(3, Some(Pair { key: 4, val: 40 })),
];

const TWO_CHILDREN: [Row; 10] = [
    Row::TryPut(6, 60, Ok(Try::Done(Done { at: 5, was: false }))),
    Row::Remove(4, Ok(Done { at: 6, was: true })),
    Row::TryPut(6, 61, Err(PassError::NoSlot)),
    Row::Remove(4, Ok(Done { at: 6, was: false })),
    Row::TryPut(6, 61, Ok(Try::Done(Done { at: 7, was: true }))),
    Row::First(0, Some(Pair { key: 2, val: 20 })),
    Row::First(3, Some(Pair { key: 5, val: 50 })),
    Row::First(6, Some(Pair { key: 6, val: 61 })),
    Row::First(7, Some(Pair { key: 7, val: 70 })),
    Row::First(8, None),
];

/// A key with two children is removed, whose successor is deep and has a right child; and a try is refused while the
/// slots that the pass has taken out are not free again.
#[test]
fn a_pass_removes_a_key_with_two_children(rt: HostRuntime) -> Result<(), Fail> {
    let sizes = [size(8, 32, 16), size(2, 8, 8)];
    let scenes = [first(&FOUR_KEYS), second(&TWO_CHILDREN)];
    let updates = [
        update(0, 1, 4, 40),
        update(0, 1, 2, 20),
        update(0, 1, 7, 70),
        update(0, 1, 5, 50),
        update(1, 1, 6, 60),
        removal(1, 4),
        update(1, 1, 6, 61),
    ];
    let ended = told(&rt, rt.alloc(), &sizes, &scenes, &updates);
    assert_eq!(rt; ended, Some((2, true)));
    Ok(())
}

const EVEN_KEYS: [Row; 4] = [
    Row::Put(4, 40, Ok(Done { at: 1, was: false })),
    Row::Put(2, 20, Ok(Done { at: 2, was: false })),
    Row::Put(6, 60, Ok(Done { at: 3, was: false })),
    Row::Put(8, 80, Ok(Done { at: 4, was: false })),
];

const HELD_REMOVAL: [Row; 2] = [
    Row::Remove(4, Ok(Done { at: 5, was: true })),
    Row::TrySettle(Settling::Held { seat: 1, word: 1 }),
];

const OLD_OF_FOUR: [(u64, Option<Pair>); 1] = [(3, Some(Pair { key: 4, val: 40 }))];

const FAR_SUCCESSOR: [Row; 5] = [
    Row::TrySettle(Settling::Settled),
    Row::Put(7, 70, Ok(Done { at: 6, was: false })),
    Row::Remove(6, Ok(Done { at: 7, was: true })),
    Row::First(3, Some(Pair { key: 7, val: 70 })),
    Row::First(9, None),
];

const ONE_SLOT: [Row; 3] = [
    Row::Put(9, 90, Ok(Done { at: 8, was: false })),
    Row::Put(9, 91, Err(PassError::NoSlot)),
    Row::Remove(9, Err(PassError::NoSlot)),
];

/// Another pass's snapshot holds what a removal has taken out. The successor of the first key that is removed is the
/// right child itself, so its removal waits for nobody; the successor of the second one is further down, and no
/// snapshot is open then.
#[test]
fn a_snapshot_holds_the_slots_of_a_removal(rt: HostRuntime) -> Result<(), Fail> {
    let sizes = [size(8, 32, 16), size(1, 4, 8)];
    let holding = Snapshot {
        at: 4,
        hears: false,
        pairs: &OLD_OF_FOUR,
    };
    let scenes = [
        first(&EVEN_KEYS),
        first_beside(1, &HELD_REMOVAL, holding),
        first(&FAR_SUCCESSOR),
        second(&ONE_SLOT),
    ];
    let updates = [
        update(0, 1, 4, 40),
        update(0, 1, 2, 20),
        update(0, 1, 6, 60),
        update(0, 1, 8, 80),
        removal(0, 4),
        update(0, 1, 7, 70),
        removal(0, 6),
        update(1, 1, 9, 90),
    ];
    let ended = told(&rt, rt.alloc(), &sizes, &scenes, &updates);
    assert_eq!(rt; ended, Some((4, true)));
    Ok(())
}

const ONE_KEY: [Row; 1] = [Row::Put(5, 50, Ok(Done { at: 1, was: false }))];

const ONE_KEY_HELD: [Row; 7] = [
    Row::Put(5, 51, Ok(Done { at: 2, was: true })),
    Row::Put(5, 52, Ok(Done { at: 3, was: true })),
    Row::Put(5, 53, Ok(Done { at: 4, was: true })),
    Row::Put(5, 54, Ok(Done { at: 5, was: true })),
    Row::Put(5, 55, Err(PassError::NoSlot)),
    Row::Gather,
    Row::Put(5, 55, Err(PassError::NoSlot)),
];

const ONE_KEY_GATHERED: [Row; 4] = [
    Row::Put(5, 55, Err(PassError::NoSlot)),
    Row::Gather,
    Row::Put(5, 56, Ok(Done { at: 6, was: true })),
    Row::First(0, Some(Pair { key: 5, val: 56 })),
];

const OLD_OF_ONE: [(u64, Option<Pair>); 1] = [(0, Some(Pair { key: 5, val: 50 }))];

/// While another pass's snapshot is open each put of a key leaves one entry more in the bundle, until the pass owns too
/// few for another put. Once the snapshot has ended the pass gathers them, and its puts succeed again.
#[test]
fn a_pass_that_was_refused_gathers_and_is_served(rt: HostRuntime) -> Result<(), Fail> {
    let sizes = [size(8, 8, 16), size(1, 4, 8)];
    let holding = Snapshot {
        at: 1,
        hears: false,
        pairs: &OLD_OF_ONE,
    };
    let scenes = [
        first(&ONE_KEY),
        first_beside(1, &ONE_KEY_HELD, holding),
        first(&ONE_KEY_GATHERED),
    ];
    let updates = [
        update(0, 1, 5, 50),
        update(0, 1, 5, 51),
        update(0, 1, 5, 52),
        update(0, 1, 5, 53),
        update(0, 1, 5, 54),
        update(0, 1, 5, 56),
    ];
    let ended = told(&rt, rt.alloc(), &sizes, &scenes, &updates);
    assert_eq!(rt; ended, Some((3, true)));
    Ok(())
}

const NEW_KEYS: [Row; 7] = [
    Row::PutNew(4, 40, Ok(New::Made { at: 1 })),
    Row::PutNew(4, 41, Ok(New::Kept { at: 1 })),
    Row::PutNew(6, 60, Ok(New::Made { at: 2 })),
    Row::PutNew(4, 42, Err(PassError::NoSlot)),
    Row::PutNew(7, 70, Err(PassError::NoSlot)),
    Row::First(0, Some(Pair { key: 4, val: 40 })),
    Row::First(5, Some(Pair { key: 6, val: 60 })),
];

const NEW_AGAIN: [Row; 5] = [
    Row::PutNew(4, 43, Ok(New::Kept { at: 2 })),
    Row::Remove(4, Ok(Done { at: 3, was: true })),
    Row::PutNew(4, 44, Ok(New::Made { at: 4 })),
    Row::PutNew(4, 45, Err(PassError::Spent)),
    Row::First(0, Some(Pair { key: 4, val: 44 })),
];

/// A put of a new key is not made if the key is there, whichever pass has put it, until it is removed. Slots and calls
/// are checked first, whether or not the key is there.
#[test]
fn a_key_that_is_there_keeps_a_new_one_out(rt: HostRuntime) -> Result<(), Fail> {
    let sizes = [size(2, 8, 8), size(2, 12, 2)];
    let scenes = [first(&NEW_KEYS), second(&NEW_AGAIN)];
    let updates = [
        update(0, 1, 4, 40),
        update(0, 1, 6, 60),
        removal(1, 4),
        update(1, 1, 4, 44),
    ];
    let ended = told(&rt, rt.alloc(), &sizes, &scenes, &updates);
    assert_eq!(rt; ended, Some((2, true)));
    Ok(())
}
