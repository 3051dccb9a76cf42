// Calls of passes in turn, each with the answer that it is to have, handwritten. A story is named by its fact.
use crate::rows::{Row, Scene, go, have_answers};
use crate::set_up::{ROOMY, opened, size_of, two_passes};
use index_words::{NoMemory, Pair};
use key_map::{Done, PassError};
use std::alloc::Global;
use std::sync::Wait;
use std::test::Fail;
use tree_update::Settling;

/// A fact, and the scenes that show it, of two passes with so many node slots, entry slots and calls.
#[derive(Clone, Copy)]
struct Story {
    fact: &'static str,
    size: (u32, u32, u32),
    scenes: &'static [Scene],
}

/// Whether the scenes go as they should, on a table of their own.
fn is_right<R: Wait>(rt: &R, alloc: Global, story: &Story) -> Result<bool, NoMemory> {
    let (table, first, second) = two_passes(alloc, story.size)?;
    let mut zero = table.attach(first);
    let mut one = table.attach(second);
    Ok(go(rt, alloc, &mut zero, &mut one, story.scenes))
}

/// The fact of the first story whose scenes do not.
fn first_wrong<R: Wait>(rt: &R, alloc: Global) -> Result<Option<&'static str>, NoMemory> {
    for story in STORIES {
        if !is_right(rt, alloc, &story)? {
            return Ok(Some(story.fact));
        }
    }
    Ok(None)
}

#[test]
fn each_story_of_two_passes_has_its_answers(rt: HostRuntime) -> Result<(), Fail> {
    assert_eq!(rt; first_wrong(&rt, rt.alloc())?, None);
    Ok(())
}

/// Whether the rows have their answers, of a pass that is alone on its table.
fn is_right_alone<R: Wait>(
    rt: &R,
    alloc: Global,
    size: (u32, u32, u32),
    rows: &[Row],
) -> Result<bool, NoMemory> {
    let (table, mut keys) = opened(alloc, &[size_of(size)])?;
    let Some(key) = keys.pop() else {
        return Ok(false);
    };
    Ok(have_answers(rt, alloc, &mut table.attach(key), rows))
}

#[test]
fn a_pass_alone_settles_what_it_has_taken_out(rt: HostRuntime) -> Result<(), Fail> {
    assert!(rt; is_right_alone(&rt, rt.alloc(), ROOMY, &ALONE)?);
    Ok(())
}

/// A node that is taken out gives back the entries of both its bundles: here two on the left, where a put was made
/// twice, and one on the right.
#[test]
fn a_replaced_node_gives_its_entries_back(rt: HostRuntime) -> Result<(), Fail> {
    assert!(rt; is_right_alone(&rt, rt.alloc(), (5, 20, 8), &BOTH_BUNDLES)?);
    Ok(())
}

const ALONE: [Row; 5] = [
    Row::Put(1, 5, 50, Ok(Done { at: 1, was: false })),
    Row::Put(2, 5, 51, Ok(Done { at: 2, was: true })),
    Row::FreeNodes(1),
    Row::TrySettle(Settling::Settled),
    Row::FreeNodes(2),
];

const BOTH_BUNDLES: [Row; 12] = [
    Row::Put(1, 5, 50, Ok(Done { at: 1, was: false })),
    Row::Put(1, 3, 30, Ok(Done { at: 2, was: false })),
    Row::Put(1, 8, 80, Ok(Done { at: 3, was: false })),
    Row::Put(1, 3, 31, Ok(Done { at: 4, was: true })),
    Row::TrySettle(Settling::Settled),
    Row::FreeNodes(2),
    Row::FreeEntries(16),
    Row::Put(5, 5, 51, Ok(Done { at: 5, was: true })),
    Row::FreeEntries(13),
    Row::TrySettle(Settling::Settled),
    Row::FreeNodes(2),
    Row::FreeEntries(16),
];

const STORIES: [Story; 12] = [
    Story {
        fact: "snapshots of an empty table have no pair",
        size: ROOMY,
        scenes: &[Scene::ByFirst(&EMPTY), Scene::BySecond(&EMPTY)],
    },
    Story {
        fact: "one pass puts and removes",
        size: ROOMY,
        scenes: &[Scene::BySecond(&PUTS_AND_REMOVALS)],
    },
    Story {
        fact: "a pass uses its two nodes again and again",
        size: (2, 60, 8),
        scenes: &[Scene::BySecond(&FOUR_ROUNDS)],
    },
    // without cuts four of the eight entries would be left after the fourth put, and three after the fifth: too few
    Story {
        fact: "a pass with few slots puts a key again and again",
        size: (2, 8, 8),
        scenes: &[Scene::BySecond(&EIGHT_PUTS)],
    },
    // as many nodes as one update may take, and one entry more
    Story {
        fact: "a pass is refused where slots or calls are used up",
        size: (1, 5, 2),
        scenes: &[Scene::BySecond(&NO_SLOT), Scene::ByFirst(&SPENT)],
    },
    Story {
        fact: "two passes see each other's updates",
        size: ROOMY,
        scenes: &[
            Scene::BySecond(&FIRST_TURN),
            Scene::ByFirst(&OTHERS_TURN),
            Scene::BySecond(&LAST_TURN),
        ],
    },
    Story {
        fact: "a removal waits and unlinks the successor",
        size: (6, 40, 12),
        scenes: &[Scene::BySecond(&FAR_SUCCESSORS)],
    },
    Story {
        fact: "a pass with nothing taken out waits for nobody",
        size: ROOMY,
        scenes: &[Scene::BySecondBeside(0, None, &SETTLED)],
    },
    // in the section in which it was found, and no longer
    Story {
        fact: "a pass in its section holds a batch",
        size: ROOMY,
        scenes: &[
            Scene::BySecond(&FIRST_PUT),
            Scene::BySecondBeside(1, Some(Pair { key: 5, val: 50 }), &HELD),
            Scene::BySecondBeside(2, Some(Pair { key: 5, val: 51 }), &SETTLED),
        ],
    },
    Story {
        fact: "a snapshot keeps its value beside later puts",
        size: (8, 32, 8),
        scenes: &[
            Scene::ByFirst(&FIRST_PUT),
            Scene::ByFirstBeside(1, Some(Pair { key: 5, val: 50 }), &LATER_PUTS),
        ],
    },
    // while it reads, the number of updates that it has seen, plus 1; otherwise 0
    Story {
        fact: "a pass announces what it has seen while it reads",
        size: ROOMY,
        scenes: &[
            Scene::BySecondBeside(0, None, &[Row::AnnouncedByFirst(Some(1))]),
            Scene::BySecond(&[Row::AnnouncedByFirst(Some(0))]),
            Scene::BySecond(&FIRST_PUT),
            Scene::BySecondBeside(
                1,
                Some(Pair { key: 5, val: 50 }),
                &[Row::AnnouncedByFirst(Some(2))],
            ),
            Scene::BySecond(&[Row::AnnouncedByFirst(Some(0))]),
        ],
    },
    Story {
        fact: "plain links lead where the tree does behind each update",
        size: (9, 60, 30),
        scenes: &[Scene::BySecond(&LINKS)],
    },
];

const EMPTY: [Row; 3] = [
    Row::First(0, 0, None),
    Row::First(6, 0, None),
    Row::First(u64::MAX, 0, None),
];

const PUTS_AND_REMOVALS: [Row; 7] = [
    Row::Put(1, 5, 50, Ok(Done { at: 1, was: false })),
    Row::Put(1, 3, 30, Ok(Done { at: 2, was: false })),
    Row::Put(1, 5, 51, Ok(Done { at: 3, was: true })),
    Row::Remove(3, Ok(Done { at: 4, was: true })),
    Row::Remove(3, Ok(Done { at: 4, was: false })),
    Row::First(0, 4, Some(Pair { key: 5, val: 51 })),
    Row::First(6, 4, None),
];

/// A put takes one of the two nodes, and a removal gives it back.
const FOUR_ROUNDS: [Row; 8] = [
    Row::Put(1, 7, 0, Ok(Done { at: 1, was: false })),
    Row::Remove(7, Ok(Done { at: 2, was: true })),
    Row::Put(1, 7, 1, Ok(Done { at: 3, was: false })),
    Row::Remove(7, Ok(Done { at: 4, was: true })),
    Row::Put(1, 7, 2, Ok(Done { at: 5, was: false })),
    Row::Remove(7, Ok(Done { at: 6, was: true })),
    Row::Put(1, 7, 3, Ok(Done { at: 7, was: false })),
    Row::Remove(7, Ok(Done { at: 8, was: true })),
];

const EIGHT_PUTS: [Row; 8] = [
    Row::Put(1, 5, 1, Ok(Done { at: 1, was: false })),
    Row::Put(2, 5, 2, Ok(Done { at: 2, was: true })),
    Row::Put(3, 5, 3, Ok(Done { at: 3, was: true })),
    Row::Put(4, 5, 4, Ok(Done { at: 4, was: true })),
    Row::Put(5, 5, 5, Ok(Done { at: 5, was: true })),
    Row::Put(6, 5, 6, Ok(Done { at: 6, was: true })),
    Row::Put(7, 5, 7, Ok(Done { at: 7, was: true })),
    Row::Put(8, 5, 8, Ok(Done { at: 8, was: true })),
];

const NO_SLOT: [Row; 3] = [
    Row::Put(1, 5, 50, Ok(Done { at: 1, was: false })),
    Row::Put(1, 6, 60, Err(PassError::NoSlot)),
    Row::Remove(6, Err(PassError::NoSlot)),
];

const SPENT: [Row; 5] = [
    Row::Remove(6, Ok(Done { at: 1, was: false })),
    Row::Remove(5, Ok(Done { at: 2, was: true })),
    Row::Put(1, 5, 52, Ok(Done { at: 3, was: false })),
    Row::Put(1, 5, 53, Err(PassError::Spent)),
    Row::Remove(5, Err(PassError::Spent)),
];

const FIRST_TURN: [Row; 2] = [
    Row::Put(1, 5, 50, Ok(Done { at: 1, was: false })),
    Row::Put(1, 8, 80, Ok(Done { at: 2, was: false })),
];

const OTHERS_TURN: [Row; 3] = [
    Row::Put(1, 2, 20, Ok(Done { at: 3, was: false })),
    Row::Put(1, 6, 60, Ok(Done { at: 4, was: false })),
    Row::Remove(5, Ok(Done { at: 5, was: true })),
];

const LAST_TURN: [Row; 2] = [
    Row::Remove(5, Ok(Done { at: 5, was: false })),
    Row::First(3, 5, Some(Pair { key: 6, val: 60 })),
];

/// Each removal is of a node with two children, whose successor is further down.
const FAR_SUCCESSORS: [Row; 11] = [
    Row::Put(1, 10, 1, Ok(Done { at: 1, was: false })),
    Row::Put(1, 5, 2, Ok(Done { at: 2, was: false })),
    Row::Put(1, 20, 3, Ok(Done { at: 3, was: false })),
    Row::Put(1, 15, 4, Ok(Done { at: 4, was: false })),
    Row::Put(1, 12, 5, Ok(Done { at: 5, was: false })),
    Row::Remove(10, Ok(Done { at: 6, was: true })),
    Row::First(6, 6, Some(Pair { key: 12, val: 5 })),
    Row::Remove(12, Ok(Done { at: 7, was: true })),
    Row::First(6, 7, Some(Pair { key: 15, val: 4 })),
    Row::Put(1, 17, 6, Ok(Done { at: 8, was: false })),
    Row::First(16, 8, Some(Pair { key: 17, val: 6 })),
];

const SETTLED: [Row; 1] = [Row::TrySettle(Settling::Settled)];

const FIRST_PUT: [Row; 1] = [Row::Put(1, 5, 50, Ok(Done { at: 1, was: false }))];

const HELD: [Row; 3] = [
    Row::Put(2, 5, 51, Ok(Done { at: 2, was: true })),
    Row::TrySettle(Settling::Held { seat: 0, word: 1 }),
    Row::TrySettle(Settling::Held { seat: 0, word: 1 }),
];

const LATER_PUTS: [Row; 4] = [
    Row::Put(2, 5, 2, Ok(Done { at: 2, was: true })),
    Row::Put(3, 5, 3, Ok(Done { at: 3, was: true })),
    Row::Put(4, 5, 4, Ok(Done { at: 4, was: true })),
    Row::Put(5, 5, 5, Ok(Done { at: 5, was: true })),
];

/// Puts of absent keys and of a present one; removals of a leaf, of a node with a right child alone, of one with a
/// successor deeper down and without a child, and of one whose successor is its right child; the rest of the nodes, one
/// of them with a left child alone; and a removal of a node whose deeper successor has a child. After each of them the
/// tree has one link more than twice its nodes.
const LINKS: [Row; 40] = [
    Row::Put(1, 50, 7, Ok(Done { at: 1, was: false })),
    Row::Links(3),
    Row::Put(1, 30, 7, Ok(Done { at: 2, was: false })),
    Row::Links(5),
    Row::Put(1, 70, 7, Ok(Done { at: 3, was: false })),
    Row::Links(7),
    Row::Put(1, 60, 7, Ok(Done { at: 4, was: false })),
    Row::Links(9),
    Row::Put(1, 80, 7, Ok(Done { at: 5, was: false })),
    Row::Links(11),
    Row::Put(1, 20, 7, Ok(Done { at: 6, was: false })),
    Row::Links(13),
    Row::Put(1, 40, 7, Ok(Done { at: 7, was: false })),
    Row::Links(15),
    Row::Put(1, 30, 7, Ok(Done { at: 8, was: true })),
    Row::Links(15),
    Row::Remove(20, Ok(Done { at: 9, was: true })),
    Row::Links(13),
    Row::Remove(30, Ok(Done { at: 10, was: true })),
    Row::Links(11),
    Row::Remove(50, Ok(Done { at: 11, was: true })),
    Row::Links(9),
    Row::Remove(60, Ok(Done { at: 12, was: true })),
    Row::Links(7),
    Row::Remove(80, Ok(Done { at: 13, was: true })),
    Row::Links(5),
    Row::Remove(70, Ok(Done { at: 14, was: true })),
    Row::Links(3),
    Row::Put(1, 30, 7, Ok(Done { at: 15, was: false })),
    Row::Links(5),
    Row::Put(1, 60, 7, Ok(Done { at: 16, was: false })),
    Row::Links(7),
    Row::Put(1, 50, 7, Ok(Done { at: 17, was: false })),
    Row::Links(9),
    Row::Put(1, 55, 7, Ok(Done { at: 18, was: false })),
    Row::Links(11),
    Row::Remove(40, Ok(Done { at: 19, was: true })),
    Row::Links(9),
    Row::Remove(50, Ok(Done { at: 20, was: true })),
    Row::Links(7),
];
