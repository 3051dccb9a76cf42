// Searches on plain links: for the key of an update, from the root on, and for the successor of a node that is to be
// removed. Other passes set these links meanwhile, so what is found is checked again under locks.
use crate::machine::{Machine, Stop};
use crate::seat::{Aim, Found, Gap, Outcome, SearchStep, Seat, Step, UpdateStep, WalkStep};
use crate::turn::begin_section;
use core_rule::Kind;
use core_trees::{Link, ROOT};
use index_words::{Change, Field, Side, Turn, Word};
use std::alloc::Global;

const TOP: Link = Link {
    node: ROOT,
    side: Side::Right,
};

/// The search for the key of the update begins at the root.
pub(crate) fn begin_search(seat: &mut Seat) -> Result<(), Stop> {
    seat.left = None;
    seat.right = None;
    seat.removed = None;
    seat.then(&[Step::Search(SearchStep::Link(TOP))])
}

pub(crate) fn search_step(
    alloc: Global,
    machine: &mut Machine,
    seat: &mut Seat,
    step: SearchStep,
) -> Result<(), Stop> {
    match step {
        SearchStep::Link(at) => go_on(alloc, machine, seat, at),
        SearchStep::Key { at, node } => look_at_key(alloc, machine, seat, Found { at, node }),
        SearchStep::Tag(at) => end_at(alloc, machine, seat, at),
        SearchStep::Right { at, node } => step_right(alloc, machine, seat, Found { at, node }),
        SearchStep::Odd { node, turn } => look_at_turn(alloc, machine, seat, node, turn),
        SearchStep::OddLock { node, turn } => lock_odd(alloc, machine, seat, node, turn),
        SearchStep::OddMark { node, turn } => look_at_odd(alloc, machine, seat, node, turn),
    }
}

fn load_link(alloc: Global, machine: &mut Machine, seat: &Seat, at: Link) -> Result<u32, Stop> {
    let word = Word::Node(Field::Link(at.side), at.node);
    machine.step(alloc, seat.number, Kind::LoadLink, word, 0)?;
    Ok(u32::try_from(machine.word(word)).unwrap_or(0))
}

fn is_marked(alloc: Global, machine: &mut Machine, seat: &Seat, node: u32) -> Result<bool, Stop> {
    let word = Word::Node(Field::Mark, node);
    machine.step(alloc, seat.number, Kind::LoadMark, word, 0)?;
    Ok(machine.word(word) != 0)
}

fn go_on(alloc: Global, machine: &mut Machine, seat: &mut Seat, at: Link) -> Result<(), Stop> {
    let node = load_link(alloc, machine, seat, at)?;
    if node == 0 {
        seat.then(&[Step::Search(SearchStep::Tag(at))])
    } else {
        seat.then(&[Step::Search(SearchStep::Key { at, node })])
    }
}

/// The turn beyond which the key does not lie.
fn crossed_by(seat: &Seat, key: u64) -> Option<Turn> {
    if let Some(turn) = seat.left
        && turn.key <= key
    {
        return Some(turn);
    }
    if let Some(turn) = seat.right
        && key <= turn.key
    {
        return Some(turn);
    }
    None
}

fn look_at_key(
    alloc: Global,
    machine: &mut Machine,
    seat: &mut Seat,
    found: Found,
) -> Result<(), Stop> {
    let node = found.node;
    let word = Word::Node(Field::Key, node);
    machine.step(alloc, seat.number, Kind::LoadKeyOrVal, word, 0)?;
    let here = machine.word(word);
    if let Some(turn) = crossed_by(seat, here) {
        let turn = turn.node;
        return seat.then(&[Step::Search(SearchStep::Odd { node, turn })]);
    }
    let Some(update) = seat.update else {
        return Ok(());
    };
    if seat.removed.is_none() && here == update.key {
        return found_key(seat, found, update.change);
    }
    let turn = Turn { node, key: here };
    let side = if seat.removed.is_some() || update.key < here {
        seat.left = Some(turn);
        Side::Left
    } else {
        seat.right = Some(turn);
        Side::Right
    };
    seat.then(&[Step::Search(SearchStep::Link(Link { node, side }))])
}

fn found_key(seat: &mut Seat, found: Found, change: Change) -> Result<(), Stop> {
    match change {
        Change::Put(_) => {
            hold(seat, found)?;
            Ok(())
        }
        Change::Remove => seat.then(&[Step::Search(SearchStep::Right {
            at: found.at,
            node: found.node,
        })]),
    }
}

fn learn_link(node: u32, side: Side) -> Step {
    Step::Update(UpdateStep::Learn(Word::Node(Field::Link(side), node)))
}

// Locks the key's node and its parent, and checks whether the node is still the parent's child.
fn hold(seat: &mut Seat, found: Found) -> Result<(), Stop> {
    let Found { at, node } = found;
    seat.then(&[
        Step::Update(UpdateStep::Lock(at.node)),
        Step::Update(UpdateStep::Lock(node)),
        Step::Update(UpdateStep::Unmarked(at.node)),
        Step::Update(UpdateStep::Leads { at, child: node }),
        Step::Update(UpdateStep::Unmarked(node)),
        Step::Update(UpdateStep::Learn(Word::Node(Field::Key, node))),
        learn_link(node, Side::Left),
        learn_link(node, Side::Right),
        Step::Update(UpdateStep::Plan(Aim::Replace(found))),
    ])
}

// A removal steps right before it locks: a load of the right link under the lock would move the search.
fn step_right(
    alloc: Global,
    machine: &mut Machine,
    seat: &mut Seat,
    found: Found,
) -> Result<(), Stop> {
    let Found { at, node } = found;
    let side = Side::Right;
    let right = load_link(alloc, machine, seat, Link { node, side })?;
    let key = machine.word(Word::Node(Field::Key, node));
    seat.right = Some(Turn { node, key });
    seat.then(&[
        Step::Update(UpdateStep::Lock(at.node)),
        Step::Update(UpdateStep::Lock(node)),
        Step::Update(UpdateStep::Unmarked(at.node)),
        Step::Update(UpdateStep::Leads { at, child: node }),
        Step::Update(UpdateStep::Unmarked(node)),
        Step::Update(UpdateStep::Learn(Word::Node(Field::Key, node))),
        learn_link(node, Side::Left),
        Step::Update(UpdateStep::Leads {
            at: Link { node, side },
            child: right,
        }),
        Step::Update(UpdateStep::Plan(Aim::Remove(found))),
    ])
}

// The walk to the successor begins at the right child of the locked node.
pub(crate) fn begin_next(seat: &mut Seat, removed: Found, right: u32) -> Result<(), Stop> {
    seat.removed = Some(removed);
    let at = Link {
        node: removed.node,
        side: Side::Right,
    };
    seat.then(&[Step::Search(SearchStep::Key { at, node: right })])
}

fn end_at(alloc: Global, machine: &mut Machine, seat: &mut Seat, at: Link) -> Result<(), Stop> {
    let word = Word::Node(Field::Tag(at.side), at.node);
    machine.step(alloc, seat.number, Kind::LoadTag, word, 0)?;
    let gap = Gap {
        at,
        tag: machine.word(word),
    };
    let Some(update) = seat.update else {
        return Ok(());
    };
    match (seat.removed, update.change) {
        (Some(removed), _) => hold_next(machine, seat, removed, gap),
        (None, Change::Put(_)) => seat.then(&[
            Step::Update(UpdateStep::Lock(at.node)),
            Step::Update(UpdateStep::Unmarked(at.node)),
            Step::Update(UpdateStep::Leads { at, child: 0 }),
            Step::Update(UpdateStep::SameTag(gap)),
            Step::Update(UpdateStep::Plan(Aim::Grow(at))),
        ]),
        (None, Change::Remove) => look_in_snapshot(seat, update.key),
    }
}

// The link by which the search came to the node.
fn link_to(machine: &Machine, seat: &Seat, node: u32) -> Option<Link> {
    let view = machine.view(seat.number)?;
    let mut found = None;
    for link in view.reading.links.as_slice() {
        if link.child == u64::from(node) {
            found = Some(Link {
                node: link.node,
                side: link.side,
            });
        }
    }
    found
}

// Locks the successor and its parent, except the node that is to be removed, which is locked already.
fn hold_next(machine: &Machine, seat: &mut Seat, removed: Found, gap: Gap) -> Result<(), Stop> {
    let node = gap.at.node;
    let at = link_to(machine, seat, node).ok_or(Stop::Wrong)?;
    let next = Found { at, node };
    seat.then(&[
        Step::Update(UpdateStep::Lock(node)),
        Step::Update(UpdateStep::Unmarked(node)),
        Step::Update(UpdateStep::Learn(Word::Node(Field::Key, node))),
        Step::Update(UpdateStep::Learn(Word::Node(Field::Val, node))),
        Step::Update(UpdateStep::Leads {
            at: gap.at,
            child: 0,
        }),
        Step::Update(UpdateStep::SameTag(gap)),
        learn_link(node, Side::Right),
        Step::Update(UpdateStep::Plan(Aim::Join { removed, next })),
    ])?;
    if at.node == removed.node {
        return Ok(());
    }
    seat.then(&[
        Step::Update(UpdateStep::Lock(at.node)),
        Step::Update(UpdateStep::Unmarked(at.node)),
        Step::Update(UpdateStep::Leads { at, child: node }),
    ])
}

// A search does not show that a key which it has not found is absent: a snapshot does.
fn look_in_snapshot(seat: &mut Seat, key: u64) -> Result<(), Stop> {
    seat.checks = true;
    seat.then(&[
        Step::Walk(WalkStep::Head(TOP)),
        Step::Walk(WalkStep::Arrive { at: TOP, key }),
    ])?;
    begin_section(seat, true)?;
    seat.then(&[Step::Leave, Step::TakeBack])
}

fn look_at_turn(
    alloc: Global,
    machine: &mut Machine,
    seat: &mut Seat,
    node: u32,
    turn: u32,
) -> Result<(), Stop> {
    if is_marked(alloc, machine, seat, turn)? {
        return seat.give_up(Outcome::Moved);
    }
    seat.then(&[Step::Search(SearchStep::OddLock { node, turn })])
}

fn lock_odd(
    alloc: Global,
    machine: &mut Machine,
    seat: &mut Seat,
    node: u32,
    turn: u32,
) -> Result<(), Stop> {
    let word = Word::Node(Field::Lock, node);
    let was_free = machine.word(word) == 0;
    let own = u64::from(seat.number) + 1;
    machine.step(alloc, seat.number, Kind::TryLock, word, own)?;
    if was_free {
        seat.then(&[Step::Search(SearchStep::OddMark { node, turn })])
    } else {
        seat.give_up(Outcome::Busy)
    }
}

// The node is locked: it is marked, or the turn's node is by now.
fn look_at_odd(
    alloc: Global,
    machine: &mut Machine,
    seat: &mut Seat,
    node: u32,
    turn: u32,
) -> Result<(), Stop> {
    if is_marked(alloc, machine, seat, node)? || is_marked(alloc, machine, seat, turn)? {
        seat.give_up(Outcome::Moved)
    } else {
        Err(Stop::Wrong)
    }
}
