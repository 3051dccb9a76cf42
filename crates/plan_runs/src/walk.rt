// Steps along a link's bundle, to the entry that the section number selects, and down the tree.
use crate::machine::{Machine, Stop};
use crate::seat::{Outcome, Report, Seat, Step, WalkStep};
use core_rule::Kind;
use core_trees::Link;
use index_words::{Field, LinkSource, Part, Place, Side, View, Word};
use std::alloc::Global;

/// The child to which a link leads that the view has found through its bundle.
fn remembered_child(view: &View, at: Link) -> Option<u64> {
    let mut found = None;
    for link in view.reading.links.as_slice() {
        if let LinkSource::Bundle { .. } = link.source
            && link.node == at.node
            && link.side == at.side
        {
            found = Some(link.child);
        }
    }
    found
}

// The entry at which the view stands, 0 for none.
pub(crate) fn entry_at(view: &View) -> u32 {
    match view.reading.place {
        Place::Entry { entry, .. } => u32::try_from(entry).unwrap_or(0),
        _ => 0,
    }
}

pub(crate) fn walk_step(
    alloc: Global,
    machine: &mut Machine,
    seat: &mut Seat,
    step: WalkStep,
) -> Result<Option<Report>, Stop> {
    let number = seat.number;
    let entry = machine.view(number).map_or(0, entry_at);
    let (kind, word) = match step {
        WalkStep::Head(at) => (Kind::LoadHead, Word::Node(Field::Head(at.side), at.node)),
        WalkStep::Number => (Kind::LoadTs, Word::Entry(Part::Stamp, entry)),
        WalkStep::Next => (Kind::LoadNext, Word::Entry(Part::Next, entry)),
        WalkStep::Child => (Kind::LoadPtr, Word::Entry(Part::Child, entry)),
        WalkStep::Arrive { at, key } => return arrive(machine, seat, at, key),
        WalkStep::Key { node, .. } => (Kind::LoadKeyOrVal, Word::Node(Field::Key, node)),
        WalkStep::Val { node, .. } => (Kind::LoadKeyOrVal, Word::Node(Field::Val, node)),
    };
    machine.step(alloc, number, kind, word, 0)?;
    if let WalkStep::Val { key, .. } = step {
        return found(machine, seat, key, Some(machine.word(word)));
    }
    loaded(machine, seat, step, machine.word(word))?;
    Ok(None)
}

// What follows the load of a word, which held this value.
fn loaded(machine: &Machine, seat: &mut Seat, step: WalkStep, value: u64) -> Result<(), Stop> {
    match step {
        WalkStep::Head(_) | WalkStep::Next => go_on(machine, seat),
        WalkStep::Number => compare(machine, seat, value),
        WalkStep::Key { node, key } => descend(seat, node, key, value),
        WalkStep::Child | WalkStep::Arrive { .. } | WalkStep::Val { .. } => Ok(()),
    }
}

// At an entry its number is loaded next; if there is no entry the link is null.
fn go_on(machine: &Machine, seat: &mut Seat) -> Result<(), Stop> {
    if machine.view(seat.number).map_or(0, entry_at) == 0 {
        return Ok(());
    }
    seat.then(&[Step::Walk(WalkStep::Number)])
}

// A reader waits for a number that is not written yet.
fn compare(machine: &Machine, seat: &mut Seat, stamp: u64) -> Result<(), Stop> {
    let Some(view) = machine.view(seat.number) else {
        return Ok(());
    };
    if stamp == 0 {
        seat.then(&[Step::Walk(WalkStep::Number)])
    } else if stamp <= view.reading.section.unwrap_or(0) {
        seat.then(&[Step::Walk(WalkStep::Child)])
    } else {
        seat.then(&[Step::Walk(WalkStep::Next)])
    }
}

fn arrive(machine: &Machine, seat: &mut Seat, at: Link, key: u64) -> Result<Option<Report>, Stop> {
    let child = machine
        .view(seat.number)
        .and_then(|view| remembered_child(view, at))
        .unwrap_or(0);
    let node = u32::try_from(child).unwrap_or(0);
    if node == 0 {
        return found(machine, seat, key, None);
    }
    seat.then(&[Step::Walk(WalkStep::Key { node, key })])?;
    Ok(None)
}

fn descend(seat: &mut Seat, node: u32, key: u64, found: u64) -> Result<(), Stop> {
    if found == key {
        return seat.then(&[Step::Walk(WalkStep::Val { node, key })]);
    }
    let side = if key < found { Side::Left } else { Side::Right };
    let at = Link { node, side };
    seat.then(&[
        Step::Walk(WalkStep::Head(at)),
        Step::Walk(WalkStep::Arrive { at, key }),
    ])
}

// A look-up reports what it has found. One for a removal whose search has not found its key ends the try.
fn found(
    machine: &Machine,
    seat: &mut Seat,
    key: u64,
    val: Option<u64>,
) -> Result<Option<Report>, Stop> {
    if seat.checks {
        seat.checks = false;
        let outcome = if val.is_none() {
            Outcome::Absent
        } else {
            Outcome::Late
        };
        seat.then(&[Step::Tell(outcome), Step::Leave, Step::TakeBack])?;
        return Ok(None);
    }
    let Some(view) = machine.view(seat.number) else {
        return Ok(None);
    };
    let Some(at) = view.reading.section else {
        return Ok(None);
    };
    Ok(Some(Report::Found {
        at,
        key,
        val,
        counts: view.counts,
    }))
}
