// The steps of an update that has its plan, up to its last unlock.
use crate::machine::{Machine, Stop};
use crate::plain::last_of;
use crate::seat::{Outcome, PlainStep, PruneStep, Report, Seat, Step, UpdateStep};
use crate::update::head_of;
use crate::walk::entry_at;
use core_rule::Kind;
use core_updates::Plan;
use index_words::{Change, Field, Filled, Part, Side, Unlinking, Word};
use std::alloc::Global;

// The steps of an update that has its plan.
pub(crate) fn planned_step(
    alloc: Global,
    machine: &mut Machine,
    seat: &mut Seat,
    step: UpdateStep,
) -> Result<Option<Report>, Stop> {
    let Some(plan) = seat.plan else {
        return Ok(None);
    };
    let done = match step {
        UpdateStep::Head(place) => find_head(alloc, machine, seat, place),
        UpdateStep::Number => find_number(alloc, machine, seat),
        UpdateStep::FillNode(place) => fill_node(alloc, machine, seat, &plan, place),
        UpdateStep::FillFresh { side, place } => {
            fill_fresh(alloc, machine, seat, &plan, side, place)
        }
        UpdateStep::FillFront { front, place } => fill_front(alloc, machine, seat, front, place),
        UpdateStep::Prepare(place) => prepare(alloc, machine, seat, place),
        UpdateStep::Raise => return raise(alloc, machine, seat, &plan),
        UpdateStep::Finalise => finalise(alloc, machine, seat),
        UpdateStep::Mark(place) => mark(alloc, machine, seat, &plan, place),
        _ => Ok(()),
    };
    done?;
    Ok(None)
}

fn find_head(
    alloc: Global,
    machine: &mut Machine,
    seat: &mut Seat,
    place: usize,
) -> Result<(), Stop> {
    let Some(front) = seat.front(place) else {
        return Ok(());
    };
    let word = Word::Node(Field::Head(front.at.side), front.at.node);
    machine.step(alloc, seat.number, Kind::LoadHead, word, 0)?;
    seat.then(&[Step::Update(UpdateStep::Head(place.saturating_add(1)))])?;
    if machine.word(word) == 0 {
        return Ok(());
    }
    seat.then(&[Step::Update(UpdateStep::Number)])
}

// The newest entry of a bundle of a locked node that is unmarked has its number.
fn find_number(alloc: Global, machine: &mut Machine, seat: &Seat) -> Result<(), Stop> {
    let entry = machine.view(seat.number).map_or(0, entry_at);
    let word = Word::Entry(Part::Stamp, entry);
    machine.step(alloc, seat.number, Kind::LoadTs, word, 0)?;
    if machine.word(word) == 0 {
        return Err(Stop::Wrong);
    }
    Ok(())
}

fn fill(
    alloc: Global,
    machine: &mut Machine,
    seat: &mut Seat,
    filled: Filled,
    more: UpdateStep,
) -> Result<(), Stop> {
    machine.step(alloc, seat.number, Kind::Fill, filled.word, filled.value)?;
    seat.then(&[Step::Update(more)])
}

fn fill_node(
    alloc: Global,
    machine: &mut Machine,
    seat: &mut Seat,
    plan: &Plan,
    place: usize,
) -> Result<(), Stop> {
    let Some(node) = plan.new_node(&seat.slots) else {
        return Ok(());
    };
    let fills = node.fills();
    let Some(filled) = fills.get(place).copied() else {
        return Ok(());
    };
    let more = UpdateStep::FillNode(place.saturating_add(1));
    fill(alloc, machine, seat, filled, more)
}

fn fill_fresh(
    alloc: Global,
    machine: &mut Machine,
    seat: &mut Seat,
    plan: &Plan,
    side: Side,
    place: usize,
) -> Result<(), Stop> {
    let fresh = plan.new_node(&seat.slots).and_then(|node| match side {
        Side::Left => node.left,
        Side::Right => node.right,
    });
    let Some(fresh) = fresh else {
        return Ok(());
    };
    let fills = fresh.fills();
    let Some(filled) = fills.get(place).copied() else {
        return Ok(());
    };
    let more = UpdateStep::FillFresh {
        side,
        place: place.saturating_add(1),
    };
    fill(alloc, machine, seat, filled, more)
}

fn fill_front(
    alloc: Global,
    machine: &mut Machine,
    seat: &mut Seat,
    front: usize,
    place: usize,
) -> Result<(), Stop> {
    let Some(entry) = seat.front(front) else {
        return Ok(());
    };
    let behind = machine
        .view(seat.number)
        .and_then(|view| head_of(view, entry.at))
        .ok_or(Stop::Wrong)?;
    let fills = entry.fills(behind);
    match fills.get(place).copied() {
        Some(filled) => {
            let more = UpdateStep::FillFront {
                front,
                place: place.saturating_add(1),
            };
            fill(alloc, machine, seat, filled, more)
        }
        None => seat.then(&[Step::Update(UpdateStep::FillFront {
            front: front.saturating_add(1),
            place: 0,
        })]),
    }
}

fn prepare(
    alloc: Global,
    machine: &mut Machine,
    seat: &mut Seat,
    place: usize,
) -> Result<(), Stop> {
    let Some(front) = seat.front(place) else {
        return Ok(());
    };
    let word = Word::Node(Field::Head(front.at.side), front.at.node);
    machine.step(
        alloc,
        seat.number,
        Kind::Prepare,
        word,
        u64::from(front.entry),
    )?;
    seat.then(&[Step::Update(UpdateStep::Prepare(place.saturating_add(1)))])
}

fn raise(
    alloc: Global,
    machine: &mut Machine,
    seat: &mut Seat,
    plan: &Plan,
) -> Result<Option<Report>, Stop> {
    let Some(update) = seat.update else {
        return Ok(None);
    };
    machine.raise(alloc, seat.number, update)?;
    seat.then(&[
        Step::Update(UpdateStep::Finalise),
        Step::Prune(PruneStep::Look(0)),
        Step::Prune(PruneStep::Bundle(0)),
        Step::Update(UpdateStep::Mark(0)),
        Step::Plain(PlainStep::Link(0)),
        Step::Plain(PlainStep::Tag(0)),
        Step::Update(UpdateStep::Unlock),
        Step::Tell(Outcome::Done),
        Step::Leave,
        Step::TakeBack,
        Step::Plain(PlainStep::Wait(0)),
    ])?;
    Ok(Some(Report::Raised {
        at: machine.word(Word::Stamp),
        key: plan.key(),
        val: match plan.change() {
            Change::Put(val) => Some(val),
            Change::Remove => None,
        },
        was: !matches!(plan, Plan::Grow(_)),
    }))
}

fn finalise(alloc: Global, machine: &mut Machine, seat: &mut Seat) -> Result<(), Stop> {
    let Some(view) = machine.view(seat.number) else {
        return Ok(());
    };
    let raised = view.update.raised.unwrap_or(0);
    let Some(entry) = view.update.pending.as_slice().first().copied() else {
        return Ok(());
    };
    let word = Word::Entry(Part::Stamp, entry);
    machine.step(alloc, seat.number, Kind::Finalise, word, raised)?;
    seat.then(&[Step::Update(UpdateStep::Finalise)])
}

fn mark(
    alloc: Global,
    machine: &mut Machine,
    seat: &mut Seat,
    plan: &Plan,
    place: usize,
) -> Result<(), Stop> {
    let out = plan.out();
    let Some(node) = out.as_slice().get(place).copied() else {
        return Ok(());
    };
    if last_of(machine, seat.number).is_some_and(|last| last.successor == node) {
        return Ok(());
    }
    let word = Word::Node(Field::Mark, node);
    machine.step(alloc, seat.number, Kind::Mark, word, 1)?;
    seat.then(&[Step::Update(UpdateStep::Mark(place.saturating_add(1)))])
}

/// Whether the lock is kept until the successor is unlinked.
fn is_kept(last: Option<Unlinking>, node: u32) -> bool {
    last.is_some_and(|last| last.successor == node || last.parent == node)
}

pub(crate) fn unlock(alloc: Global, machine: &mut Machine, seat: &mut Seat) -> Result<(), Stop> {
    let Some(view) = machine.view(seat.number) else {
        return Ok(());
    };
    let last = view.update.unlinking;
    let Some(held) = view
        .held
        .nodes
        .as_slice()
        .iter()
        .find(|held| !is_kept(last, held.node))
    else {
        return Ok(());
    };
    let word = Word::Node(Field::Lock, held.node);
    machine.step(alloc, seat.number, Kind::Unlock, word, 0)?;
    seat.then(&[Step::Update(UpdateStep::Unlock)])
}
