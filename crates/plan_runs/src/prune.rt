// The bundles that an update has changed are cut after what the least announced number selects.
use crate::machine::{Machine, Stop};
use crate::seat::{PruneStep, Report, Seat, Step};
use crate::walk::entry_at;
use core_rule::Kind;
use index_words::{Field, Part, Word};
use std::alloc::Global;

pub(crate) fn prune_step(
    alloc: Global,
    machine: &mut Machine,
    seat: &mut Seat,
    step: PruneStep,
) -> Result<Option<Report>, Stop> {
    let entry = machine.view(seat.number).map_or(0, entry_at);
    let done = match step {
        PruneStep::Look(pass) => look(alloc, machine, seat, pass),
        PruneStep::Bundle(place) => bundle(alloc, machine, seat, place),
        PruneStep::Number => number(alloc, machine, seat, entry),
        PruneStep::Next => next(alloc, machine, seat, entry),
        PruneStep::Cut(entry) => return cut(alloc, machine, seat, entry),
    };
    done?;
    Ok(None)
}

fn look(alloc: Global, machine: &mut Machine, seat: &mut Seat, pass: u32) -> Result<(), Stop> {
    if pass >= machine.layout.passes {
        return Ok(());
    }
    seat.then(&[Step::Prune(PruneStep::Look(pass.saturating_add(1)))])?;
    if pass == seat.number {
        return Ok(());
    }
    machine.step(alloc, seat.number, Kind::LookAnn, Word::Announced(pass), 0)
}

fn bundle(alloc: Global, machine: &mut Machine, seat: &mut Seat, place: usize) -> Result<(), Stop> {
    let Some(front) = seat.front(place) else {
        return Ok(());
    };
    let word = Word::Node(Field::Head(front.at.side), front.at.node);
    machine.step(alloc, seat.number, Kind::LoadHead, word, 0)?;
    seat.then(&[
        Step::Prune(PruneStep::Number),
        Step::Prune(PruneStep::Bundle(place.saturating_add(1))),
    ])
}

// The number of the entry at which the pass stands: the first entry whose number is not above the least one is the last
// to be kept.
fn number(alloc: Global, machine: &mut Machine, seat: &mut Seat, entry: u32) -> Result<(), Stop> {
    if entry == 0 {
        return Ok(());
    }
    let word = Word::Entry(Part::Stamp, entry);
    machine.step(alloc, seat.number, Kind::LoadTs, word, 0)?;
    let least = machine
        .view(seat.number)
        .and_then(|view| view.reading.least)
        .unwrap_or(0);
    if machine.word(word) <= least {
        seat.then(&[Step::Prune(PruneStep::Cut(entry))])
    } else {
        seat.then(&[Step::Prune(PruneStep::Next)])
    }
}

fn next(alloc: Global, machine: &mut Machine, seat: &mut Seat, entry: u32) -> Result<(), Stop> {
    let word = Word::Entry(Part::Next, entry);
    machine.step(alloc, seat.number, Kind::LoadNext, word, 0)?;
    seat.then(&[Step::Prune(PruneStep::Number)])
}

fn cut(
    alloc: Global,
    machine: &mut Machine,
    seat: &Seat,
    entry: u32,
) -> Result<Option<Report>, Stop> {
    let word = Word::Entry(Part::Next, entry);
    let next = machine.word(word);
    machine.step(alloc, seat.number, Kind::Cut, word, 0)?;
    Ok(Some(Report::Cut { entry, next }))
}
