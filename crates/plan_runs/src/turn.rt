// One turn of a pass: its next step, or the beginning of its next request.
use crate::machine::{Machine, Stop};
use crate::plain::plain_step;
use crate::prune::prune_step;
use crate::search::{begin_search, search_step};
use crate::seat::{Outcome, Report, Request, Seat, Step, WalkStep};
use crate::update::update_step;
use crate::walk::walk_step;
use core_rule::Kind;
use core_trees::{Link, ROOT};
use core_updates::PlanSlots;
use index_words::{Change, Side, Update, View, Word};
use std::alloc::Global;

/// How often a pass looks at all sections before a try ends without slots.
const ROUNDS: u32 = 3;

pub(crate) fn turn(
    alloc: Global,
    machine: &mut Machine,
    seat: &mut Seat,
    begins: bool,
) -> Result<Option<Report>, Stop> {
    match seat.steps.pop() {
        Some(step) => one_step(alloc, machine, seat, step),
        None => {
            if begins {
                begin(machine, seat)?;
            } else if is_reading(machine, seat.number) {
                seat.then(&[Step::Leave, Step::TakeBack])?;
            }
            Ok(None)
        }
    }
}

// Whether the pass has a snapshot open. One that is still open at the end is closed, so that no update waits for it.
fn is_reading(machine: &Machine, number: u32) -> bool {
    machine
        .view(number)
        .is_some_and(|view| view.reading.opened.is_some())
}

fn begin(machine: &Machine, seat: &mut Seat) -> Result<(), Stop> {
    let Some(request) = seat.requests.get(seat.at).copied() else {
        return Ok(());
    };
    match request {
        Request::Put { key, val } => begin_update(machine, seat, key, Change::Put(val)),
        Request::Remove { key } => begin_update(machine, seat, key, Change::Remove),
        Request::Open => {
            seat.at = seat.at.saturating_add(1);
            begin_section(seat, true)
        }
        Request::Get { key } => {
            seat.at = seat.at.saturating_add(1);
            let at = Link {
                node: ROOT,
                side: Side::Right,
            };
            seat.then(&[
                Step::Walk(WalkStep::Head(at)),
                Step::Walk(WalkStep::Arrive { at, key }),
            ])
        }
        Request::Close => {
            seat.at = seat.at.saturating_add(1);
            seat.then(&[Step::Leave, Step::TakeBack])
        }
    }
}

fn begin_update(machine: &Machine, seat: &mut Seat, key: u64, change: Change) -> Result<(), Stop> {
    seat.update = Some(Update {
        client: seat.number,
        line: (seat.at % 1_000_000) as u32,
        key,
        change,
    });
    if slots(machine, seat.number).is_some() {
        return begin_try(machine, seat);
    }
    seat.then(&[Step::Settle {
        pass: 0,
        rounds: ROUNDS,
    }])
}

fn begin_try(machine: &Machine, seat: &mut Seat) -> Result<(), Stop> {
    if let Some(slots) = slots(machine, seat.number) {
        seat.slots = slots;
    }
    begin_search(seat)?;
    begin_section(seat, false)
}

// Enters, and reads at the number that the load after the announcement finds.
pub(crate) fn begin_section(seat: &mut Seat, fix: bool) -> Result<(), Stop> {
    seat.then(&[
        Step::Enter,
        Step::LoadStamp { fix: false },
        Step::Announce,
        Step::LoadStamp { fix },
    ])
}

/// The first free node and the first four free entries of a pass. None if there are fewer.
fn slots(machine: &Machine, number: u32) -> Option<PlanSlots> {
    let free = &machine.view(number)?.free;
    let [node, ..] = free.nodes.as_slice() else {
        return None;
    };
    let [at, left, right, next, ..] = free.entries.as_slice() else {
        return None;
    };
    Some(PlanSlots {
        node: *node,
        at: *at,
        left: *left,
        right: *right,
        next: *next,
    })
}

fn one_step(
    alloc: Global,
    machine: &mut Machine,
    seat: &mut Seat,
    step: Step,
) -> Result<Option<Report>, Stop> {
    let number = seat.number;
    let done = match step {
        Step::Settle { pass, rounds } => settle(alloc, machine, seat, pass, rounds),
        Step::Enter => store_section(alloc, machine, number, Kind::Enter),
        Step::Leave => store_section(alloc, machine, number, Kind::Leave),
        Step::LoadStamp { fix } => {
            machine.step(alloc, number, Kind::LoadStamp, Word::Stamp, u64::from(fix))
        }
        Step::Announce => announce(alloc, machine, number),
        Step::TakeBack => machine.step(alloc, number, Kind::Announce, Word::Announced(number), 0),
        Step::Search(step) => search_step(alloc, machine, seat, step),
        Step::Walk(step) => return walk_step(alloc, machine, seat, step),
        Step::Update(step) => return update_step(alloc, machine, seat, step),
        Step::Plain(step) => plain_step(alloc, machine, seat, step),
        Step::Prune(step) => return prune_step(alloc, machine, seat, step),
        Step::Tell(outcome) => return tell(machine, seat, outcome),
    };
    done?;
    Ok(None)
}

fn store_section(
    alloc: Global,
    machine: &mut Machine,
    number: u32,
    kind: Kind,
) -> Result<(), Stop> {
    let own = Word::Section(number);
    let word = machine.word(own).saturating_add(1);
    machine.step(alloc, number, kind, own, word)
}

fn announce(alloc: Global, machine: &mut Machine, number: u32) -> Result<(), Stop> {
    let seen = machine
        .view(number)
        .map_or(0, |view| view.history.seen.len() as u64);
    let value = seen.saturating_add(1);
    machine.step(
        alloc,
        number,
        Kind::Announce,
        Word::Announced(number),
        value,
    )
}

fn tell(machine: &Machine, seat: &mut Seat, outcome: Outcome) -> Result<Option<Report>, Stop> {
    if outcome == Outcome::Done || outcome == Outcome::Absent {
        seat.at = seat.at.saturating_add(1);
    }
    let Some(view) = machine.view(seat.number) else {
        return Ok(None);
    };
    Ok(Some(Report::Tried {
        outcome,
        at: view.reading.section.unwrap_or(0),
        counts: view.counts,
    }))
}

fn has_waiting(view: &View) -> bool {
    !(view.retired.is_empty() && view.batch.is_empty())
}

// Looks at the other sections, one after another. A pass that is alone enters and leaves its section.
fn settle(
    alloc: Global,
    machine: &mut Machine,
    seat: &mut Seat,
    pass: u32,
    rounds: u32,
) -> Result<(), Stop> {
    let number = seat.number;
    if slots(machine, number).is_some() {
        return begin_try(machine, seat);
    }
    if rounds == 0 {
        return seat.then(&[Step::Tell(Outcome::NoSlot)]);
    }
    let passes = machine.layout.passes;
    if pass >= passes {
        let again = Step::Settle {
            pass: 0,
            rounds: rounds - 1,
        };
        if passes == 1 {
            return seat.then(&[Step::Enter, Step::Leave, again]);
        }
        return seat.then(&[again]);
    }
    let waits = machine.view(number).is_some_and(has_waiting);
    seat.then(&[Step::Settle {
        pass: pass.saturating_add(1),
        rounds,
    }])?;
    if pass == number || !waits {
        return Ok(());
    }
    machine.step(alloc, number, Kind::LookSec, Word::Section(pass), 0)
}
