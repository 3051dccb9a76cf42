// The plain links that an update sets after its marks, and the tags of those that a removal has made null. The link to
// a successor is set last, when every other pass was found outside of its section, or in a later one.
use crate::machine::{Machine, Stop};
use crate::seat::{PlainStep, Seat, Step, UpdateStep};
use core_rule::Kind;
use core_trees::Link;
use index_words::{Change, Field, Unlinking, View, Word};
use std::alloc::Global;

pub(crate) fn plain_step(
    alloc: Global,
    machine: &mut Machine,
    seat: &mut Seat,
    step: PlainStep,
) -> Result<(), Stop> {
    match step {
        PlainStep::Link(place) => set_link(alloc, machine, seat, place),
        PlainStep::Tag(place) => load_tag(alloc, machine, seat, place),
        PlainStep::Raise(at) => raise_tag(alloc, machine, seat, at),
        PlainStep::Wait(pass) => wait(alloc, machine, seat, pass),
        PlainStep::Last => mark_last(alloc, machine, seat),
        PlainStep::Unlink => unlink(alloc, machine, seat),
        PlainStep::LastTag => raise_last(alloc, machine, seat),
    }
}

/// The successor that the update still has to unlink.
pub(crate) fn last_of(machine: &Machine, number: u32) -> Option<Unlinking> {
    machine.view(number)?.update.unlinking
}

fn is_last(machine: &Machine, number: u32, at: Link) -> bool {
    last_of(machine, number).is_some_and(|last| last.parent == at.node && last.side == at.side)
}

// Sets the link in front of whose bundle an entry was put to the entry's child, and then the links after it.
fn set_link(
    alloc: Global,
    machine: &mut Machine,
    seat: &mut Seat,
    place: usize,
) -> Result<(), Stop> {
    let Some(front) = seat.front(place) else {
        return Ok(());
    };
    if is_last(machine, seat.number, front.at) {
        return Ok(());
    }
    let word = Word::Node(Field::Link(front.at.side), front.at.node);
    machine.step(
        alloc,
        seat.number,
        Kind::SetLink,
        word,
        u64::from(front.child),
    )?;
    seat.then(&[Step::Plain(PlainStep::Link(place.saturating_add(1)))])
}

// The tag of the link to a successor is loaded inside the section, and raised after the wait.
fn load_tag(
    alloc: Global,
    machine: &mut Machine,
    seat: &mut Seat,
    place: usize,
) -> Result<(), Stop> {
    let Some(plan) = seat.plan else {
        return Ok(());
    };
    let Some(front) = seat.front(place) else {
        return Ok(());
    };
    let more = Step::Plain(PlainStep::Tag(place.saturating_add(1)));
    if plan.change() != Change::Remove || front.child != 0 {
        return seat.then(&[more]);
    }
    machine.step(alloc, seat.number, Kind::LoadTag, tag_of(front.at), 0)?;
    if is_last(machine, seat.number, front.at) {
        return seat.then(&[more]);
    }
    seat.then(&[Step::Plain(PlainStep::Raise(front.at)), more])
}

fn raise_tag(alloc: Global, machine: &mut Machine, seat: &Seat, at: Link) -> Result<(), Stop> {
    let word = tag_of(at);
    let tag = machine.word(word).saturating_add(1);
    machine.step(alloc, seat.number, Kind::SetTag, word, tag)
}

fn tag_of(at: Link) -> Word {
    Word::Node(Field::Tag(at.side), at.node)
}

fn is_passed(view: &View, pass: u32) -> bool {
    view.update.waiting.passed.as_slice().contains(&pass)
}

// Looks at the other sections, one after another, again and again until every pass was passed.
fn wait(alloc: Global, machine: &mut Machine, seat: &mut Seat, pass: u32) -> Result<(), Stop> {
    let number = seat.number;
    let passes = machine.layout.passes;
    let Some(view) = machine.view(number) else {
        return Ok(());
    };
    if view.update.unlinking.is_none() {
        return Ok(());
    }
    if (0..passes).all(|other| other == number || is_passed(view, other)) {
        return seat.then(&[
            Step::Plain(PlainStep::Last),
            Step::Plain(PlainStep::Unlink),
            Step::Plain(PlainStep::LastTag),
            Step::Update(UpdateStep::Unlock),
        ]);
    }
    if pass >= passes {
        return seat.then(&[Step::Plain(PlainStep::Wait(0))]);
    }
    let looks = pass != number && !is_passed(view, pass);
    seat.then(&[Step::Plain(PlainStep::Wait(pass.saturating_add(1)))])?;
    if !looks {
        return Ok(());
    }
    machine.step(alloc, number, Kind::LookSec, Word::Section(pass), 0)
}

fn mark_last(alloc: Global, machine: &mut Machine, seat: &Seat) -> Result<(), Stop> {
    let Some(last) = last_of(machine, seat.number) else {
        return Ok(());
    };
    let word = Word::Node(Field::Mark, last.successor);
    machine.step(alloc, seat.number, Kind::Mark, word, 1)
}

fn unlink(alloc: Global, machine: &mut Machine, seat: &Seat) -> Result<(), Stop> {
    let Some(view) = machine.view(seat.number) else {
        return Ok(());
    };
    let Some(link) = view.update.unset.as_slice().first().copied() else {
        return Ok(());
    };
    let word = Word::Node(Field::Link(link.side), link.node);
    machine.step(alloc, seat.number, Kind::SetLink, word, link.child)
}

fn raise_last(alloc: Global, machine: &mut Machine, seat: &Seat) -> Result<(), Stop> {
    let Some(view) = machine.view(seat.number) else {
        return Ok(());
    };
    let Some(owed) = view.update.owed.as_slice().first().copied() else {
        return Ok(());
    };
    let at = Link {
        node: owed.node,
        side: owed.side,
    };
    raise_tag(alloc, machine, seat, at)
}
