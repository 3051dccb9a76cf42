// The steps of an update, from its locks to its plan.
use crate::machine::{Machine, Stop};
use crate::planned::{planned_step, unlock};
use crate::search::begin_next;
use crate::seat::{Aim, Found, Gap, Outcome, Report, Seat, Step, UpdateStep};
use core_rule::Kind;
use core_trees::Link;
use core_updates::{GrowPlan, JoinPlan, LiftPlan, NextNode, Plan, ReplacePlan};
use index_words::{Change, Field, HeldNode, Pair, Side, View, Word};
use std::alloc::Global;

pub(crate) fn update_step(
    alloc: Global,
    machine: &mut Machine,
    seat: &mut Seat,
    step: UpdateStep,
) -> Result<Option<Report>, Stop> {
    let done = match step {
        UpdateStep::Lock(node) => lock(alloc, machine, seat, node),
        UpdateStep::Unmarked(node) => look_unmarked(alloc, machine, seat, node),
        UpdateStep::Leads { at, child } => look_leads(alloc, machine, seat, at, child),
        UpdateStep::SameTag(gap) => look_at_tag(alloc, machine, seat, gap),
        UpdateStep::Learn(word) => learn(alloc, machine, seat, word),
        UpdateStep::Plan(aim) => make_plan(machine, seat, aim),
        UpdateStep::Unlock => unlock(alloc, machine, seat),
        _ => return planned_step(alloc, machine, seat, step),
    };
    done?;
    Ok(None)
}

fn lock(alloc: Global, machine: &mut Machine, seat: &mut Seat, node: u32) -> Result<(), Stop> {
    let word = Word::Node(Field::Lock, node);
    let was_free = machine.word(word) == 0;
    let own = u64::from(seat.number) + 1;
    machine.step(alloc, seat.number, Kind::TryLock, word, own)?;
    if was_free {
        Ok(())
    } else {
        seat.give_up(Outcome::Busy)
    }
}

fn look_unmarked(
    alloc: Global,
    machine: &mut Machine,
    seat: &mut Seat,
    node: u32,
) -> Result<(), Stop> {
    let word = Word::Node(Field::Mark, node);
    machine.step(alloc, seat.number, Kind::LoadMark, word, 0)?;
    if machine.word(word) == 0 {
        Ok(())
    } else {
        seat.give_up(Outcome::Moved)
    }
}

fn look_leads(
    alloc: Global,
    machine: &mut Machine,
    seat: &mut Seat,
    at: Link,
    child: u32,
) -> Result<(), Stop> {
    let word = Word::Node(Field::Link(at.side), at.node);
    machine.step(alloc, seat.number, Kind::LoadLink, word, 0)?;
    if machine.word(word) == u64::from(child) {
        Ok(())
    } else {
        seat.give_up(Outcome::Moved)
    }
}

fn look_at_tag(
    alloc: Global,
    machine: &mut Machine,
    seat: &mut Seat,
    gap: Gap,
) -> Result<(), Stop> {
    let word = Word::Node(Field::Tag(gap.at.side), gap.at.node);
    machine.step(alloc, seat.number, Kind::LoadTag, word, 0)?;
    if machine.word(word) == gap.tag {
        Ok(())
    } else {
        seat.give_up(Outcome::Moved)
    }
}

fn learn(alloc: Global, machine: &mut Machine, seat: &Seat, word: Word) -> Result<(), Stop> {
    let kind = match word {
        Word::Node(Field::Link(_), _) => Kind::LoadLink,
        _ => Kind::LoadKeyOrVal,
    };
    machine.step(alloc, seat.number, kind, word, 0)
}

// What a view knows of a node that it has locked.
fn held_of(view: &View, node: u32) -> Option<&HeldNode> {
    view.held
        .nodes
        .as_slice()
        .iter()
        .find(|held| held.node == node)
}

fn child_of(held: &HeldNode, side: Side) -> Option<u32> {
    let link = match side {
        Side::Left => held.left.link?,
        Side::Right => held.right.link?,
    };
    u32::try_from(link).ok()
}

/// The newest entry of a bundle, as it was found under the lock.
pub(crate) fn head_of(view: &View, at: Link) -> Option<u32> {
    let held = held_of(view, at.node)?;
    let head = match at.side {
        Side::Left => held.left.head?,
        Side::Right => held.right.head?,
    };
    u32::try_from(head.entry).ok()
}

fn replace_plan(view: &View, pair: Pair, found: Found) -> Option<Plan> {
    let held = held_of(view, found.node)?;
    Some(Plan::Replace(ReplacePlan {
        pair,
        at: found.at,
        node: found.node,
        left: child_of(held, Side::Left)?,
        right: child_of(held, Side::Right)?,
    }))
}

fn join_plan(view: &View, key: u64, removed: Found, next: Found) -> Option<Plan> {
    let held = held_of(view, removed.node)?;
    let last = held_of(view, next.node)?;
    Some(Plan::Join(JoinPlan {
        key,
        at: removed.at,
        node: removed.node,
        left: child_of(held, Side::Left)?,
        right: child_of(held, Side::Right)?,
        next: NextNode {
            at: next.at,
            node: next.node,
            pair: Pair {
                key: last.key?,
                val: last.val?,
            },
            right: child_of(last, Side::Right)?,
        },
    }))
}

/// The children of a locked node.
fn children_of(view: &View, node: u32) -> Option<(u32, u32)> {
    let held = held_of(view, node)?;
    Some((child_of(held, Side::Left)?, child_of(held, Side::Right)?))
}

// A node with two children is removed with its successor, which has to be found first.
fn removal(machine: &Machine, seat: &mut Seat, key: u64, found: Found) -> Result<(), Stop> {
    let (left, right) = machine
        .view(seat.number)
        .and_then(|view| children_of(view, found.node))
        .ok_or(Stop::Wrong)?;
    if left != 0 && right != 0 {
        return begin_next(seat, found, right);
    }
    let (bare, child) = if left == 0 {
        (Side::Left, right)
    } else {
        (Side::Right, left)
    };
    let at = found.at;
    let node = found.node;
    carry_out(
        seat,
        Plan::Lift(LiftPlan {
            key,
            at,
            node,
            bare,
            child,
        }),
    )
}

// Makes the plan of the update from what was found under the locks.
fn make_plan(machine: &Machine, seat: &mut Seat, aim: Aim) -> Result<(), Stop> {
    let Some(update) = seat.update else {
        return Ok(());
    };
    let key = update.key;
    let val = match update.change {
        Change::Put(val) => val,
        Change::Remove => 0,
    };
    let pair = Pair { key, val };
    let view = machine.view(seat.number).ok_or(Stop::Wrong)?;
    let plan = match aim {
        Aim::Grow(at) => Some(Plan::Grow(GrowPlan { pair, at })),
        Aim::Replace(found) => replace_plan(view, pair, found),
        Aim::Remove(found) => return removal(machine, seat, key, found),
        Aim::Join { removed, next } => join_plan(view, key, removed, next),
    };
    carry_out(seat, plan.ok_or(Stop::Wrong)?)
}

fn carry_out(seat: &mut Seat, plan: Plan) -> Result<(), Stop> {
    seat.plan = Some(plan);
    seat.then(&[
        Step::Update(UpdateStep::Head(0)),
        Step::Update(UpdateStep::FillNode(0)),
        Step::Update(UpdateStep::FillFresh {
            side: Side::Left,
            place: 0,
        }),
        Step::Update(UpdateStep::FillFresh {
            side: Side::Right,
            place: 0,
        }),
        Step::Update(UpdateStep::FillFront { front: 0, place: 0 }),
        Step::Update(UpdateStep::Prepare(0)),
        Step::Update(UpdateStep::Raise),
    ])
}
