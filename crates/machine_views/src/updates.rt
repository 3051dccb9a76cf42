// The view of a seat after each kind of event of an update.
ghost use Rattle.std.specs.Prelude.{◌≡◌, ◌+◌, ◌-◌, ◌++◌, ◌<◌, ◌^◌, Some as There, OnOk, OnErr, IfOk};
ghost use Rattle.core_grace.specs.Holds.{listed};
ghost use Rattle.core_events.specs.UpdateMoves.{without, without_all, prepared, raised_view, finalised};
ghost use Rattle.machine_views.specs.Gains.{lengthened};

use crate::loads::hold_head;
use crate::moves::go_nowhere;
use core_events::TreeMove;
use core_events::reads::is_in;
use index_words::{Items, LoadedHead, NoMemory, SeenHistory, Side, Slots, Update, Updating, View};
use std::alloc::Global;

fn keep_others(numbers: &mut Vec<u32>, number: u32)
    ensures { numbers.new.items ≡ without number numbers.old.items }
{
    numbers.retain(|own| *own != number);
}

/// The list without a number.
pub(crate) fn drop_number(alloc: Global, list: &mut Items<u32>, number: u32)
    ensures { list.new ≡ without number list.old }
{
    let mut numbers = std::mem::replace(list, Items::new(alloc)).into_vec();
    keep_others(&mut numbers, number);
    *list = Items::from_vec(numbers);
}

/// The view after a prepare of an entry at this head. After a refusal it is unchanged.
pub fn prepare(
    alloc: Global,
    view: &mut View,
    side: Side,
    node: u32,
    entry: u32,
) -> Result<(), NoMemory>
    ensures ok { OnOk result (view.new ≡ prepared view.old side node entry) }
    ensures err { OnErr result (view.new ≡ view.old) }
{
    view.update.pending.push(entry)?;
    let head = LoadedHead {
        entry: u64::from(entry),
        stamp: None,
    };
    hold_head(alloc, &mut view.held, node, side, head);
    drop_number(alloc, &mut view.free.entries, entry);
    Ok(())
}

fn keep_without(numbers: &mut Vec<u32>, out: &[u32])
    ensures { numbers.new.items ≡ without_all out.now numbers.old.items }
{
    numbers.retain(|own| !is_in(out, *own));
}

/// The list without these numbers.
fn drop_numbers(alloc: Global, list: &mut Items<u32>, out: &[u32])
    ensures { list.new ≡ without_all out.now list.old }
{
    let mut numbers = std::mem::replace(list, Items::new(alloc)).into_vec();
    keep_without(&mut numbers, out);
    *list = Items::from_vec(numbers);
}

fn drop_added(alloc: Global, list: &mut Items<u32>, added: Option<u32>)
    ensures { list.new ≡ without_all (listed added) list.old }
{
    match added {
        None => drop_numbers(alloc, list, &[]),
        Some(node) => drop_numbers(alloc, list, &[node]),
    }
}

/// The lists of a view that a raise makes longer.
#[derive(Drop)]
pub(crate) struct Longer {
    mine: Items<u64>,
    pending: Items<u32>,
    retired: Slots,
}

/// The slots with these after them.
fn longer_slots(
    alloc: Global,
    slots: &Slots,
    nodes: &[u32],
    entries: &[u32],
) -> Result<Slots, NoMemory>
    ensures { IfOk result (λ longer. longer ≡ record { nodes = slots.now.nodes ++ nodes.now; entries = slots.now.entries ++ entries.now }) }
{
    let nodes = Items::concat(alloc, slots.nodes.as_slice(), nodes)?;
    let entries = Items::concat(alloc, slots.entries.as_slice(), entries)?;
    Ok(Slots { nodes, entries })
}

fn longer_lists(
    alloc: Global,
    view: &View,
    place: u64,
    moved: &TreeMove,
) -> Result<Longer, NoMemory>
    ensures { IfOk result (λ longer. longer ≡ lengthened view.now place moved.now) }
{
    let mine = Items::concat(alloc, view.history.mine.as_slice(), &[place])?;
    let pending = Items::concat(
        alloc,
        view.update.pending.as_slice(),
        moved.entries.as_slice(),
    )?;
    let retired = longer_slots(
        alloc,
        &view.retired,
        moved.taken.as_slice(),
        moved.taken_entries.as_slice(),
    )?;
    Ok(Longer {
        mine,
        pending,
        retired,
    })
}

/// The history of a view after a raise, with these lists.
fn note_raise(history: &mut SeenHistory, seen: Items<Update>, mine: Items<u64>)
    requires left { 0 < history.old.left }
    ensures { history.new ≡ record history.old { seen = seen; mine = mine; left = history.old.left - 1 } }
{
    history.seen = seen;
    history.mine = mine;
    history.left -= 1;
}

/// The free slots without those that a raise brings in.
fn use_slots(alloc: Global, free: &mut Slots, moved: &TreeMove)
    ensures { free.new ≡ record { nodes = without_all (listed moved.now.added) free.old.nodes; entries = without_all moved.now.entries free.old.entries } }
{
    drop_added(alloc, &mut free.nodes, moved.added);
    drop_numbers(alloc, &mut free.entries, moved.entries.as_slice());
}

/// The update of a view after a raise at this place, with these entries without a number.
fn take_move(update: &mut Updating, place: u64, pending: Items<u32>, moved: TreeMove)
    ensures { update.new ≡ record update.old { raised = There place; added = moved.added; taken = moved.taken; pending = pending; unset = moved.plain.unset; owed = moved.plain.owed; unlinking = moved.plain.unlinking } }
{
    update.raised = Some(place);
    update.added = moved.added;
    update.taken = moved.taken;
    update.pending = pending;
    update.unset = moved.plain.unset;
    update.owed = moved.plain.owed;
    update.unlinking = moved.plain.unlinking;
}

/// The view after a raise of this update, where `known` is the whole history before it and `stamp` its length.
/// After a refusal it is unchanged.
pub fn raise(
    alloc: Global,
    view: &mut View,
    known: Items<Update>,
    stamp: u64,
    update: Update,
    moved: TreeMove,
) -> Result<(), NoMemory>
    requires left { 0 < view.old.history.left }
    requires small { stamp + 1 < 2 ^ 64 }
    ensures ok { OnOk result (view.new ≡ raised_view known view.old stamp update moved) }
    ensures err { OnErr result (view.new ≡ view.old) }
{
    let mut seen = known;
    seen.push(update)?;
    let place = stamp + 1;
    let Longer {
        mine,
        pending,
        retired,
    } = longer_lists(alloc, view, place, &moved)?;
    note_raise(&mut view.history, seen, mine);
    go_nowhere(&mut view.reading);
    use_slots(alloc, &mut view.free, &moved);
    view.retired = retired;
    take_move(&mut view.update, place, pending, moved);
    Ok(())
}

/// The view after this entry was finalised.
pub fn finalise(alloc: Global, view: &mut View, entry: u32)
    ensures { view.new ≡ finalised view.old entry }
{
    drop_number(alloc, &mut view.update.pending, entry);
}
