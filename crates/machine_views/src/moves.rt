// The view of a seat after each kind of event.
ghost use Rattle.std.specs.Prelude.{◌≡◌, ◌≤◌, ◌++◌, OnOk, OnErr, IfOk, length, take, Some};
ghost use Rattle.core_grace.specs.Batches.{apart_from, both, looked};
ghost use Rattle.core_events.specs.Waits.{looked_by, looked_waiting};
ghost use Rattle.machine_views.specs.Gains.{with_gain, with_known};
ghost use Rattle.core_events.specs.Moves.{nowhere, entered, left, split_left, split_right, longer, own_number, own_ended, history_with, joined_with};

use core_grace::{current_looks, drop_slots, look_at, settle};
use index_words::{EndedPlace, Items, NoMemory, Place, Reading, SeenHistory, Slots, Update, View};
use std::alloc::{AllocError, Global};

/// Stands nowhere, and knows no link and no word that it has filled.
pub(crate) fn go_nowhere(reading: &mut Reading)
    ensures { reading.new ≡ nowhere reading.old }
{
    reading.place = Place::Nowhere;
    reading.above = None;
    reading.links.clear();
    reading.left_turn = None;
    reading.right_turn = None;
    reading.filled.clear();
}

/// The view inside a section. Where no batch waits, the retired slots become the batch. After a refusal the
/// view is unchanged.
pub fn enter(alloc: Global, view: &mut View, passes: u32, word: u64) -> Result<(), NoMemory>
    ensures ok { OnOk result (view.new ≡ entered passes view.old word) }
    ensures err { OnErr result (view.new ≡ view.old) }
{
    let looks = current_looks(alloc, view)?;
    settle(alloc, view, looks, passes)?;
    view.section_word = word;
    go_nowhere(&mut view.reading);
    Ok(())
}

/// The view outside of its section: what it read there is dropped, and it works on no node that it has brought in.
pub fn leave(alloc: Global, view: &mut View, word: u64)
    ensures { view.new ≡ left view.old word }
{
    view.section_word = word;
    view.reading = Reading::none(alloc);
    view.update.added = None;
}

fn look_for_slots(
    alloc: Global,
    view: &mut View,
    passes: u32,
    pass: u32,
    found: u64,
) -> Result<(), NoMemory>
    ensures ok { OnOk result (view.new ≡ looked passes view.old pass found) }
    ensures err { OnErr result (view.new ≡ view.old) }
{
    let mut looks = current_looks(alloc, view)?;
    look_at(&mut looks, pass, found)?;
    settle(alloc, view, looks, passes)
}

fn look_waiting(view: &mut View, pass: u32, found: u64) -> Result<(), NoMemory>
    ensures ok { OnOk result (view.new ≡ looked_waiting view.old pass found) }
    ensures err { OnErr result (view.new ≡ view.old) }
{
    look_at(&mut view.update.waiting, pass, found)
}

/// The view after a look that found this number in the section word of another pass: for its slots or, if it holds
/// locks, for the wait of its removal. After a refusal the view is unchanged.
pub fn look(
    alloc: Global,
    view: &mut View,
    passes: u32,
    pass: u32,
    found: u64,
) -> Result<(), NoMemory>
    ensures ok { OnOk result (view.new ≡ looked_by passes view.old pass found) }
    ensures err { OnErr result (view.new ≡ view.old) }
{
    if view.held.nodes.is_empty() {
        return look_for_slots(alloc, view, passes, pass, found);
    }
    look_waiting(view, pass, found)
}

fn first_nodes(alloc: Global, nodes: &[u32], count: u64) -> Result<Items<u32>, NoMemory>
    requires { count ≤ length nodes.now }
    ensures { IfOk result (λ first. first ≡ take count nodes.now) }
{
    let mut first = Items::new(alloc);
    first.append(&nodes[..count as usize])?;
    Ok(first)
}

/// The view that is split off: it has no number and has seen what this one has. So many of the first free nodes are to
/// move to it.
pub fn split_off(alloc: Global, view: &View, nodes: u64) -> Result<View, NoMemory>
    requires { nodes ≤ length view.now.free.nodes }
    ensures { IfOk result (λ part. part ≡ split_right view.now nodes) }
{
    let seen = view.history.seen.copy(alloc)?;
    let free = first_nodes(alloc, view.free.nodes.as_slice(), nodes)?;
    let mut part = View::empty(alloc, view.layout);
    part.history.seen = seen;
    part.free.nodes = free;
    Ok(part)
}

/// The view without the free nodes that were split off.
pub fn keep_rest(view: &mut View, nodes: u64)
    requires few { nodes ≤ 1 }
    requires there { nodes ≤ length view.old.free.nodes }
    ensures { view.new ≡ split_left view.old nodes }
{
    if nodes == 1 {
        view.free.nodes.remove_first();
    }
}

fn longer_of(
    alloc: Global,
    seen: &Items<Update>,
    other: &Items<Update>,
) -> Result<Items<Update>, NoMemory>
    ensures { IfOk result (λ both. both ≡ longer seen.now other.now) }
{
    if seen.len() < other.len() {
        other.copy(alloc)
    } else {
        seen.copy(alloc)
    }
}

fn number_list(alloc: Global, number: Option<u32>) -> Result<Items<u32>, NoMemory>
    ensures { IfOk result (λ list. list ≡ own_number number) }
{
    let mut list = Items::new(alloc);
    if let Some(number) = number {
        list.push(number)?;
    }
    Ok(list)
}

fn collect_places(alloc: Global, pass: u32, mine: &[u64]) -> Result<Vec<EndedPlace>, AllocError>
    ensures { IfOk result (λ list. list.items ≡ own_ended (Some pass) mine.now) }
{
    mine.iter()
        .map(|at| EndedPlace { pass, at: *at })
        .collect(alloc)
}

fn places_of(alloc: Global, pass: u32, mine: &[u64]) -> Result<Items<EndedPlace>, NoMemory>
    ensures { IfOk result (λ list. list ≡ own_ended (Some pass) mine.now) }
{
    Ok(Items::from_vec(collect_places(alloc, pass, mine)?))
}

fn ended_of(alloc: Global, number: Option<u32>, mine: &[u64]) -> Result<Items<EndedPlace>, NoMemory>
    ensures { IfOk result (λ list. list ≡ own_ended number mine.now) }
{
    match number {
        None => Ok(Items::new(alloc)),
        Some(pass) => places_of(alloc, pass, mine),
    }
}

/// What changes in the history that a view knows, when another view is joined into it.
#[derive(Drop)]
pub(crate) struct Known {
    seen: Items<Update>,
    told: Items<Update>,
    ended: Items<u32>,
    ended_places: Items<EndedPlace>,
}

/// What changes in a view that another one is joined into.
#[derive(Drop)]
pub struct Gained {
    known: Known,
    to_give: Items<u32>,
    free: Slots,
    retired: Slots,
    unused: Slots,
}

fn all_ended(
    alloc: Global,
    own: &Items<u32>,
    number: Option<u32>,
    other: &Items<u32>,
) -> Result<Items<u32>, NoMemory>
    ensures { IfOk result (λ ended. ended ≡ own.now ++ (other.now ++ own_number number)) }
{
    let last = number_list(alloc, number)?;
    let more = Items::concat(alloc, other.as_slice(), last.as_slice())?;
    Items::concat(alloc, own.as_slice(), more.as_slice())
}

fn all_places(
    alloc: Global,
    own: &Items<EndedPlace>,
    number: Option<u32>,
    other: &SeenHistory,
) -> Result<Items<EndedPlace>, NoMemory>
    ensures { IfOk result (λ places. places ≡ own.now ++ (other.now.ended_places ++ own_ended number other.now.mine)) }
{
    let last = ended_of(alloc, number, other.mine.as_slice())?;
    let more = Items::concat(alloc, other.ended_places.as_slice(), last.as_slice())?;
    Items::concat(alloc, own.as_slice(), more.as_slice())
}

fn all_retired(alloc: Global, own: &Slots, other: &View) -> Result<Slots, NoMemory>
    ensures { IfOk result (λ slots. slots ≡ both own.now (both other.now.retired other.now.batch)) }
{
    let more = Slots::concat(alloc, &other.retired, &other.batch)?;
    Slots::concat(alloc, own, &more)
}

/// The slots of a list that are not among these.
fn slots_apart(alloc: Global, slots: &Slots, out: &Slots) -> Result<Slots, NoMemory>
    ensures { IfOk result (λ kept. kept ≡ apart_from out.now slots.now) }
{
    let nodes = slots.nodes.copy(alloc)?;
    let entries = slots.entries.copy(alloc)?;
    let mut kept = Slots { nodes, entries };
    drop_slots(alloc, &mut kept, out);
    Ok(kept)
}

/// What the history of a view gains from that of another one, which has this number.
fn known_after(
    alloc: Global,
    history: &SeenHistory,
    number: Option<u32>,
    other: &SeenHistory,
) -> Result<Known, NoMemory>
    ensures { IfOk result (λ known. with_known history.now known ≡ history_with history.now number other.now) }
{
    let seen = longer_of(alloc, &history.seen, &other.seen)?;
    let told = other.seen.copy(alloc)?;
    let ended = all_ended(alloc, &history.ended, number, &other.ended)?;
    let ended_places = all_places(alloc, &history.ended_places, number, other)?;
    Ok(Known {
        seen,
        told,
        ended,
        ended_places,
    })
}

/// What a view gains from another one that is joined into it.
pub fn gain(alloc: Global, view: &View, other: &View) -> Result<Gained, NoMemory>
    ensures { IfOk result (λ gains. with_gain view.now gains ≡ joined_with view.now other.now) }
{
    let known = known_after(alloc, &view.history, other.number, &other.history)?;
    let to_give = Items::concat(alloc, view.to_give.as_slice(), other.to_give.as_slice())?;
    let free = Slots::concat(alloc, &view.free, &other.free)?;
    let retired = all_retired(alloc, &view.retired, other)?;
    let unused = slots_apart(alloc, &view.unused, &other.free)?;
    Ok(Gained {
        known,
        to_give,
        free,
        retired,
        unused,
    })
}

fn take_known(history: &mut SeenHistory, known: Known)
    ensures { history.new ≡ with_known history.old known }
{
    history.seen = known.seen;
    history.told = known.told;
    history.ended = known.ended;
    history.ended_places = known.ended_places;
}

/// The view with what it has gained.
pub fn take_gain(view: &mut View, gains: Gained)
    ensures { view.new ≡ with_gain view.old gains }
{
    take_known(&mut view.history, gains.known);
    let known = &mut view.reading.filled;
    known.clear();
    view.to_give = gains.to_give;
    view.free = gains.free;
    view.retired = gains.retired;
    view.unused = gains.unused;
}
