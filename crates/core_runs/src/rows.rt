// Tests of the machine as rows of text. A blank row and one that begins with `#` say nothing. Steps may share a row,
// with `; ` between them.
//
//     test NAME                           begins a test
//     sizes 1,4,1 1,4,1                   the table at its start, with the nodes, entries and calls of each pass
//     SEAT KIND WORD VALUE [UPDATE]       an event, which must be allowed
//     SEAT begin                          enter, load of the stamp, announcement of what is seen then, load of the
//                                         stamp
//     SEAT end                            leave, and the announcement is taken back
//     SEAT enter | leave | search KEY | lock NODE | unlock NODE | head LINK | entry ENTRY CHILD NEXT
//     SEAT fill NODE KEY VAL LEFT RIGHT | prepare LINK ENTRY CHILD | raise KEY Put VAL | raise KEY Remove
//     SEAT finalise ENTRY | mark NODE | link LINK CHILD | tag LINK
//     SEAT put LINK ENTRY CHILD KEY VAL | remove LINK ENTRY CHILD NODE KEY
//     refused SEAT ...                    an event or a raise, which must be refused, with everything unchanged
//     word WORD VALUE                     what the word must hold
//     view SEAT PART TEXT                 what the part of the seat's view must be
//     no view SEAT                        there is no such seat
//     no word NUMBER                      there is no such word
//     tree TOP NODES                      the tree that the newest entries must spell
//     reads SEAT NODES                    the tree that the seat must have read
use crate::reading::sizes_of;
use crate::row::{Act, Doing, doing_of, nodes_of};
use crate::shown::{part_of, push_parts};
use crate::table::Table;
use crate::words::address_of;
use index_words::Layout;
use std::alloc::{AllocError, Global};

/// Why a row does not hold.
#[derive(Debug, Drop)]
pub(crate) enum Fault {
    /// The text is not a row, or there is no table yet.
    NoRow,
    NotAllowed,
    Allowed,
    /// The event was refused, and something is not as it was.
    Changed,
    /// What was found instead of what the row wants.
    Found(String),
    NoMemory,
}

impl From<AllocError> for Fault {
    fn from(_: AllocError) -> Fault {
        Fault::NoMemory
    }
}

/// Carries out a row on the table, or compares what it says.
pub(crate) fn check_row(alloc: Global, table: &mut Option<Table>, row: &str) -> Result<(), Fault> {
    let (name, rest) = row.split_once(' ').ok_or(Fault::NoRow)?;
    if name == "sizes" {
        return starts(alloc, table, rest);
    }
    let table = table.as_mut().ok_or(Fault::NoRow)?;
    match name {
        "refused" => is_refused(alloc, table, rest),
        "word" => has_word(alloc, table, rest),
        "view" => has_part(alloc, table, rest),
        "no" => has_none(table, rest),
        "tree" => spells(alloc, table, rest),
        "reads" => reads(alloc, table, rest),
        _ => does_all(table, row),
    }
}

/// Starts a table with passes of these sizes.
fn starts(alloc: Global, table: &mut Option<Table>, sizes: &str) -> Result<(), Fault> {
    let sizes = sizes_of(alloc, sizes).ok_or(Fault::NoRow)?;
    let started = Table::start(alloc, sizes.as_slice()).ok_or(Fault::NoRow)?;
    drop(table.replace(started));
    Ok(())
}

fn does_all(table: &mut Table, row: &str) -> Result<(), Fault> {
    for step in row.split(';') {
        let (seat, doing) = step_of(table.layout(), step.trim()).ok_or(Fault::NoRow)?;
        if !does(table, seat, doing) {
            return Err(Fault::NotAllowed);
        }
    }
    Ok(())
}

fn step_of(layout: &Layout, step: &str) -> Option<(u32, Doing)> {
    let (seat, doing) = step.split_once(' ')?;
    let seat = seat.parse::<u32>().ok()?;
    Some((seat, doing_of(layout, seat, doing)?))
}

fn does(table: &mut Table, seat: u32, doing: Doing) -> bool {
    match doing {
        Doing::Event(event) => table.makes(&event),
        Doing::Raise { key, change } => {
            let event = table.raising(seat, key, change);
            table.makes(&event)
        }
        Doing::Act(act) => acts(table, seat, act),
    }
}

fn acts(table: &mut Table, seat: u32, act: Act) -> bool {
    match act {
        Act::Begin => table.begins(seat),
        Act::End => table.ends(seat),
        Act::Enter => table.enters(seat),
        Act::Leave => table.leaves(seat),
        Act::Search(key) => table.searches(seat, key),
        Act::Lock(node) => table.locks(seat, node),
        Act::Unlock(node) => table.unlocks(seat, node),
        Act::LoadHead(link) => table.loads_head(seat, link),
        Act::FillEntry { entry, child, next } => table.fills_entry(seat, entry, child, next),
        Act::Fill(node) => table.fills(seat, node),
        Act::Prepare(at) => table.prepares(seat, at),
        Act::Finalise(entry) => table.finalises(seat, entry),
        Act::Mark(node) => table.marks(seat, node),
        Act::SetLink { link, child } => table.sets_link(seat, link, child),
        Act::RaiseTag(link) => table.raises_tag(seat, link),
        Act::Put { at, key, val } => table.puts(seat, at, key, val),
        Act::Remove { at, old, key } => table.removes(seat, at, old, key),
    }
}

fn is_refused(alloc: Global, table: &mut Table, step: &str) -> Result<(), Fault> {
    let (seat, doing) = step_of(table.layout(), step).ok_or(Fault::NoRow)?;
    let event = match doing {
        Doing::Event(event) => event,
        Doing::Raise { key, change } => table.raising(seat, key, change),
        Doing::Act(_) => return Err(Fault::NoRow),
    };
    let before = all_of(alloc, table)?;
    if table.makes(&event) {
        return Err(Fault::Allowed);
    }
    if all_of(alloc, table)?.as_str() == before.as_str() {
        Ok(())
    } else {
        Err(Fault::Changed)
    }
}

/// All words and views, as text.
fn all_of(alloc: Global, table: &Table) -> Result<String, AllocError> {
    let mut text = String::new(alloc);
    for number in 0..table.layout().word_count() {
        let word = format!(in alloc; "{:?} ", table.word(number))?;
        text.push_str(word.as_str())?;
    }
    for seat in 0..u32::MAX {
        match table.view(seat) {
            None => break,
            Some(view) => push_parts(alloc, view, &mut text)?,
        }
    }
    Ok(text)
}

fn has_word(alloc: Global, table: &Table, rest: &str) -> Result<(), Fault> {
    let (name, wanted) = rest.split_once(' ').ok_or(Fault::NoRow)?;
    let address = address_of(table.layout(), name).ok_or(Fault::NoRow)?;
    let word = table.word(address).ok_or(Fault::NoRow)?;
    let found = format!(in alloc; "{word}")?;
    is_wanted(found, wanted)
}

fn has_part(alloc: Global, table: &Table, rest: &str) -> Result<(), Fault> {
    let (seat, rest) = rest.split_once(' ').ok_or(Fault::NoRow)?;
    let (name, wanted) = rest.split_once(' ').ok_or(Fault::NoRow)?;
    let seat = seat_of(seat)?;
    let view = table.view(seat).ok_or(Fault::NoRow)?;
    let found = part_of(alloc, view, name)?.ok_or(Fault::NoRow)?;
    is_wanted(found, wanted)
}

fn seat_of(text: &str) -> Result<u32, Fault> {
    text.parse::<u32>().ok().ok_or(Fault::NoRow)
}

fn number_of(text: &str) -> Result<u64, Fault> {
    text.parse::<u64>().ok().ok_or(Fault::NoRow)
}

fn is_wanted(found: String, wanted: &str) -> Result<(), Fault> {
    if found.as_str() == wanted {
        Ok(())
    } else {
        Err(Fault::Found(found))
    }
}

fn has_none(table: &Table, rest: &str) -> Result<(), Fault> {
    let (kind, number) = rest.split_once(' ').ok_or(Fault::NoRow)?;
    let is_none = match kind {
        "view" => table.view(seat_of(number)?).is_none(),
        "word" => table.word(number_of(number)?).is_none(),
        _ => return Err(Fault::NoRow),
    };
    if is_none { Ok(()) } else { Err(Fault::Allowed) }
}

fn spells(alloc: Global, table: &Table, rest: &str) -> Result<(), Fault> {
    let mut words = rest.split(' ');
    let top = words.next().ok_or(Fault::NoRow)?;
    let top = number_of(top)?;
    let nodes = nodes_of(alloc, words).ok_or(Fault::NoRow)?;
    if table.spells(top, nodes.as_slice()) {
        Ok(())
    } else {
        Err(Fault::Found(String::new(alloc)))
    }
}

fn reads(alloc: Global, table: &Table, rest: &str) -> Result<(), Fault> {
    let mut words = rest.split(' ');
    let seat = words.next().ok_or(Fault::NoRow)?;
    let seat = seat_of(seat)?;
    let nodes = nodes_of(alloc, words).ok_or(Fault::NoRow)?;
    if table.reads(seat, nodes.as_slice()) {
        return Ok(());
    }
    match table.view(seat) {
        None => Err(Fault::NoRow),
        Some(view) => Err(Fault::Found(part_of(alloc, view, "tree")?.ok_or(Fault::NoRow)?)),
    }
}
