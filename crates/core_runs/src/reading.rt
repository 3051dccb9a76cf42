// A run as text. The first line has the size of each pass, as `nodes,entries,calls`, between single spaces. Each line
// after it is an event: seat, kind, word and value, and for a raise the update as client, line, key, and `Put` with
// its value or `Remove`. A word is given by its number.
use core_rule::{Event, Kind};
use index_words::{Change, PassSize, Update};
use std::alloc::Global;
use std::str::Split;

/// The kinds by their names.
const KINDS: [(&str, Kind); 27] = [
    ("MakeSeat", Kind::MakeSeat),
    ("SplitSeat", Kind::SplitSeat),
    ("JoinSeat", Kind::JoinSeat),
    ("Enter", Kind::Enter),
    ("Leave", Kind::Leave),
    ("LookSec", Kind::LookSec),
    ("Fill", Kind::Fill),
    ("LoadStamp", Kind::LoadStamp),
    ("LoadHead", Kind::LoadHead),
    ("LoadTs", Kind::LoadTs),
    ("LoadPtr", Kind::LoadPtr),
    ("LoadNext", Kind::LoadNext),
    ("Prepare", Kind::Prepare),
    ("Raise", Kind::Raise),
    ("Finalise", Kind::Finalise),
    ("TryLock", Kind::TryLock),
    ("Unlock", Kind::Unlock),
    ("LoadMark", Kind::LoadMark),
    ("Mark", Kind::Mark),
    ("LoadKeyOrVal", Kind::LoadKeyOrVal),
    ("Announce", Kind::Announce),
    ("LookAnn", Kind::LookAnn),
    ("Cut", Kind::Cut),
    ("LoadLink", Kind::LoadLink),
    ("SetLink", Kind::SetLink),
    ("LoadTag", Kind::LoadTag),
    ("SetTag", Kind::SetTag),
];

/// A run that was read.
#[derive(Drop)]
pub(crate) struct Run {
    pub(crate) sizes: Vec<PassSize>,
    pub(crate) events: Vec<Event>,
}

/// The run of a text. None if the text is not a run, or when out of memory.
pub(crate) fn run_of_text(alloc: Global, text: &str) -> Option<Run> {
    let mut lines = text.lines();
    let sizes = sizes_of(alloc, lines.next()?)?;
    let mut events = Vec::new(alloc);
    for line in lines {
        events.push(event_of(line)?).ok()?;
    }
    Some(Run { sizes, events })
}

/// The sizes of passes, between single spaces. None if one is not a size, or when out of memory.
pub(crate) fn sizes_of(alloc: Global, text: &str) -> Option<Vec<PassSize>> {
    let mut sizes = Vec::new(alloc);
    for size in text.split(' ') {
        sizes.push(size_of(size)?).ok()?;
    }
    Some(sizes)
}

fn size_of(text: &str) -> Option<PassSize> {
    let mut fields = text.split(',');
    Some(PassSize {
        nodes: next_u32(&mut fields)?,
        entries: next_u32(&mut fields)?,
        calls: next_u32(&mut fields)?,
    })
}

/// The number in the next field. None if there is no field, or it is not such a number.
pub(crate) fn next_u32(fields: &mut Split<'_, char>) -> Option<u32> {
    fields.next()?.parse::<u32>().ok()
}

/// The number in the next field. None if there is no field, or it is not such a number.
pub(crate) fn next_u64(fields: &mut Split<'_, char>) -> Option<u64> {
    fields.next()?.parse::<u64>().ok()
}

fn event_of(line: &str) -> Option<Event> {
    let mut fields = line.split(' ');
    Some(Event {
        seat: next_u32(&mut fields)?,
        kind: kind_of(fields.next()?)?,
        word: next_u64(&mut fields)?,
        value: next_u64(&mut fields)?,
        update: update_of(&mut fields),
    })
}

pub(crate) fn update_of(fields: &mut Split<'_, char>) -> Option<Update> {
    Some(Update {
        client: next_u32(fields)?,
        line: next_u32(fields)?,
        key: next_u64(fields)?,
        change: change_of(fields)?,
    })
}

pub(crate) fn change_of(fields: &mut Split<'_, char>) -> Option<Change> {
    match fields.next()? {
        "Put" => Some(Change::Put(next_u64(fields)?)),
        "Remove" => Some(Change::Remove),
        _ => None,
    }
}

/// The kind with this name.
pub(crate) fn kind_of(name: &str) -> Option<Kind> {
    for (kind_name, kind) in &KINDS {
        if *kind_name == name {
            return Some(*kind);
        }
    }
    None
}
