// The parts of a view as text, by their names, as Rust's `{:?}` prints them.
use index_words::View;
use std::alloc::{AllocError, Global};
use std::fmt::Debug;

/// The names of all parts.
const PARTS: [&str; 45] = [
    "number",
    "joined",
    "to_give",
    "section_word",
    "announced",
    "updates",
    "seen",
    "told",
    "mine",
    "ended",
    "left",
    "found",
    "looks",
    "counts",
    "section",
    "opened",
    "tree",
    "place",
    "above",
    "links",
    "left_turn",
    "right_turn",
    "least",
    "looked",
    "filled",
    "held_nodes",
    "held_nexts",
    "raised",
    "added",
    "taken",
    "pending",
    "unset",
    "owed",
    "unlinking",
    "waited",
    "free_nodes",
    "free_entries",
    "retired_nodes",
    "retired_entries",
    "batch_nodes",
    "batch_entries",
    "found_sections",
    "passed",
    "unused_nodes",
    "unused_entries",
];

/// The part with this name. None if no part has it.
pub(crate) fn part_of(
    alloc: Global,
    view: &View,
    name: &str,
) -> Result<Option<String>, AllocError> {
    if let Some(number) = number_named(view, name) {
        return Ok(Some(text_of(alloc, &number)?));
    }
    if let Some(maybe) = maybe_named(view, name) {
        return Ok(Some(text_of(alloc, &maybe)?));
    }
    if let Some(list) = list_named(view, name) {
        return Ok(Some(text_of(alloc, &list)?));
    }
    other_part(alloc, view, name)
}

fn text_of<T: Debug>(alloc: Global, part: &T) -> Result<String, AllocError> {
    format!(in alloc; "{part:?}")
}

/// All parts, each on a line of its own.
pub(crate) fn push_parts(alloc: Global, view: &View, text: &mut String) -> Result<(), AllocError> {
    for name in &PARTS {
        if let Some(part) = part_of(alloc, view, name)? {
            text.push_str(part.as_str())?;
        }
        text.push('\n')?;
    }
    Ok(())
}

fn number_named(view: &View, name: &str) -> Option<u64> {
    Some(match name {
        "section_word" => view.section_word,
        "announced" => view.announced,
        "busy" => view.counts.busy,
        "waits" => view.counts.waits,
        "moves" => view.counts.moves,
        "seen" => view.history.seen.len() as u64,
        "told" => view.history.told.len() as u64,
        "left" => u64::from(view.history.left),
        "found" => view.history.found,
        "looks" => view.history.looks,
        _ => return None,
    })
}

fn maybe_named(view: &View, name: &str) -> Option<Option<u64>> {
    Some(match name {
        "number" => view.number.map(u64::from),
        "section" => view.reading.section,
        "opened" => view.reading.opened,
        "above" => view.reading.above,
        "least" => view.reading.least,
        "raised" => view.update.raised,
        "added" => view.update.added.map(u64::from),
        _ => return None,
    })
}

fn list_named<'v>(view: &'v View, name: &str) -> Option<&'v [u32]> {
    Some(match name {
        "to_give" => view.to_give.as_slice(),
        "ended" => view.history.ended.as_slice(),
        "looked" => view.reading.looked.as_slice(),
        "taken" => view.update.taken.as_slice(),
        "pending" => view.update.pending.as_slice(),
        "waited" => view.update.waiting.passed.as_slice(),
        "free_nodes" => view.free.nodes.as_slice(),
        "free_entries" => view.free.entries.as_slice(),
        "retired_nodes" => view.retired.nodes.as_slice(),
        "retired_entries" => view.retired.entries.as_slice(),
        "batch_nodes" => view.batch.nodes.as_slice(),
        "batch_entries" => view.batch.entries.as_slice(),
        "passed" => view.grace.passed.as_slice(),
        "unused_nodes" => view.unused.nodes.as_slice(),
        "unused_entries" => view.unused.entries.as_slice(),
        _ => return None,
    })
}

fn other_part(alloc: Global, view: &View, name: &str) -> Result<Option<String>, AllocError> {
    let text = match name {
        "joined" => text_of(alloc, &view.joined),
        "updates" => text_of(alloc, &view.history.seen.as_slice()),
        "mine" => text_of(alloc, &view.history.mine.as_slice()),
        "counts" => text_of(alloc, &view.counts),
        "tree" => text_of(alloc, &view.reading.tree.as_slice()),
        "place" => text_of(alloc, &view.reading.place),
        "links" => text_of(alloc, &view.reading.links.as_slice()),
        "left_turn" => text_of(alloc, &view.reading.left_turn),
        "right_turn" => text_of(alloc, &view.reading.right_turn),
        "filled" => text_of(alloc, &view.reading.filled.as_slice()),
        "held_nodes" => text_of(alloc, &view.held.nodes.as_slice()),
        "held_nexts" => text_of(alloc, &view.held.nexts.as_slice()),
        "unset" => text_of(alloc, &view.update.unset.as_slice()),
        "owed" => text_of(alloc, &view.update.owed.as_slice()),
        "unlinking" => text_of(alloc, &view.update.unlinking),
        "found_sections" => text_of(alloc, &view.grace.found.as_slice()),
        _ => return Ok(None),
    };
    Ok(Some(text?))
}
