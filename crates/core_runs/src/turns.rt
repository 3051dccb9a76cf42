// One pass in and out of its section, for the measurements.
use core_rule::{Event, Kind};
use index_words::PassSize;
use std::alloc::{AllocError, Global};

pub(crate) const SIZE: PassSize = PassSize {
    nodes: 1,
    entries: 4,
    calls: 1,
};

/// So many events of the one pass.
pub(crate) fn turns(alloc: Global, count: u64) -> Result<Vec<Event>, AllocError> {
    let mut events = Vec::new(alloc);
    for i in 0..count {
        let kind = if i % 2 == 0 { Kind::Enter } else { Kind::Leave };
        events.push(Event {
            seat: 0,
            kind,
            word: 1,
            value: i + 1,
            update: None,
        })?;
    }
    Ok(events)
}
