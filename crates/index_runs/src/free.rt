// The free slots of a pass after its work: the pass is taken up over the table for that.
ghost use Rattle.table_steps.specs.Passes.{AtRest, IsPassOf, IsSamePass};
ghost use Rattle.index_runs.specs.Sections.{IsBack};

use crate::run::Worked;
use crate::visits::MOST;
use crate::work::Event;
use std::alloc::{AllocError, Global};
use std::thread::yield_now;
use table_steps::{SharedTable, TablePass};
use tree_update::try_settle;

/// Frees what waits, and reports which slots are free.
pub(crate) fn tell_free(alloc: Global, table: &SharedTable, worked: Worked) -> Worked
    requires of { IsPassOf table.now worked.key }
    ensures back { IsBack table.now worked.key result.key }
{
    let Worked { key, events } = worked;
    let mut pass = table.attach(key);
    settle_all(&mut pass);
    let events = with_free(alloc, &pass, events);
    let key = pass.detach();
    Worked { key, events }
}

/// Frees all slots of the pass that wait.
fn settle_all(pass: &mut TablePass<'_>)
    requires rest { AtRest pass.old.view }
    ensures same { IsSamePass pass.old pass.new }
    ensures rest { AtRest pass.new.view }
{
    'tries: for _ in 0..MOST {
        let nodes = pass.free_nodes() == pass.owned_nodes();
        if nodes && pass.free_entries() == pass.owned_entries() {
            return;
        }
        try_settle(pass);
        yield_now();
    }
}

/// What the pass was answered, and its free slots.
fn with_free(
    alloc: Global,
    pass: &TablePass<'_>,
    events: Result<Vec<Event>, AllocError>,
) -> Result<Vec<Event>, AllocError> {
    let mut events = events?;
    let mut nodes = Vec::new(alloc);
    for place in 0..pass.free_nodes() {
        if let Some(node) = pass.free_node(place) {
            nodes.push(node)?;
        }
    }
    let mut entries = Vec::new(alloc);
    for place in 0..pass.free_entries() {
        if let Some(entry) = pass.free_entry(place) {
            entries.push(entry)?;
        }
    }
    events.push(Event::Free { nodes, entries })?;
    Ok(events)
}
