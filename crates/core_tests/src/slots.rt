// Lists of node slots and entry slots.
use crate::items::items;
use index_words::{NoMemory, Slots};
use std::alloc::Global;
use std::test::Fail;

fn slots(alloc: Global, nodes: &[u32], entries: &[u32]) -> Result<Slots, NoMemory> {
    let nodes = items(alloc, nodes)?;
    let entries = items(alloc, entries)?;
    Ok(Slots { nodes, entries })
}

fn are(slots: &Slots, nodes: &[u32], entries: &[u32]) -> bool {
    slots.nodes.as_slice() == nodes && slots.entries.as_slice() == entries
}

fn joins(alloc: Global, own: &Slots, more: &Slots) -> Result<bool, NoMemory> {
    Ok(are(&Slots::concat(alloc, more, own)?, &[9, 1, 2], &[1, 2, 3]))
}

fn appends(own: &mut Slots, more: &Slots) -> Result<bool, NoMemory> {
    own.append(more)?;
    Ok(are(own, &[1, 2, 9], &[1, 2, 3]))
}

// No clause says that memory suffices.
#[test]
fn ample_memory_suffices(rt: HostRuntime) -> Result<(), Fail> {
    let alloc = rt.alloc();
    let mut own = slots(alloc, &[1, 2], &[1, 2, 3])?;
    let more = slots(alloc, &[9], &[])?;
    assert!(rt; joins(alloc, &own, &more)?);
    assert!(rt; appends(&mut own, &more)?);
    Ok(())
}
