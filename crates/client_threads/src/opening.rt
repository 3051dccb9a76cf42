// The index of a session: a pass for each client, with the slots that are named or that its lines ask for.
ghost use Rattle.std.specs.Prelude.{◌≡◌, ◌≤◌, All, IfOk, length};
ghost use Rattle.index_words.specs.Sizes.{FitTable};
ghost use Rattle.request_lines.specs.InputParts.{most_requests};
ghost use Rattle.shared_index.specs.Keys.{AreAllKeys, AreFresh};
ghost use Rattle.client_threads.specs.ClientSlots.{IsNamable};
ghost use Rattle.client_threads.specs.Sizes as spec;

use crate::room::make_index_room;
use key_map::PassSize;
use key_names::NoMemory;
use request_lines::ClientPart;
use shared_index::{OpenError, PassKey, SharedIndex};
use std::alloc::Global;

/// Opens an index with a pass for each client, with a call for each of its PUT, PUTNEW and DELETE lines. Each has the
/// named number of node slots, or one more than it has such lines; and four times as many entry slots. So a small
/// number of slots takes little room, however many lines there are.
pub fn open_index(
    alloc: Global,
    slots: Option<u32>,
    clients: &[ClientPart],
) -> Result<(SharedIndex, Vec<PassKey>), NoMemory>
    requires few { spec.AreFew clients.now }
    requires slots { IsNamable slots }
    ensures all { IfOk result (λ opened. AreAllKeys opened.0 opened.1.items) }
    ensures fresh { IfOk result (λ opened. AreFresh 0 (spec.sizes_of slots clients.now) opened.1.items) }
{
    let sizes = sizes_of(alloc, slots, clients)?;
    // A single client runs on this thread, and only there what the opening gives back is allocated again.
    if sizes.len() == 1 {
        make_index_room(alloc, &sizes);
    }
    open_sized(alloc, &sizes)
}

/// Opens an index with a pass of each of these sizes, which a table can have.
pub fn open_sized(
    alloc: Global,
    sizes: &[PassSize],
) -> Result<(SharedIndex, Vec<PassKey>), NoMemory>
    requires fit { FitTable sizes.now }
    ensures all { IfOk result (λ opened. AreAllKeys opened.0 opened.1.items) }
    ensures fresh { IfOk result (λ opened. AreFresh 0 sizes.now opened.1.items) }
{
    match SharedIndex::open(alloc, sizes) {
        Ok(opened) => Ok(opened),
        Err(OpenError::NoMemory) => Err(NoMemory),
        Err(OpenError::BadSizes) => unreachable!(),
    }
}

// The sizes of the clients' passes.
fn sizes_of(
    alloc: Global,
    slots: Option<u32>,
    clients: &[ClientPart],
) -> Result<Vec<PassSize>, NoMemory>
    requires few { All (λ part. length part.requests ≤ most_requests) clients.now }
    requires slots { IsNamable slots }
    ensures { IfOk result (λ sizes. sizes.items ≡ spec.sizes_of slots clients.now) }
{
    let mut sizes = Vec::new(alloc);
    for part in clients {
        sizes.push(size_of(slots, part))?;
    }
    Ok(sizes)
}

// The size of a client's pass.
fn size_of(slots: Option<u32>, part: &ClientPart) -> PassSize
    requires few { length part.now.requests ≤ most_requests }
    requires slots { IsNamable slots }
    ensures { result ≡ spec.size_of slots part.now }
{
    let writes = part.writes();
    let nodes = slots.unwrap_or(writes + 1);
    PassSize {
        nodes,
        entries: 4 * nodes,
        calls: writes,
    }
}
