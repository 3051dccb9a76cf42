// Room for what a client's thread will allocate.
use key_map::PassSize;
use request_lines::make_room;
use std::alloc::Global;

// How much room is made before a client runs, in bytes. glibc gives each thread an arena that grows by one call a page,
// and each call holds up the page faults of all other threads. Nothing is written to the room, so it takes no memory.
const CLIENT_BYTES: usize = 1 << 24;

// The bytes of a node's words, and of an entry's.
const NODE_BYTES: usize = 80;

const ENTRY_BYTES: usize = 24;

// What an index takes besides its nodes and entries, and what an allocator adds, at most.
const OTHER_BYTES: usize = 1 << 17;

/// Makes room for what a client's run allocates on its thread.
pub(crate) fn make_client_room(alloc: Global) {
    make_room(alloc, CLIENT_BYTES);
}

/// Makes room for as many bytes as the words of an index with these passes take, before it is opened. It is opened from
/// a list of as many words, which is then given back: glibc's allocator keeps a list that is no larger than what was
/// given back before, and what the thread allocates next touches fewer new pages. With several clients each thread has
/// an arena of its own, so the list would be kept and not used.
pub(crate) fn make_index_room(alloc: Global, sizes: &[PassSize]) {
    let mut bytes = OTHER_BYTES;
    for size in sizes {
        let nodes = NODE_BYTES.saturating_mul(size.nodes as usize);
        let entries = ENTRY_BYTES.saturating_mul(size.entries as usize);
        bytes = bytes.saturating_add(nodes).saturating_add(entries);
    }
    make_room(alloc, bytes);
}
