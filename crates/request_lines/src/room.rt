// Room that an allocator keeps for later.
use key_names::NoMemory;
use std::alloc::Global;

/// Asks for so many bytes, if available, and gives them back at once, so that what this thread allocates next finds
/// them. Otherwise glibc's allocator takes memory for a thread from the operating system by one call for each page,
/// and each of these holds up the page faults of all other threads. None of the bytes is touched.
pub fn make_room(alloc: Global, bytes: usize) {
    if let Ok(room) = with_room(alloc, bytes) {
        drop(room);
    }
}

fn with_room(alloc: Global, bytes: usize) -> Result<Vec<u8>, NoMemory> {
    Ok(Vec::with_capacity(alloc, bytes)?)
}
