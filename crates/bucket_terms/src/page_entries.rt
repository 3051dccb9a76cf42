// The entries of a page, which take half the memory if they are keys with small values.
ghost use Rattle.std.specs.Prelude.{◌≡◌, ◌<◌, ◌++◌, ◌∷◌, [], ◌-◌, length, slice_index_or, IfSome, OnOk, OnErr};
ghost use Rattle.std.specs.List.{slice_get};
ghost use Rattle.bucket_terms.specs.PageEntries.{key_entry};

use crate::PageEntry;
use key_names::NoMemory;
use std::alloc::Global;
use std::marker::Model;

/// A key whose value has 32 bits.
#[derive(Clone, Copy, Debug)]
pub(crate) struct ShortKey {
    rank: u32,
    val: u32,
}

/// The entries of a page, in order. Contracts see the list of them. A key whose value has 32 bits takes 8 bytes, as
/// long as each entry before it is such a key; each other entry takes 16.
#[derive(Debug, Drop)]
pub struct PageEntries {
    keys: Vec<ShortKey>,
    // The entries from the first one on that is no such key. Places of records have 32 bits in every session, but no
    // contract of a pass says so: a page has to keep any value.
    rest: Vec<PageEntry>,
}

impl Model for PageEntries {
    ghost use Rattle.std.specs.Prelude.{List};
    ghost use Rattle.bucket_terms.specs.declared.page.PageEntry.{PageEntry};
    ghost use Rattle.bucket_terms.specs.PageEntries.{entries_kept};

    ghost Value = { List PageEntry };

    ghost view = { λ e. entries_kept e.keys.items e.rest.items };
}

impl PageEntries {
    /// No entries. It takes no memory.
    pub fn new(alloc: Global) -> PageEntries
        ensures { result ≡ [] }
    {
        PageEntries {
            keys: Vec::new(alloc),
            rest: Vec::new(alloc),
        }
    }

    /// The entries of a vector, whose memory is reused.
    pub fn from_vec(entries: Vec<PageEntry>) -> PageEntries
        ensures { result ≡ entries.items }
    {
        PageEntries {
            keys: Vec::new(*entries.allocator()),
            rest: entries,
        }
    }

    pub fn len(&self) -> usize
        ensures { result ≡ length self.now }
    {
        self.keys.len() + self.rest.len()
    }

    /// The entry at this place, from 0.
    pub fn at(&self, place: usize) -> PageEntry
        requires { place < length self.now }
        ensures { result ≡ slice_index_or self.now place result }
    {
        if place < self.keys.len() {
            let key = self.keys[place];
            return PageEntry::Key {
                rank: key.rank,
                val: u64::from(key.val),
            };
        }
        self.rest[place - self.keys.len()]
    }

    /// The last entry. None where there is none.
    pub fn last(&self) -> Option<PageEntry>
        ensures { result ≡ slice_get self.now (length self.now - 1) }
    {
        let count = self.len();
        if count == 0 {
            return None;
        }
        Some(self.at(count - 1))
    }

    /// Adds an entry at the end. The first one takes room for `most` entries. After a refusal the list is unchanged.
    #[inline(always)]
    pub fn push(&mut self, entry: PageEntry, most: usize) -> Result<(), NoMemory>
        ensures ok { OnOk result (self.new ≡ self.old ++ entry ∷ []) }
        ensures err { OnErr result (self.new ≡ self.old) }
    {
        if self.rest.is_empty()
            && let Some(key) = short(&entry)
        {
            return push_with_room(&mut self.keys, key, most);
        }
        push_with_room(&mut self.rest, entry, most.saturating_sub(self.keys.len()))
    }

    /// Gives back the room that no entry uses.
    pub fn shrink_to_fit(&mut self)
        ensures { self.new ≡ self.old }
    {
        self.keys.shrink_to_fit();
        self.rest.shrink_to_fit();
    }
}

// The entry as a key whose value has 32 bits, if it is one.
fn short(entry: &PageEntry) -> Option<ShortKey>
    ensures { IfSome result (λ key. key_entry key ≡ entry.now) }
{
    let PageEntry::Key { rank, val } = *entry else {
        return None;
    };
    match u32::try_from(val) {
        Ok(val) => Some(ShortKey { rank, val }),
        Err(_) => None,
    }
}

// Adds an item. The first one takes room for as many as there will be at most, so that the items are not moved as the
// list grows.
#[inline(always)]
fn push_with_room<T: Drop>(items: &mut Vec<T>, item: T, most: usize) -> Result<(), NoMemory>
    ensures ok { OnOk result (items.new.items ≡ items.old.items ++ item ∷ []) }
    ensures err { OnErr result (items.new.items ≡ items.old.items) }
{
    if items.is_empty() {
        items.reserve_exact(most)?;
    }
    items.push(item)?;
    Ok(())
}
