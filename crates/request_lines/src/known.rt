// Where names were kept, as far as a table of fixed size knows it.
use key_names::Text;
use std::alloc::{AllocError, Global};
use std::hash::{FoldHasher, Hasher};

// How many places the table has.
const PLACES: usize = 65_536;

/// At the place where a name's hash leads stands what was kept last with this place. It is a hint: that name may be a
/// different one.
#[derive(Drop)]
pub(crate) struct Known {
    // No place before the first name.
    kept: Vec<Kept>,
}

/// The upper half of a name's hash, and its number. Before the first name of a place both are 0.
#[derive(Clone, Copy)]
struct Kept {
    upper: u32,
    number: u32,
}

impl Known {
    /// No name is known. It takes no memory.
    pub(crate) fn none(alloc: Global) -> Known {
        Known {
            kept: Vec::new(alloc),
        }
    }

    /// Makes the table, where there is none yet.
    pub(crate) fn make(&mut self, alloc: Global) -> Result<(), AllocError> {
        if self.kept.is_empty() {
            self.kept = nothing(alloc)?;
        }
        Ok(())
    }

    /// The number that a name with this hash may have: None where the last name of its place had another hash, and
    /// before the table is made.
    pub(crate) fn number_of(&self, hash: u64) -> Option<usize> {
        match self.kept.get(place_of(hash)) {
            Some(kept) if kept.upper == upper_half(hash) => Some(kept.number as usize),
            _ => None,
        }
    }

    /// A name with this hash has this number.
    pub(crate) fn note(&mut self, hash: u64, number: usize) {
        let place = place_of(hash);
        if let Ok(number) = u32::try_from(number) {
            if place < self.kept.len() {
                let upper = upper_half(hash);
                self.kept[place] = Kept { upper, number };
            }
        }
    }
}

/// The hash of a name.
pub(crate) fn hash_of(name: &Text) -> u64 {
    let mut hasher = FoldHasher::default();
    let mut rest = name.bytes();
    'words: while let Some((word, after)) = rest.split_first_chunk::<8>() {
        hasher.write_u64(u64::from_le_bytes(*word));
        rest = after;
    }
    hasher.write(rest);
    hasher.finish()
}

fn place_of(hash: u64) -> usize {
    (hash % PLACES as u64) as usize
}

fn upper_half(hash: u64) -> u32 {
    (hash >> 32) as u32
}

// A table in which no name is known.
fn nothing(alloc: Global) -> Result<Vec<Kept>, AllocError> {
    vec![in alloc; Kept {
        upper: 0,
        number: 0
    }; PLACES]
}
