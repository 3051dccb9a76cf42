// A page of a listing, in ranks of names: no text is copied to make one.
use crate::{PageEntries, TokenPoint};
use key_names::{Directory, NoMemory, Text};
use std::alloc::Global;

/// One return of a listing, of 16 bytes: a rank has 32 bits in every directory. `PageEntries` keeps most in 8 bytes.
#[derive(Clone, Copy, Debug, PartialEq, Eq)]
pub enum PageEntry {
    /// A key, by the rank of its name, with its value.
    Key { rank: u32, val: u64 },
    /// A common prefix: the first `len` bytes of the name at `rank`, which is the first listed name of
    /// the group.
    Group { rank: u32, len: u32 },
}

impl PageEntry {
    ghost use Rattle.std.specs.Prelude.{◌≡◌, IfOk};
    ghost use Rattle.key_names.specs.Names.{IsFine};
    ghost use Rattle.bucket_terms.specs.Listing.{point_text, entry_point};
    ghost use Rattle.bucket_terms.specs.PageInRange.{IsEntryInRange};

    /// Where a listing goes on after this entry: after its key, or after all keys of its common prefix.
    pub fn point(&self, alloc: Global, dir: &Directory) -> Result<TokenPoint, NoMemory>
        requires { IsEntryInRange dir.now self.now }
        ensures point { IfOk result (λ point. point ≡ entry_point dir.now self.now) }
        ensures fine { IfOk result (λ point. IsFine (point_text point)) }
    {
        // for the proof: the call's clauses say that the names are fine
        let _names = dir.len();
        match *self {
            PageEntry::Key { rank, .. } => Ok(TokenPoint::Key(
                dir.name(u64::from(rank)).copy(alloc)?,
            )),
            PageEntry::Group { rank, len } => {
                let name = dir.name(u64::from(rank)).as_str();
                Ok(TokenPoint::Group(Text::of(alloc, &name[..len as usize])?))
            }
        }
    }
}

/// A page of a listing: its entries, at most 1,000, and whether it has some and more are left after them.
#[derive(Debug, Drop)]
pub struct Page {
    pub entries: PageEntries,
    pub truncated: bool,
}

impl Page {
    ghost use Rattle.std.specs.Prelude.{◌≡◌, is_some, IfOk, IfSome};
    ghost use Rattle.key_names.specs.Names.{IsFine};
    ghost use Rattle.bucket_terms.specs.Listing.{point_text, page_point};
    ghost use Rattle.bucket_terms.specs.PageInRange.{IsInRange};

    /// Where the next page begins: after the last entry of a truncated page, and nowhere after another page (Amazon
    /// S3 API reference, ListObjectsV2: `NextContinuationToken`).
    pub fn point(&self, alloc: Global, dir: &Directory) -> Result<Option<TokenPoint>, NoMemory>
        requires { IsInRange dir.now self.now }
        ensures point { IfOk result (λ point. point ≡ page_point dir.now self.now) }
        ensures variant { IfOk result (λ point. is_some point ≡ self.now.truncated) }
        ensures fine { IfOk result (λ point. IfSome point (λ p. IsFine (point_text p))) }
    {
        if !self.truncated {
            return Ok(None);
        }
        match self.entries.last() {
            Some(entry) => Ok(Some(entry.point(alloc, dir)?)),
            None => Ok(None),
        }
    }
}
