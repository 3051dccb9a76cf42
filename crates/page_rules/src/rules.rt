// The rules for one name, one pair and two neighbouring entries. A number that is no rank has the empty
// name, as in the definitions.
ghost use Rattle.std.specs.Prelude.{◌≡◌, ◌<◌, length, take};
ghost use Rattle.std.specs.Option.{option_copied};
ghost use Rattle.key_names.specs.Names.{name_at};
ghost use Rattle.bucket_terms.specs.PageInRange.{IsEntryInRange, IsGroupInRange};
ghost use Rattle.bucket_terms.specs.Listing.{is_above, is_admitted, is_under, group_len, entry_of, is_same_group};

use bucket_terms::{ListQuery, PageEntry, TokenPoint};
use key_map::Pair;
use key_names::Directory;
use memchr::memmem;

/// The bytes of the name at a rank.
pub(crate) fn name_at(dir: &Directory, rank: u64) -> &[u8]
    ensures { result.now ≡ name_at dir.now rank }
{
    if rank < dir.len() {
        dir.name(rank).bytes()
    } else {
        &[]
    }
}

/// Whether a listing that goes on from this point has the name.
pub(crate) fn is_admitted(query: &ListQuery, point: Option<&TokenPoint>, name: &[u8]) -> bool
    ensures { result ≡ is_admitted query.now (option_copied point.entry) name.now }
{
    match point {
        None => query.start_after.bytes().is_empty() || is_above(name, query.start_after.bytes()),
        Some(TokenPoint::Key(key)) => is_above(name, key.bytes()),
        Some(TokenPoint::Group(group)) => {
            is_above(name, group.bytes()) && !name.starts_with(group.bytes())
        }
    }
}

/// Whether the pair's key is a rank, and its name begins with the prefix.
pub(crate) fn is_under(dir: &Directory, query: &ListQuery, pair: &Pair) -> bool
    ensures { result ≡ is_under dir.now query.now pair.now }
{
    pair.key < dir.len() && name_at(dir, pair.key).starts_with(query.prefix.bytes())
}

/// The entry of a pair whose key is a rank: the common prefix into which its name is rolled up, or else its key.
#[inline(always)]
pub(crate) fn entry_of(dir: &Directory, query: &ListQuery, pair: &Pair) -> PageEntry
    requires { pair.now.key < length dir.now }
    ensures entry { result ≡ entry_of dir.now query.now pair.now }
    ensures in_range { IsEntryInRange dir.now result }
{
    // for the proof: the calls' clauses say that ranks have 32 bits, that names are short, and that names and
    // delimiter are UTF-8, so a group ends at the end of a character
    let _names = dir.len();
    if query.delimiter.bytes().is_empty() {
        return key_of(dir, query, pair);
    }
    let rank = pair.key as u32;
    match group_len(query, name_at(dir, pair.key)) {
        Some(len) => PageEntry::Group {
            rank,
            len: len as u32,
        },
        None => PageEntry::Key {
            rank,
            val: pair.val,
        },
    }
}

/// The entry of a pair whose key is a rank, where the query has no delimiter: its key.
#[inline(always)]
pub(crate) fn key_of(dir: &Directory, _query: &ListQuery, pair: &Pair) -> PageEntry
    requires rank { pair.now.key < length dir.now }
    requires no_delimiter { length _query.now.delimiter ≡ 0 }
    ensures entry { result ≡ entry_of dir.now _query.now pair.now }
    ensures in_range { IsEntryInRange dir.now result }
{
    // for the proof: the call's clauses say that ranks have 32 bits
    let _names = dir.len();
    PageEntry::Key {
        rank: pair.key as u32,
        val: pair.val,
    }
}

/// Whether both are groups of one text.
pub(crate) fn is_same_group(dir: &Directory, next: &PageEntry, last: &PageEntry) -> bool
    ensures { result ≡ is_same_group dir.now next.now last.now }
{
    match (*next, *last) {
        (
            PageEntry::Group { rank, len },
            PageEntry::Group {
                rank: last,
                len: last_len,
            },
        ) => { group_text(dir, rank, len) == group_text(dir, last, last_len) }
        _ => false,
    }
}

// How `name` compares with `other` in byte order.
fn is_above(name: &[u8], other: &[u8]) -> bool
    ensures { result ≡ is_above name.now other.now }
{
    other.cmp(name).is_lt()
}

// The first `len` bytes of the name at a rank.
fn group_text(dir: &Directory, rank: u32, len: u32) -> &[u8]
    ensures { result.now ≡ take len (name_at dir.now rank) }
{
    let name = name_at(dir, u64::from(rank));
    name.get(..len as usize).unwrap_or(name)
}

/// The same as a text. The group ends at the end of a character of the name.
pub(crate) fn group_str(dir: &Directory, rank: u32, len: u32) -> &str
    requires { IsGroupInRange dir.now rank len }
    ensures { result.now ≡ take len (name_at dir.now rank) }
{
    let name = dir.name(u64::from(rank)).as_str();
    &name[..len as usize]
}

/// The length of the common prefix into which the name is rolled up: it ends with the first delimiter at or after the
/// prefix's length. None where the query has no delimiter, or the name has none there.
pub fn group_len(query: &ListQuery, name: &[u8]) -> Option<u64>
    ensures { result ≡ group_len query.now name.now }
{
    let delimiter = query.delimiter.bytes();
    if delimiter.is_empty() {
        return None;
    }
    let start = query.prefix.bytes().len();
    if start > name.len() {
        return None;
    }
    let at = memmem::find(&name[start..], delimiter)?;
    Some((start + at + delimiter.len()) as u64)
}
