// The sorted list of a session's names. A name's rank stands for it everywhere above.
ghost use Rattle.std.specs.Prelude.{◌≡◌, ◌<◌, ◌≤◌, length, All, Contains, count_by, IfOk, IfErr, OnErr, IsErrOf, MatchOption};
ghost use Rattle.key_names.specs.Names.{byte_order, IsFine, Rises, HoldsEachOnce, IsRank, name_at};
ghost use Rattle.key_names.specs.Ranks.{is_before, is_upto, is_upto_prefix, most_names, StandFirst, StandTogether};
ghost use Rattle.key_names.specs.Refusal.{IsRefusal};

use crate::{NamesError, Text};
use std::alloc::Global;
use std::cmp::Ordering;
use std::marker::Model;

/// The most bytes of a name: Amazon S3's limit for an object key.
pub const MAX_NAME_BYTES: usize = 1024;

/// The most names of a directory, so that a rank has 32 bits.
pub const MAX_NAMES: usize = 4_294_967_295;

/// Names that rise strictly in byte order. The place of a name, from 0, is its rank.
#[derive(Debug, Drop)]
pub struct Directory {
    names: Vec<Text>,
}

impl Model for Directory {
    ghost use Rattle.std.specs.Prelude.{List, ℕ};
    ghost use Rattle.key_names.specs.Ranks.{IsDirectory};

    ghost Value = { List (List ℕ) };

    ghost view = { λ d. d.names.items };

    ghost invariant = { λ d. IsDirectory d.names.items };
}

impl Directory {
    /// The directory of these names, each of which may be given more than once. They are sorted in place, so the
    /// allocator is not used and `NoMemory` never occurs. The first faulty name is reported; `TooMany` only if there
    /// is none.
    ///
    /// ```
    /// let names = vec![in alloc; Text::of(alloc, "b")?, Text::of(alloc, "a/1")?, Text::of(alloc, "b")?]?;
    /// let dir = Directory::new(alloc, names)?;
    /// assert_eq!(rt; dir.len(), 2);
    /// assert_eq!(rt; dir.name(0).as_str(), "a/1");
    /// ```
    pub fn new(_alloc: Global, names: Vec<Text>) -> Result<Directory, NamesError>
        ensures names { IfOk result (HoldsEachOnce names.items) }
        ensures fine { IfOk result (λ _. All IsFine names.items) }
        ensures refused { IfErr result (IsRefusal names.items) }
        ensures in_place { ¬ (IsErrOf result NamesError.NoMemory) }
    {
        check_names(&names)?;
        let names = sorted_once(names);
        if names.len() > MAX_NAMES {
            return Err(NamesError::TooMany);
        }
        Ok(Directory { names })
    }

    /// The number of names.
    pub fn len(&self) -> u64
        ensures count { result ≡ length self.now }
        ensures rising { Rises self.now }
        ensures fine { All IsFine self.now }
        ensures few { length self.now ≤ most_names }
    {
        self.names.len() as u64
    }

    /// The rank of a name.
    ///
    /// ```
    /// // the names a/1, a/2 and b
    /// assert_eq!(rt; dir.rank(b"b"), Some(2));
    /// assert_eq!(rt; dir.rank(b"a"), None);
    /// ```
    pub fn rank(&self, name: &[u8]) -> Option<u64>
        ensures { MatchOption result (¬ (Contains self.now name.now)) (IsRank self.now name.now) }
    {
        match self.search(name) {
            Ok(place) => Some(place as u64),
            Err(_) => None,
        }
    }

    /// The number of names below `name`, which is the rank of the first name that is not below it.
    pub fn at_or_after(&self, name: &[u8]) -> u64
        ensures count { result ≡ count_by (λ here. is_before here name.now) self.now }
        ensures first { StandFirst (λ here. is_before here name.now) self.now result }
    {
        self.names.partition_point(|here| stands_before(here, name)) as u64
    }

    /// The number of names that are at most `name`, which is the rank of the first above it.
    pub fn after(&self, name: &[u8]) -> u64
        ensures count { result ≡ count_by (λ here. is_upto here name.now) self.now }
        ensures first { StandFirst (λ here. is_upto here name.now) self.now result }
    {
        self.names.partition_point(|here| stands_up_to(here, name)) as u64
    }

    /// As `after`, for a text, which is compared faster than bytes of which nothing is known.
    pub fn after_text(&self, text: &Text) -> u64
        ensures count { result ≡ count_by (λ here. is_upto here text.now) self.now }
        ensures first { StandFirst (λ here. is_upto here text.now) self.now result }
    {
        self.names
            .partition_point(|here| stands_up_to_text(here, text)) as u64
    }

    /// The number of names that are below `prefix` or begin with it. The names that begin with it stand
    /// together, from `at_or_after` up to this rank.
    ///
    /// ```
    /// // of the names a/1, a/2 and b, those that begin with a/ have the ranks 0 and 1
    /// assert_eq!(rt; dir.at_or_after(b"a/"), 0);
    /// assert_eq!(rt; dir.past_prefix(b"a/"), 2);
    /// ```
    pub fn past_prefix(&self, prefix: &[u8]) -> u64
        ensures count { result ≡ count_by (λ here. is_upto_prefix here prefix.now) self.now }
        ensures first { StandFirst (λ here. is_upto_prefix here prefix.now) self.now result }
        ensures together { StandTogether self.now prefix.now (count_by (λ here. is_before here prefix.now) self.now) result }
    {
        self.names
            .partition_point(|here| stands_up_to_prefix(here, prefix)) as u64
    }

    /// The name at a rank.
    pub fn name(&self, rank: u64) -> &Text
        requires { rank < length self.now }
        ensures { result.now ≡ name_at self.now rank }
    {
        &self.names[rank as usize]
    }

    // The place of the name, or where it would stand.
    fn search(&self, name: &[u8]) -> Result<usize, usize>
        ensures found { IfOk result (IsRank self.now name.now) }
        ensures absent { OnErr result (¬ (Contains self.now name.now)) }
    {
        self.names.binary_search_by(|here| order(here, name))
    }
}

// How a name compares with these bytes in byte order.
fn order(name: &Text, bytes: &[u8]) -> Ordering
    ensures { result ≡ byte_order name.now bytes.now }
{
    name.bytes().cmp(bytes)
}

fn stands_before(name: &Text, bytes: &[u8]) -> bool
    ensures { result ≡ is_before name.now bytes.now }
{
    order(name, bytes).is_lt()
}

fn stands_up_to(name: &Text, bytes: &[u8]) -> bool
    ensures { result ≡ is_upto name.now bytes.now }
{
    order(name, bytes).is_le()
}

fn stands_up_to_text(name: &Text, text: &Text) -> bool
    ensures { result ≡ is_upto name.now text.now }
{
    name.as_str().cmp(text.as_str()).is_le()
}

fn stands_up_to_prefix(name: &Text, prefix: &[u8]) -> bool
    ensures { result ≡ is_upto_prefix name.now prefix.now }
{
    stands_before(name, prefix) || name.bytes().starts_with(prefix)
}

/// The names in byte order, each once.
fn sorted_once(mut names: Vec<Text>) -> Vec<Text>
    ensures { HoldsEachOnce names.items result.items }
{
    names.sort_unstable();
    names.dedup();
    names
}

fn check_names(names: &[Text]) -> Result<(), NamesError>
    ensures ok { IfOk result (λ _. All IsFine names.now) }
    ensures refused { IfErr result (IsRefusal names.now) }
    ensures in_place { ¬ (IsErrOf result NamesError.NoMemory) }
{
    for (place, name) in names.iter().enumerate() {
        let bytes = name.bytes();
        if bytes.is_empty() {
            return Err(NamesError::Empty(place));
        }
        if bytes.len() > MAX_NAME_BYTES {
            return Err(NamesError::TooLong(place));
        }
    }
    Ok(())
}
