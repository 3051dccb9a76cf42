// Prefixes whose ranks were looked for.
ghost use Rattle.std.specs.Prelude.{◌≡◌, ℕ, List, IfOk, IfSome};
ghost use Rattle.page_rules.specs.PrefixRanks.{AreOfPrefix, AreKnown};

use crate::prefix_ranks::PrefixRanks;
use key_names::{Directory, NoMemory, Text};
use std::alloc::Global;
use std::hash::{FoldHasher, Hasher};
use std::marker::Model;

/// How many places there are for prefixes: a fixed number, so that the table takes the same memory, some 100 KiB,
/// whatever prefixes a client names.
const PLACES: usize = 1024;

/// A directory, and the ranks of prefixes in it, in a table of fixed size. A prefix whose place another one has taken
/// before is not kept: its ranks are then looked for as if there were no table. Contracts see the names of the
/// directory.
#[derive(Drop)]
pub struct KnownPrefixes<'a> {
    dir: &'a Directory,
    // No place before the first prefix.
    places: Vec<Option<KnownPrefix>>,
}

/// A prefix and the ranks of the names that begin with it.
#[derive(Drop)]
pub(crate) struct KnownPrefix {
    prefix: Text,
    ranks: PrefixRanks,
}

impl<'a> Model for KnownPrefixes<'a> {
    ghost use Rattle.std.specs.Prelude.{List, ℕ};
    ghost use Rattle.page_rules.specs.PrefixRanks.{AreKnown};
    ghost use Rattle.page_rules.specs.declared.known_prefixes.KnownPrefixes.TheInside.{Inside};

    ghost Value = { List (List ℕ) };

    ghost view = { λ (k : Inside). k.dir.now };

    ghost invariant = { λ (k : Inside). AreKnown k.dir.now k.places.items };
}

impl<'a> KnownPrefixes<'a> {
    /// The directory, and no known prefix. It takes no memory.
    pub fn none(alloc: Global, dir: &'a Directory) -> KnownPrefixes<'a>
        ensures { result ≡ dir.now }
    {
        KnownPrefixes {
            dir,
            places: Vec::new(alloc),
        }
    }

    /// The directory.
    pub fn directory(&self) -> &'a Directory
        ensures { result.now ≡ self.now }
    {
        self.dir
    }

    /// Looks for the ranks of a prefix and keeps them, where its place is free. The first call takes the memory of
    /// the table.
    pub fn note(&mut self, alloc: Global, prefix: &Text) -> Result<(), NoMemory>
        ensures { self.new ≡ self.old }
    {
        if self.places.is_empty() {
            self.places = free_places(alloc)?;
        }
        let place = place_of(prefix);
        if place < self.places.len() && self.places[place].is_none() {
            self.places[place] = Some(looked_for(alloc, self.dir, prefix)?);
        }
        Ok(())
    }

    /// The ranks of the names that begin with the prefix: None where it was not kept.
    pub fn ranks(&self, prefix: &Text) -> Option<PrefixRanks>
        ensures { IfSome result (AreOfPrefix self.now prefix.now) }
    {
        match self.places.get(place_of(prefix)) {
            Some(Some(known)) if known.prefix.bytes() == prefix.bytes() => Some(known.ranks),
            _ => None,
        }
    }
}

// The place that a prefix has.
fn place_of(prefix: &Text) -> usize {
    let mut hasher = FoldHasher::default();
    hasher.write(prefix.bytes());
    (hasher.finish() % PLACES as u64) as usize
}

// A table without a prefix.
fn free_places(alloc: Global) -> Result<Vec<Option<KnownPrefix>>, NoMemory>
    ensures { IfOk result (λ places. (dir : List (List ℕ)) → AreKnown dir places.items) }
{
    let mut places: Vec<Option<KnownPrefix>> = Vec::with_capacity(alloc, PLACES)?;
    for _ in 0..PLACES {
        places.push(None)?;
    }
    Ok(places)
}

// A prefix with its ranks.
fn looked_for(alloc: Global, dir: &Directory, prefix: &Text) -> Result<KnownPrefix, NoMemory>
    ensures { IfOk result (λ known. AreOfPrefix dir.now known.prefix known.ranks) }
{
    Ok(KnownPrefix {
        prefix: prefix.copy(alloc)?,
        ranks: PrefixRanks::of(dir, prefix.bytes()),
    })
}
