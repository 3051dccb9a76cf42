// The page made from look-ups. A group is left by one jump to the rank past its prefix, so a page costs as
// many look-ups as it has entries, and one more, however many keys its groups hide.
ghost use Rattle.std.specs.Prelude.{◌≡◌, ◌++◌, ◌∷◌, [], OnOk, OnErr};
ghost use Rattle.page_rules.specs.PrefixRanks.{AreListed};

use crate::known_prefixes::KnownPrefixes;
use crate::prefix_ranks::PrefixRanks;
use crate::resume::{first_rank, rank_behind};
use crate::rules::{entry_of, is_under, key_of};
use bucket_terms::{ListQuery, Page, PageEntries, PageEntry, TokenPoint};
use key_map::Pair;
use key_names::{Directory, NoMemory};
use std::alloc::Global;
use std::marker::Model;

/// A page that is being made from the pairs of one map. Its caller looks for the first pair from `next_rank`
/// on and hands it to `take`, until `next_rank` is None or there is no such pair; then `finish` gives the page.
///
/// ```
/// // the page of a query from the pairs of a sorted list; of another map, its first pair from `rank` on
/// let mut cursor = PageCursor::new(alloc, &dir, &query, None);
/// while let Some(rank) = cursor.next_rank() {
///     match first_from(pairs, rank) {
///         Some(pair) => cursor.take(alloc, pair)?,
///         None => break,
///     }
/// }
/// let page = cursor.finish();
/// ```
#[derive(Drop)]
pub struct PageCursor<'a> {
    dir: &'a Directory,
    query: &'a ListQuery,
    entries: PageEntries,
    next: Option<u64>,
    truncated: bool,
    // Where the listed names stand: from the start where the caller knows it, else once the page has so many entries
    // that two searches for it cost less than a comparison of each name with the prefix.
    ranks: Option<PrefixRanks>,
}

/// From this many entries on, a page looks for the ranks of the names that it may list: the two searches take as long
/// as some twenty comparisons.
const MANY: usize = 32;

impl<'a> Model for PageCursor<'a> {
    ghost use Rattle.page_rules.specs.Cursor.{CursorView};

    ghost Value = { CursorView };

    ghost use Rattle.page_rules.specs.CursorInside.{view_of, IsCursor, HasRanks};

    ghost view = { view_of };

    ghost invariant = { λ c. IsCursor (view_of c) × HasRanks c };
}

impl<'a> PageCursor<'a> {
    ghost use Rattle.std.specs.Prelude.{◌≡◌, ◌<◌, ◌≤◌, true, List, length, Option, IsSome, IfSome, OnOk, OnErr};
    ghost use Rattle.std.specs.Option.{option_copied};
    ghost use Rattle.key_map.specs.Map.{IsMap};
    ghost use Rattle.key_map.specs.declared.pair.Pair.{Pair};
    ghost use Rattle.bucket_terms.specs.declared.token_point.TokenPoint.{TokenPoint};
    ghost use Rattle.bucket_terms.specs.Listing.{is_under, entry_of, page_of};
    ghost use Rattle.bucket_terms.specs.PageInRange.{IsInRange, IsEntryInRange};
    ghost use Rattle.page_rules.specs.Cursor.{IsNew, IsOnWay, IsOver, Took, page_so_far};

    /// A cursor for the page of the query on the names of a directory, from a point on. It takes no memory yet.
    pub fn new(
        alloc: Global,
        dir: &'a Directory,
        query: &'a ListQuery,
        point: Option<&TokenPoint>,
    ) -> PageCursor<'a>
        ensures start { IsNew result dir.now query.now (option_copied point.entry) }
        ensures on_way { (m : List Pair) → IsOnWay result (option_copied point.entry) m }
    {
        PageCursor::begun(alloc, dir, query, point, None)
    }

    /// As `new`, on the names of the directory whose prefixes are known: a known one is not searched for.
    pub fn of_known(
        alloc: Global,
        known: &KnownPrefixes<'a>,
        query: &'a ListQuery,
        point: Option<&TokenPoint>,
    ) -> PageCursor<'a>
        ensures start { IsNew result known.now query.now (option_copied point.entry) }
        ensures on_way { (m : List Pair) → IsOnWay result (option_copied point.entry) m }
    {
        let ranks = known.ranks(&query.prefix);
        PageCursor::begun(alloc, known.directory(), query, point, ranks)
    }

    // A cursor that has taken no pair; `ranks` are those of the names with the query's prefix, where they are known.
    fn begun(
        alloc: Global,
        dir: &'a Directory,
        query: &'a ListQuery,
        point: Option<&TokenPoint>,
        ranks: Option<PrefixRanks>,
    ) -> PageCursor<'a>
        requires ranks { AreListed dir.now query.now ranks }
        ensures start { IsNew result dir.now query.now (option_copied point.entry) }
        ensures on_way { (m : List Pair) → IsOnWay result (option_copied point.entry) m }
    {
        let next = if query.max_keys == 0 {
            None
        } else {
            Some(first_rank(dir, query, point, ranks))
        };
        PageCursor {
            dir,
            query,
            entries: PageEntries::new(alloc),
            next,
            truncated: false,
            ranks,
        }
    }

    /// The rank from which the next pair is to be looked for. None where the page is settled.
    pub fn next_rank(&self) -> Option<u64>
        ensures next { result ≡ self.now.next }
        ensures within { IfSome result (λ rank. rank ≤ length self.now.dir) }
    {
        self.next
    }

    /// Takes the first pair from `next_rank` on: adds its entry, or settles that the page is truncated or ended. A
    /// pair whose key is no rank ends the page. The entries grow with the allocator that `new` was given: the one
    /// here is not used.
    #[inline(always)]
    pub fn take(&mut self, _alloc: Global, pair: Pair) -> Result<(), NoMemory>
        requires { IsSome self.old.next }
        ensures took { OnOk result (Took self.old self.new pair) }
        ensures unchanged { OnErr result (self.new ≡ self.old) }
    {
        // for the proof: the call's clauses say that the names rise and are UTF-8
        let _names = self.dir.len();
        if !self.lists(&pair) {
            self.next = None;
            return Ok(());
        }
        if self.entries.len() >= self.query.max_keys as usize {
            self.truncated = true;
            self.next = None;
            return Ok(());
        }
        if self.query.delimiter.bytes().is_empty() {
            let entry = key_of(self.dir, self.query, &pair);
            return self.add(&pair, entry);
        }
        let entry = entry_of(self.dir, self.query, &pair);
        self.add(&pair, entry)
    }

    // Adds the entry of a listed pair, for which there is room. It is inlined: where there is no delimiter the
    // compiler then knows that the entry is a key.
    #[inline(always)]
    fn add(&mut self, _pair: &Pair, entry: PageEntry) -> Result<(), NoMemory>
        requires some { IsSome self.old.next }
        requires listed { is_under self.old.dir self.old.query _pair.now ≡ true }
        requires room { length self.old.entries < self.old.query.max_keys }
        requires entry { entry ≡ entry_of self.old.dir self.old.query _pair.now }
        requires in_range { IsEntryInRange self.old.dir entry }
        ensures took { OnOk result (Took self.old self.new _pair.now) }
        ensures unchanged { OnErr result (self.new ≡ self.old) }
    {
        let _names = self.dir.len();
        let most = self.query.max_keys as usize;
        self.entries.push(entry, most.min(self.dir.len() as usize))?;
        self.next = Some(rank_behind(self.dir, self.query, &entry));
        self.note_ranks();
        Ok(())
    }

    // Looks for the ranks of the listed names, where they are not known and the page has reached so many entries.
    #[inline(always)]
    fn note_ranks(&mut self)
        ensures { self.new ≡ self.old }
    {
        if self.ranks.is_none() && self.entries.len() == MANY {
            self.ranks = Some(PrefixRanks::of(self.dir, self.query.prefix.bytes()));
        }
    }

    // Whether the pair is listed.
    #[inline(always)]
    fn lists(&self, pair: &Pair) -> bool
        ensures { result ≡ is_under self.now.dir self.now.query pair.now }
    {
        match &self.ranks {
            Some(ranks) => pair.key < self.dir.len() && ranks.has(pair.key),
            None => is_under(self.dir, self.query, pair),
        }
    }

    /// The page. Once nothing is left to take, it is that of the query on each map to whose page the cursor is on
    /// its way.
    pub fn finish(self) -> Page
        ensures entries { result ≡ page_so_far self.entry }
        ensures page { (point : Option TokenPoint) (m : List Pair) → IsMap m → IsOver self.entry m → IsOnWay self.entry point m
            → result ≡ page_of self.entry.dir self.entry.query point m }
        ensures in_range { IsInRange self.entry.dir result }
    {
        let mut entries = self.entries;
        entries.shrink_to_fit();
        Page {
            entries,
            truncated: self.truncated,
        }
    }
}
