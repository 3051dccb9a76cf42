// The definition of a page as a program.
ghost use Rattle.std.specs.Prelude.{◌≡◌, [], ◌∷◌, ◌++◌, IfOk, OnOk, map, filter};
ghost use Rattle.std.specs.Option.{option_copied};
ghost use Rattle.key_names.specs.Names.{name_at};
ghost use Rattle.key_map.specs.Map.{IsMap};
ghost use Rattle.bucket_terms.specs.Listing.{is_admitted, is_under, entry_of, entries_of, page_of};
ghost use Rattle.bucket_terms.specs.PageParts.{cut_at};
ghost use Rattle.bucket_terms.specs.PageInRange.{IsInRange};
ghost use Rattle.page_rules.specs.PageLaw.{LeavesTheRest, BeginsAll, RiseByText};

use crate::rules::{entry_of, is_admitted, is_same_group, is_under, name_at};
use bucket_terms::{ListQuery, Page, PageEntries, PageEntry, TokenPoint};
use key_map::Pair;
use key_names::{Directory, NoMemory};
use std::alloc::Global;

/// The page of a query on a whole list of pairs, from a point on: filter, group and cut. It is the definition of the
/// page as a program, for small lists and for comparison.
///
/// ```
/// // the names a/1, a/2 and b, listed with the delimiter / and at most one entry
/// let page = page_of_list(alloc, &dir, pairs, &query, None)?;
/// assert_eq!(rt; page.entries.at(0), PageEntry::Group { rank: 0, len: 2 });
/// assert!(rt; page.truncated);
/// ```
pub fn page_of_list(
    alloc: Global,
    dir: &Directory,
    list: &[Pair],
    query: &ListQuery,
    point: Option<&TokenPoint>,
) -> Result<Page, NoMemory>
    ensures page { IfOk result (λ page. page ≡ page_of dir.now query.now (option_copied point.entry) list.now) }
    ensures in_range { IfOk result (IsInRange dir.now) }

    // The law of pages, over a map.
    ensures left { IfOk result (λ page. IsMap list.now → LeavesTheRest dir.now query.now (option_copied point.entry) list.now page) }
    ensures chained { IfOk result (λ page. IsMap list.now → BeginsAll dir.now query.now (option_copied point.entry) list.now page) }
    ensures each_once { IfOk result (λ page. IsMap list.now → RiseByText dir.now page.entries) }
{
    // for the proof: the calls' clauses say that the names rise, and that names and delimiter are UTF-8
    let (_names, _delimiter) = (dir.len(), query.delimiter.bytes());
    let entries = entries_of(alloc, dir, list, query, point)?;
    Ok(cut_at(query.max_keys, entries))
}

// The first `max_keys` of these entries; truncated where it may have some and more are left.
fn cut_at(max_keys: u32, mut entries: Vec<PageEntry>) -> Page
    ensures { result ≡ cut_at max_keys entries.items }
{
    let most = max_keys as usize;
    let truncated = 0 < most && most < entries.len();
    entries.truncate(most);
    Page {
        entries: PageEntries::from_vec(entries),
        truncated,
    }
}

// The entries of a query on the list, from a point on: each group once.
fn entries_of(
    alloc: Global,
    dir: &Directory,
    list: &[Pair],
    query: &ListQuery,
    point: Option<&TokenPoint>,
) -> Result<Vec<PageEntry>, NoMemory>
    ensures { IfOk result (λ entries. entries.items ≡ entries_of dir.now query.now (option_copied point.entry) list.now) }
{
    let mut entries = listed(alloc, dir, list, query, point)?;
    entries.dedup_by(|next, last| is_same_group(dir, next, last));
    Ok(entries)
}

// The entry of each listed pair.
fn listed(
    alloc: Global,
    dir: &Directory,
    list: &[Pair],
    query: &ListQuery,
    point: Option<&TokenPoint>,
) -> Result<Vec<PageEntry>, NoMemory>
    ensures { IfOk result (λ entries. entries.items ≡ map (entry_of dir.now query.now) (filter (is_under dir.now query.now)
        (filter (λ p. is_admitted query.now (option_copied point.entry) (name_at dir.now p.key)) list.now))) }
{
    let mut entries = Vec::new(alloc);
    for pair in list {
        push_listed(&mut entries, dir, query, point, pair)?;
    }
    Ok(entries)
}

// Adds the entry of the pair where it is listed.
fn push_listed(
    entries: &mut Vec<PageEntry>,
    dir: &Directory,
    query: &ListQuery,
    point: Option<&TokenPoint>,
    pair: &Pair,
) -> Result<(), NoMemory>
    ensures { OnOk result (entries.new.items ≡ entries.old.items ++ map (entry_of dir.now query.now) (filter (is_under dir.now query.now)
        (filter (λ p. is_admitted query.now (option_copied point.entry) (name_at dir.now p.key)) (pair.now ∷ [])))) }
{
    if !is_admitted(query, point, name_at(dir, pair.key)) || !is_under(dir, query, pair) {
        return Ok(());
    }
    entries.push(entry_of(dir, query, pair))?;
    Ok(())
}
