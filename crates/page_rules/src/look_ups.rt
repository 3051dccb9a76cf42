// The cursor over a sorted list. A caller with another kind of map writes the same loop.
ghost use Rattle.std.specs.Prelude.{◌≡◌, IfOk};
ghost use Rattle.std.specs.Option.{option_copied};
ghost use Rattle.key_map.specs.Map.{IsMap};
ghost use Rattle.bucket_terms.specs.Listing.{page_of};
ghost use Rattle.bucket_terms.specs.PageInRange.{IsInRange};

use crate::PageCursor;
use bucket_terms::{ListQuery, Page, TokenPoint};
use key_map::{Pair, first_from};
use key_names::{Directory, NoMemory};
use std::alloc::Global;

/// The page of a query on a sorted list of pairs, from a point on, made by one binary search for each entry
/// and one more at the end.
///
/// ```
/// let page = page_by_look_ups(alloc, &dir, pairs, &query, None)?;
/// let same = page_of_list(alloc, &dir, pairs, &query, None)?;
/// assert_eq!(rt; page.entries.len(), same.entries.len());
/// ```
pub fn page_by_look_ups(
    alloc: Global,
    dir: &Directory,
    list: &[Pair],
    query: &ListQuery,
    point: Option<&TokenPoint>,
) -> Result<Page, NoMemory>
    requires { IsMap list.now }
    ensures page { IfOk result (λ page. page ≡ page_of dir.now query.now (option_copied point.entry) list.now) }
    ensures in_range { IfOk result (IsInRange dir.now) }
{
    let mut cursor = PageCursor::new(alloc, dir, query, point);
    while let Some(rank) = cursor.next_rank() {
        match first_from(list, rank) {
            Some(pair) => cursor.take(alloc, pair)?,
            None => break,
        }
    }
    Ok(cursor.finish())
}
