// The rank at which a listing goes on.
ghost use Rattle.std.specs.Prelude.{◌≡◌, ◌≤◌, not, false, Some, length};
ghost use Rattle.std.specs.Option.{option_copied};
ghost use Rattle.key_names.specs.Ranks.{is_before, StandFirst};
ghost use Rattle.bucket_terms.specs.Listing.{is_admitted, entry_point};
ghost use Rattle.bucket_terms.specs.PageInRange.{IsEntryInRange};
ghost use Rattle.page_rules.specs.PageLaw.{entry_text};
ghost use Rattle.page_rules.specs.Cursor.{GoesOnAt};
ghost use Rattle.page_rules.specs.PrefixRanks.{AreListed};

use crate::group_end::group_end;
use crate::prefix_ranks::{PrefixRanks, start_of};
use crate::rules::group_str;
use bucket_terms::{ListQuery, PageEntry, TokenPoint};
use key_names::Directory;

/// The rank at which a listing from this point goes on; `ranks` are those of the names that it may list, where they are
/// known.
pub(crate) fn first_rank(
    dir: &Directory,
    query: &ListQuery,
    point: Option<&TokenPoint>,
    ranks: Option<PrefixRanks>,
) -> u64
    requires { AreListed dir.now query.now ranks }
    ensures { GoesOnAt dir.now query.now (option_copied point.entry) result }
{
    let prefix = start_of(dir, query.prefix.bytes(), ranks);
    prefix.max(first_admitted(dir, query, point))
}

/// The rank at which a listing goes on after an entry: past its key, or past all keys of its common prefix.
#[inline(always)]
pub(crate) fn rank_behind(dir: &Directory, query: &ListQuery, entry: &PageEntry) -> u64
    requires in_range { IsEntryInRange dir.now entry.now }
    requires listed { is_before (entry_text dir.now entry.now) query.now.prefix ≡ false }
    ensures { GoesOnAt dir.now query.now (Some (entry_point dir.now entry.now)) result }
{
    // for the proof: the call's clauses say that the names rise
    let _names = dir.len();
    match *entry {
        PageEntry::Key { rank, .. } => u64::from(rank) + 1,
        PageEntry::Group { rank, len } => {
            group_end(dir, u64::from(rank), group_str(dir, rank, len))
        }
    }
}

// The rank of the first name that the point admits.
fn first_admitted(dir: &Directory, query: &ListQuery, point: Option<&TokenPoint>) -> u64
    ensures within { result ≤ length dir.now }
    ensures first { StandFirst (λ name. not (is_admitted query.now (option_copied point.entry) name)) dir.now result }
{
    match point {
        None if query.start_after.bytes().is_empty() => 0,
        None => dir.after_text(&query.start_after),
        Some(TokenPoint::Key(key)) => dir.after_text(key),
        Some(TokenPoint::Group(group)) => dir.past_prefix(group.bytes()),
    }
}
