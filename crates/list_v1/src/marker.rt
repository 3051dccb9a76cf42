// The markers of listings of version 1, and the query of version 2 that gives the page.
ghost use Rattle.std.specs.Prelude.{◌≡◌, IfOk, List};
ghost use Rattle.key_map.specs.Map.{IsMap};
ghost use Rattle.key_map.specs.declared.pair.Pair.{Pair};
ghost use Rattle.bucket_terms.specs.Listing.{point_text, plain, is_common_prefix, marker_point, v1_page, next_marker};
ghost use Rattle.bucket_terms.specs.PageInRange.{IsInRange};
ghost use Rattle.list_v1.specs.MarkerLaw.{LeavesTheRest, BeginsAll};

use bucket_terms::{ListQuery, Page, TokenPoint, V1Query};
use key_names::{Directory, NoMemory, Text};
use page_rules::group_len;
use std::alloc::Global;

/// The query of version 2 with the same parameters: no token, and no key to start after. The only error is out of
/// memory.
pub fn plain_query(alloc: Global, query: &V1Query) -> Result<ListQuery, NoMemory>
    ensures query { IfOk result (λ made. made ≡ plain query.now) }
{
    Ok(ListQuery {
        prefix: query.prefix.copy(alloc)?,
        delimiter: query.delimiter.copy(alloc)?,
        start_after: Text::of(alloc, "")?,
        token: Text::of(alloc, "")?,
        max_keys: query.max_keys,
        url: query.url,
    })
}

/// Where the listing begins (Amazon S3 API reference, ListObjects: `Marker`): after all keys of the marker where it
/// is a common prefix of the query, and otherwise after the key. None exactly where there is no marker. The only
/// error is out of memory.
pub fn point_of(alloc: Global, query: &V1Query) -> Result<Option<TokenPoint>, NoMemory>
    ensures point { IfOk result (λ point. point ≡ marker_point query.now) }
{
    if query.marker.bytes().is_empty() {
        return Ok(None);
    }
    let plain = plain_query(alloc, query)?;
    let marker = query.marker.copy(alloc)?;
    Ok(Some(if is_common_prefix(&plain, marker.bytes()) {
        TokenPoint::Group(marker)
    } else {
        TokenPoint::Key(marker)
    }))
}

// Whether the marker is a common prefix of the query.
fn is_common_prefix(query: &ListQuery, marker: &[u8]) -> bool
    ensures { result ≡ is_common_prefix query.now marker.now }
{
    marker.starts_with(query.prefix.bytes())
        && match group_len(query, marker) {
            Some(len) => len == marker.len() as u64,
            None => false,
        }
}

/// The marker from which the next page is listed: the text of a truncated page's last entry (Amazon S3 API reference,
/// ListObjects: `NextMarker`). None exactly where the page is not truncated, or the query has no delimiter. The only
/// error is out of memory.
pub fn next_marker(
    alloc: Global,
    dir: &Directory,
    query: &V1Query,
    page: &Page,
) -> Result<Option<Text>, NoMemory>
    requires in_range { IsInRange dir.now page.now }
    ensures next { IfOk result (λ next. next ≡ next_marker dir.now query.now page.now) }

    // The law of markers, over a map.
    ensures left { (m : List Pair) → IsMap m → page.now ≡ v1_page dir.now query.now m → LeavesTheRest dir.now query.now m page.now }
    ensures chained { (m : List Pair) → IsMap m → BeginsAll dir.now query.now m page.now }
{
    // for the proof: the call's clauses say that the names rise and are fine
    let _names = dir.len();
    if query.delimiter.bytes().is_empty() {
        return Ok(None);
    }
    match page.point(alloc, dir)? {
        Some(point) => Ok(Some(text_of(point))),
        None => Ok(None),
    }
}

// The key or the common prefix of a point.
fn text_of(point: TokenPoint) -> Text
    ensures { result ≡ point_text point }
{
    match point {
        TokenPoint::Key(key) => key,
        TokenPoint::Group(group) => group,
    }
}
