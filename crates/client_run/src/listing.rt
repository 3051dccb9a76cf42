// A listing: one snapshot for its whole page.
ghost use Rattle.std.specs.Prelude.{◌≡◌, ℕ, None, Some, Option, IsSome, IfOk};
ghost use Rattle.std.specs.Option.{option_copied};
ghost use Rattle.key_map.specs.History.{after};
ghost use Rattle.bucket_terms.specs.Listing.{page_of};
ghost use Rattle.bucket_terms.specs.PageInRange.{IsInRange};
ghost use Rattle.client_run.specs.Listing.{ListedAt, LookedOnly};

use bucket_terms::{KeyPass, ListQuery, Page, TokenPoint};
use key_names::{Directory, NoMemory};
use page_rules::{KnownPrefixes, PageCursor};
use std::alloc::Global;
use std::sync::Wait;

/// The page of a query, from a point on, in one snapshot, and the place of the snapshot. After both answers
/// no snapshot is open.
pub fn list<P: KeyPass, Rt: Wait>(
    rt: &Rt,
    alloc: Global,
    pass: &mut P,
    dir: &Directory,
    query: &ListQuery,
    point: Option<&TokenPoint>,
) -> Result<(u64, Page), NoMemory>
    requires closed { (P.view pass.old).opened ≡ None }
    ensures listed { IfOk result (λ answer. ListedAt dir.now query.now (option_copied point.entry) (P.view pass.old) (P.view pass.new) answer.0 answer.1) }
    ensures kept { LookedOnly (P.view pass.old) (P.view pass.new) }
    ensures home { P.home pass.new ≡ P.home pass.old }
{
    let known = KnownPrefixes::none(alloc, dir);
    list_known(rt, alloc, pass, &known, query, point)
}

// The same as `list`, on the names of a directory whose prefixes are known: a known one is not searched for.
pub(crate) fn list_known<P: KeyPass, Rt: Wait>(
    rt: &Rt,
    alloc: Global,
    pass: &mut P,
    known: &KnownPrefixes<'_>,
    query: &ListQuery,
    point: Option<&TokenPoint>,
) -> Result<(u64, Page), NoMemory>
    requires closed { (P.view pass.old).opened ≡ None }
    ensures listed { IfOk result (λ answer. ListedAt known.now query.now (option_copied point.entry) (P.view pass.old) (P.view pass.new) answer.0 answer.1) }
    ensures kept { LookedOnly (P.view pass.old) (P.view pass.new) }
    ensures home { P.home pass.new ≡ P.home pass.old }
{
    let at = pass.begin();
    let page = page_in(rt, alloc, pass, known, query, point);
    pass.end();
    match page {
        Ok(page) => Ok((at, page)),
        Err(e) => Err(e),
    }
}

// The page of a query in the open snapshot. Each look-up starts after the entry before it.
fn page_in<P: KeyPass, Rt: Wait>(
    rt: &Rt,
    alloc: Global,
    pass: &mut P,
    known: &KnownPrefixes<'_>,
    query: &ListQuery,
    point: Option<&TokenPoint>,
) -> Result<Page, NoMemory>
    requires open { IsSome (P.view pass.old).opened }
    ensures page { IfOk result (λ page. (at : ℕ) → (P.view pass.old).opened ≡ Some at
        → page ≡ page_of known.now query.now (option_copied point.entry) (after (P.view pass.old).seen at)) }
    ensures in_range { IfOk result (IsInRange known.now) }
    ensures same { P.view pass.new ≡ P.view pass.old }
    ensures home { P.home pass.new ≡ P.home pass.old }
{
    let mut cursor = PageCursor::of_known(alloc, known, query, point);
    while let Some(rank) = cursor.next_rank() {
        match pass.next_from(rt, rank) {
            Some(pair) => cursor.take(alloc, pair)?,
            None => return Ok(cursor.finish()),
        }
    }
    Ok(cursor.finish())
}
