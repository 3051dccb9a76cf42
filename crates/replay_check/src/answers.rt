// The one reply that a request can have at a place, and without one.
ghost use Rattle.std.specs.Prelude.{◌≡◌, ℕ, List, Some, None, Option, Contains, IfSome, IfOk, MatchOption};
ghost use Rattle.std.specs.Option.{option_copied, ForSome};
ghost use Rattle.key_names.specs.Names.{IsRank};
ghost use Rattle.key_map.specs.Map.{map_has};
ghost use Rattle.bucket_terms.specs.declared.token_point.TokenPoint.{TokenPoint as Point};
ghost use Rattle.bucket_terms.specs.declared.request.Request.TheVariants.{List as ListRequest, Next};
ghost use Rattle.bucket_terms.specs.declared.reply.Reply.{Reply as AnyReply};
ghost use Rattle.bucket_terms.specs.declared.reply.Reply.TheVariants.{Listed, ListedV1};
ghost use Rattle.bucket_terms.specs.Listing.{page_of, v1_page};
ghost use Rattle.bucket_terms.specs.LegalRun.{IsPointOf, next_of};
ghost use Rattle.bucket_terms.specs.PageInRange.{IsInRange};
ghost use Rattle.bucket_terms.specs.RunParts.{head_answer};
ghost use Rattle.request_lines.specs.SessionLaws.{requested_name};
ghost use Rattle.client_run.specs.Listing.{HasPageInRange};
ghost use Rattle.replay_check.specs.Answering.{own_reply, kept_by, absent_by, slot_reply, start_reply, next_page, IsListedFrom, IsLook, IsRefusal};

use crate::replay_map::ReplayMap;
use bucket_terms::{ListQuery, Page, Reply, Request, Shared, TokenPoint, V1Query};
use client_run::{Resumption, Start, resume, start_of};
use key_names::{Directory, NoMemory, Text};
use list_v1::{plain_query, point_of};
use page_rules::PageCursor;
use std::alloc::Global;

/// The reply of a request that was refused, and so has no place: `used` is the number of updates of its client's
/// earlier lines. None if it cannot have been refused.
pub(crate) fn refused(
    alloc: Global,
    dir: &Directory,
    used: u64,
    slots: u64,
    last: Option<&Reply>,
    request: &Request,
) -> Result<Option<Reply>, NoMemory>
    requires { ForSome (option_copied last) (HasPageInRange dir.now) }
    ensures refusal { IfOk result (IsRefusal dir.now slots used (option_copied last.entry) request.now) }
    ensures in_range { IfOk result (λ found. ForSome found (HasPageInRange dir.now)) }
{
    match request {
        Request::Put { .. } | Request::PutNew { .. } | Request::Delete { .. } => {
            Ok(without_slot(used, slots))
        }
        Request::List(query) => refused_list(alloc, query.get()),
        Request::Next => refused_next(alloc, dir, last),
        Request::Head { .. } | Request::ListV1(_) => Ok(None),
    }
}

// An update is refused if its client has used its slots.
fn without_slot(used: u64, slots: u64) -> Option<Reply>
    ensures reply { result ≡ slot_reply slots used }
    ensures in_range { (dir : List (List ℕ)) → ForSome result (HasPageInRange dir) }
{
    if slots <= used {
        Some(Reply::NoSlot)
    } else {
        None
    }
}

fn refused_list(alloc: Global, query: &ListQuery) -> Result<Option<Reply>, NoMemory>
    ensures refusal { IfOk result (λ found. (dir : List (List ℕ)) → (slots used : ℕ) → (last : Option AnyReply) → IsRefusal dir slots used last (ListRequest query.now) found) }
    ensures in_range { (dir : List (List ℕ)) → IfOk result (λ found. ForSome found (HasPageInRange dir)) }
{
    let start = start_of(alloc, query)?;
    Ok(refused_start(&start))
}

fn refused_start(start: &Start) -> Option<Reply>
    ensures { result ≡ start_reply start.now }
{
    match start {
        Start::Bad => Some(Reply::BadToken),
        Start::First => None,
        Start::Behind(_) => None,
    }
}

fn refused_next(
    alloc: Global,
    dir: &Directory,
    last: Option<&Reply>,
) -> Result<Option<Reply>, NoMemory>
    requires { ForSome (option_copied last) (HasPageInRange dir.now) }
    ensures refusal { IfOk result (λ found. (slots used : ℕ) → IsRefusal dir.now slots used (option_copied last.entry) Next found) }
    ensures in_range { IfOk result (λ found. ForSome found (HasPageInRange dir.now)) }
{
    match resume(alloc, dir, last)? {
        None => Ok(Some(Reply::BadToken)),
        Some(_) => Ok(None),
    }
}

/// The reply of a request whose own update stands at the place: `was` says whether the key was there right before it.
/// None if the request cannot have made it.
pub(crate) fn of_update(request: &Request, was: bool) -> Option<Reply>
    ensures { result ≡ own_reply request.now was }
{
    match request {
        Request::Put { .. } => Some(Reply::Put { was }),
        Request::PutNew { .. } if !was => Some(Reply::Put { was: false }),
        Request::Delete { .. } if was => Some(Reply::Deleted),
        _ => None,
    }
}

/// The reply of a request that made no update, where the map is that at its place. None if it cannot have looked
/// there.
pub(crate) fn of_look(
    alloc: Global,
    map: &ReplayMap,
    dir: &Directory,
    last: Option<&Reply>,
    request: &Request,
    hint: usize,
) -> Result<Option<Reply>, NoMemory>
    requires known { IfSome (requested_name request.now) (Contains dir.now) }
    requires last_in_range { ForSome (option_copied last) (HasPageInRange dir.now) }
    ensures look { IfOk result (IsLook dir.now map.now (option_copied last.entry) request.now) }
    ensures in_range { IfOk result (λ found. ForSome found (HasPageInRange dir.now)) }
{
    match request {
        Request::Put { .. } => Ok(None),
        Request::PutNew { name, .. } => Ok(of_kept(map, rank_of(dir, name, hint))),
        Request::Delete { name } => Ok(of_absent(map, rank_of(dir, name, hint))),
        Request::Head { name } => Ok(Some(of_head(map, rank_of(dir, name, hint)))),
        Request::List(query) => of_list(alloc, map, dir, query),
        Request::ListV1(query) => Ok(Some(of_v1(alloc, map, dir, query)?)),
        Request::Next => of_next(alloc, map, dir, last),
    }
}

fn of_kept(map: &ReplayMap, key: u64) -> Option<Reply>
    ensures { result ≡ kept_by (map_has key map.now) }
{
    if map.has(key) {
        Some(Reply::Exists)
    } else {
        None
    }
}

fn of_absent(map: &ReplayMap, key: u64) -> Option<Reply>
    ensures { result ≡ absent_by (map_has key map.now) }
{
    if map.has(key) {
        None
    } else {
        Some(Reply::Deleted)
    }
}

fn of_head(map: &ReplayMap, key: u64) -> Reply
    ensures { result ≡ head_answer key map.now }
{
    match map.get(key) {
        Some(val) => Reply::Found { val },
        None => Reply::Missing,
    }
}

fn of_list(
    alloc: Global,
    map: &ReplayMap,
    dir: &Directory,
    query: &Shared<ListQuery>,
) -> Result<Option<Reply>, NoMemory>
    ensures look { IfOk result (λ found. MatchOption found ((point : Option Point) → ¬ (IsPointOf query.now point)) (IsListedFrom dir.now map.now query.now)) }
    ensures in_range { IfOk result (λ found. ForSome found (HasPageInRange dir.now)) }
{
    match start_of(alloc, query.get())? {
        Start::First => Ok(Some(listed(alloc, map, dir, query.share()?, None)?)),
        Start::Behind(point) => Ok(Some(listed(alloc, map, dir, query.share()?, Some(point))?)),
        Start::Bad => Ok(None),
    }
}

fn of_next(
    alloc: Global,
    map: &ReplayMap,
    dir: &Directory,
    last: Option<&Reply>,
) -> Result<Option<Reply>, NoMemory>
    requires { ForSome (option_copied last) (HasPageInRange dir.now) }
    ensures look { IfOk result (λ found. MatchOption (next_of dir.now (option_copied last.entry)) (found ≡ None) (λ next. found ≡ Some (next_page dir.now map.now next))) }
    ensures in_range { IfOk result (λ found. ForSome found (HasPageInRange dir.now)) }
{
    match resume(alloc, dir, last)? {
        Some(Resumption { query, point }) => {
            let query = Shared::new(alloc, query)?;
            Ok(Some(listed(alloc, map, dir, query, Some(point))?))
        }
        None => Ok(None),
    }
}

fn listed(
    alloc: Global,
    map: &ReplayMap,
    dir: &Directory,
    query: Shared<ListQuery>,
    point: Option<TokenPoint>,
) -> Result<Reply, NoMemory>
    ensures page { IfOk result (λ reply. reply ≡ Listed query (page_of dir.now query point map.now)) }
    ensures in_range { IfOk result (HasPageInRange dir.now) }
{
    let page = Shared::new(
        alloc,
        page_from(alloc, dir, map, query.get(), point.as_ref())?,
    )?;
    Ok(Reply::Listed { query, page })
}

fn of_v1(
    alloc: Global,
    map: &ReplayMap,
    dir: &Directory,
    query: &Shared<V1Query>,
) -> Result<Reply, NoMemory>
    ensures page { IfOk result (λ reply. reply ≡ ListedV1 query.now (v1_page dir.now query.now map.now)) }
    ensures in_range { IfOk result (HasPageInRange dir.now) }
{
    let page = Shared::new(alloc, v1_page_from(alloc, map, dir, query.get())?)?;
    let query = query.share()?;
    Ok(Reply::ListedV1 { query, page })
}

// The page of a query of version 1.
fn v1_page_from(
    alloc: Global,
    map: &ReplayMap,
    dir: &Directory,
    query: &V1Query,
) -> Result<Page, NoMemory>
    ensures page { IfOk result (λ page. page ≡ v1_page dir.now query.now map.now) }
    ensures in_range { IfOk result (IsInRange dir.now) }
{
    let point = point_of(alloc, query)?;
    let plain = plain_query(alloc, query)?;
    let page = page_from(alloc, dir, map, &plain, point.as_ref());
    // Dropped here by a call, so that the proof has its fields once and not at each way out.
    drop(plain);
    page
}

// The page of a query from a point on, by one look for each entry.
fn page_from(
    alloc: Global,
    dir: &Directory,
    map: &ReplayMap,
    query: &ListQuery,
    point: Option<&TokenPoint>,
) -> Result<Page, NoMemory>
    ensures page { IfOk result (λ page. page ≡ page_of dir.now query.now (option_copied point.entry) map.now) }
    ensures in_range { IfOk result (IsInRange dir.now) }
{
    // The call's clauses give the proof that the keys rise.
    let _keys = map.len();
    let mut cursor = PageCursor::new(alloc, dir, query, point);
    while let Some(rank) = cursor.next_rank() {
        match map.first_from(rank) {
            Some(pair) => cursor.take(alloc, pair)?,
            None => break,
        }
    }
    Ok(cursor.finish())
}

/// The rank of a name that the directory has. It is searched for only if the hint is not the rank.
pub(crate) fn rank_of(dir: &Directory, name: &Text, hint: usize) -> u64
    requires { Contains dir.now name.now }
    ensures { IsRank dir.now name.now result }
{
    let hint = hint as u64;
    if hint < dir.len() && dir.name(hint).bytes() == name.bytes() {
        return hint;
    }
    match dir.rank(name.bytes()) {
        Some(rank) => rank,
        None => unreachable!(),
    }
}
