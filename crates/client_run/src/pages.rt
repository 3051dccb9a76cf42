// LIST and NEXT: the query, the point at which its page begins, and the page.
ghost use Rattle.std.specs.Prelude.{◌≡◌, None, Some, Option, IfOk, OnErr};
ghost use Rattle.std.specs.Option.{option_copied, option_map, ForSome};
ghost use Rattle.bucket_terms.specs.declared.request.Request.TheVariants.{List as ListRequest, Next};
ghost use Rattle.bucket_terms.specs.declared.reply.Reply.{Reply};
ghost use Rattle.bucket_terms.specs.Listing.{next_token, page_point};
ghost use Rattle.bucket_terms.specs.PageInRange.{IsInRange};
ghost use Rattle.bucket_terms.specs.LegalRun.{Resumed, next_of};
ghost use Rattle.client_run.specs.ClientRun.{answered, Answers, Stopped};
ghost use Rattle.client_run.specs.Listing.{HasPageInRange, ListedAs};
ghost use Rattle.client_run.specs.Starts.{IsStartOf, IsStartBehind, resumed, resumed_at};

use crate::listing::list_known;
use crate::turns::Turn;
use crate::updates::{answer_at, refused};
use bucket_terms::{KeyPass, ListQuery, Page, Placed, Reply, Shared, Token, TokenPoint};
use key_names::{Directory, NoMemory, Text};
use page_token::TokenError;
use std::alloc::Global;
use std::sync::Wait;

/// The query of the next page after a reply: None exactly where there is no reply, or it is no listing, or
/// its page is not truncated. Otherwise it is the query of the reply, with the token of its page: the text that the
/// line of the reply shows.
pub fn next_query(
    alloc: Global,
    dir: &Directory,
    last: Option<&Reply>,
) -> Result<Option<ListQuery>, NoMemory>
    requires { ForSome (option_copied last) (HasPageInRange dir.now) }
    ensures { IfOk result (λ next. next ≡ option_map (λ (r : Resumed). r.query) (next_of dir.now (option_copied last.entry))) }
{
    match resume(alloc, dir, last)? {
        Some(next) => {
            let Resumption { query, point: _ } = next;
            Ok(Some(query))
        }
        None => Ok(None),
    }
}

/// Where a listing continues: its query, with the token of the page before, and the point after that page.
#[derive(Drop)]
pub struct Resumption {
    pub query: ListQuery,
    pub point: TokenPoint,
}

/// Where the page after a reply begins. None exactly as `next_query` says.
pub fn resume(
    alloc: Global,
    dir: &Directory,
    last: Option<&Reply>,
) -> Result<Option<Resumption>, NoMemory>
    requires { ForSome (option_copied last) (HasPageInRange dir.now) }
    ensures { IfOk result (λ next. option_map resumed next ≡ next_of dir.now (option_copied last.entry)) }
{
    match last {
        Some(reply) => behind_reply(alloc, dir, reply),
        None => Ok(None),
    }
}

fn behind_reply(
    alloc: Global,
    dir: &Directory,
    reply: &Reply,
) -> Result<Option<Resumption>, NoMemory>
    requires { HasPageInRange dir.now reply.now }
    ensures { IfOk result (λ next. option_map resumed next ≡ next_of dir.now (Some reply.now)) }
{
    match reply {
        Reply::Listed { query, page } => behind(alloc, dir, query.get(), page.get()),
        _ => Ok(None),
    }
}

fn behind(
    alloc: Global,
    dir: &Directory,
    query: &ListQuery,
    page: &Page,
) -> Result<Option<Resumption>, NoMemory>
    requires { IsInRange dir.now page.now }
    ensures { IfOk result (λ next. option_map resumed next ≡ resumed_at query.now (page_point dir.now page.now)) }
{
    match page.point(alloc, dir)? {
        Some(point) => {
            let query = with_token(alloc, query, &point)?;
            Ok(Some(Resumption { query, point }))
        }
        None => Ok(None),
    }
}

// The query with the token of a page that ends at this point.
fn with_token(alloc: Global, query: &ListQuery, point: &TokenPoint) -> Result<ListQuery, NoMemory>
    ensures { IfOk result (λ next. next ≡ record query.now { token = next_token query.now point.now }) }
{
    let token = token_of(alloc, query, point)?;
    let mut next = query.copy(alloc)?;
    next.token = token;
    Ok(next)
}

// The token of a page of this query that ends at this point.
fn token_of(alloc: Global, query: &ListQuery, point: &TokenPoint) -> Result<Text, NoMemory>
    ensures { IfOk result (λ token. token ≡ next_token query.now point.now) }
{
    let bound = query.bound(alloc)?;
    let token = page_token::write(alloc, point, &bound);
    drop(bound);
    token
}

/// Where a LIST begins.
#[derive(Drop)]
pub enum Start {
    /// At the first admitted key.
    First,
    /// After this point.
    Behind(TokenPoint),
    /// Nowhere: the text is not a token, or is that of another listing.
    Bad,
}

/// Where a listing begins according to the token of its query. The only error is out of memory.
pub fn start_of(alloc: Global, query: &ListQuery) -> Result<Start, NoMemory>
    ensures { IfOk result (IsStartOf query.now) }
{
    if query.token.bytes().is_empty() {
        return Ok(Start::First);
    }
    match page_token::read(alloc, query.token.bytes()) {
        Ok(token) => Ok(start_behind(token, query)),
        Err(TokenError::Bad) => Ok(Start::Bad),
        Err(TokenError::NoMemory) => Err(NoMemory),
    }
}

// After the point of a token, where the token belongs to this listing.
fn start_behind(token: Token, query: &ListQuery) -> Start
    ensures { IsStartBehind query.now token result }
{
    let Token { point, bound } = token;
    match bound {
        Some(bound) if !bound.is_of(query) => Start::Bad,
        _ => Start::Behind(point),
    }
}

// Answers a LIST. The reply shares its query.
pub(crate) fn list_request<P: KeyPass, Rt: Wait>(
    rt: &Rt,
    alloc: Global,
    pass: &mut P,
    turn: &Turn<'_, '_>,
    query: &Shared<ListQuery>,
) -> Result<Placed, NoMemory>
    requires closed { (P.view pass.old).opened ≡ None }
    ensures answers { IfOk result (λ placed. (last : Option Reply) → Answers turn.now.known.now (P.view pass.old) (P.view pass.new) last (answered turn.now.asked.now.line (ListRequest query.now) placed)) }
    ensures in_range { IfOk result (λ placed. HasPageInRange turn.now.known.now placed.reply) }
    ensures stopped { OnErr result (Stopped (P.view pass.old) (P.view pass.new)) }
    ensures home { P.home pass.new ≡ P.home pass.old }
{
    match start_of(alloc, query.get())? {
        Start::First => {
            let query = query.share()?;
            listed(rt, alloc, pass, turn, query, None)
        }
        Start::Behind(point) => {
            let query = query.share()?;
            listed(rt, alloc, pass, turn, query, Some(point))
        }
        Start::Bad => Ok(refused(pass.client(), turn.asked.line, Reply::BadToken)),
    }
}

// Answers a NEXT.
pub(crate) fn next_request<P: KeyPass, Rt: Wait>(
    rt: &Rt,
    alloc: Global,
    pass: &mut P,
    turn: &Turn<'_, '_>,
) -> Result<Placed, NoMemory>
    requires closed { (P.view pass.old).opened ≡ None }
    requires in_range { ForSome (option_copied turn.now.last) (HasPageInRange turn.now.known.now) }
    ensures answers { IfOk result (λ placed. Answers turn.now.known.now (P.view pass.old) (P.view pass.new) (option_copied turn.now.last) (answered turn.now.asked.now.line Next placed)) }
    ensures in_range { IfOk result (λ placed. HasPageInRange turn.now.known.now placed.reply) }
    ensures stopped { OnErr result (Stopped (P.view pass.old) (P.view pass.new)) }
    ensures home { P.home pass.new ≡ P.home pass.old }
{
    match resume(alloc, turn.known.directory(), turn.last)? {
        Some(next) => {
            let Resumption { query, point } = next;
            let query = Shared::new(alloc, query)?;
            listed(rt, alloc, pass, turn, query, Some(point))
        }
        None => Ok(refused(pass.client(), turn.asked.line, Reply::BadToken)),
    }
}

// The reply with the page of a query, from a point on.
fn listed<P: KeyPass, Rt: Wait>(
    rt: &Rt,
    alloc: Global,
    pass: &mut P,
    turn: &Turn<'_, '_>,
    query: Shared<ListQuery>,
    point: Option<TokenPoint>,
) -> Result<Placed, NoMemory>
    requires closed { (P.view pass.old).opened ≡ None }
    ensures answer { IfOk result (ListedAs turn.now.known.now query point turn.now.asked.now.line (P.view pass.old) (P.view pass.new)) }
    ensures stopped { OnErr result (Stopped (P.view pass.old) (P.view pass.new)) }
    ensures home { P.home pass.new ≡ P.home pass.old }
{
    let client = pass.client();
    let found = list_known(rt, alloc, pass, turn.known, query.get(), point.as_ref());
    drop(point);
    let (at, page) = found?;
    let page = Shared::new(alloc, page)?;
    Ok(answer_at(client, turn.asked.line, at, Reply::Listed { query, page }))
}
