// A client's requests, one after another.
ghost use Rattle.std.specs.Prelude.{◌≡◌, ◌<◌, ◌≤◌, [], ◌∷◌, None, Some, All, IfOk, OnErr, length, if◌then◌else◌, slice_get};
ghost use Rattle.std.specs.Option.{ForSome, option_copied, option_map, option_and_then};
ghost use Rattle.bucket_terms.specs.LegalRun.{RequestLine, is_listing};
ghost use Rattle.bucket_terms.specs.RunParts.{updates_in};
ghost use Rattle.request_lines.specs.Session.{request_line, request_lines};
ghost use Rattle.client_run.specs.Listing.{HasPageInRange};
ghost use Rattle.client_run.specs.ClientRun.{Answers, RanClient, IsLaterLine, Stopped};
ghost use Rattle.request_lines.specs.SessionLaws.{IsAskable, Rise};

use crate::parts::{Progress, run_part};
use crate::turns::Turn;
use crate::{Gate, pages, updates, v1_pages};
use bucket_terms::{KeyPass, Placed, Reply, Request};
use key_names::{Directory, NoMemory};
use page_rules::KnownPrefixes;
use request_lines::ClientPart;
use std::alloc::Global;
use std::sync::Wait;

/// Answers the client's requests, in order, over a pass. The gate is notified before and after each.
/// The replies are those of a legal run over the history that the pass knows at the end. After `NoMemory`
/// updates may have been made.
pub fn run_client<P: KeyPass, G: Gate, Rt: Wait>(
    rt: &Rt,
    alloc: Global,
    pass: &mut P,
    part: &ClientPart,
    dir: &Directory,
    gate: &G,
) -> Result<Vec<Placed>, NoMemory>
    requires closed { (P.view pass.old).opened ≡ None }
    requires askable { All (IsAskable dir.now) (request_lines part.now) }
    requires calls { updates_in (request_lines part.now) ≤ (P.view pass.old).left }
    requires rising { Rise (request_lines part.now) }
    requires later { All (λ (l : RequestLine). IsLaterLine (P.view pass.old) l.line) (request_lines part.now) }
    ensures ran { IfOk result (λ replies. RanClient dir.now (request_lines part.now) (P.view pass.old) (P.view pass.new) replies.items) }
    ensures stopped { OnErr result (Stopped (P.view pass.old) (P.view pass.new)) }
    ensures home { P.home pass.new ≡ P.home pass.old }
{
    let progress = Progress::start(alloc, dir, part)?;
    let (replies, _) = run_part(rt, alloc, pass, part, progress, part.requests.len(), gate)?;
    Ok(replies)
}

/// The directory, with the ranks of the prefixes that the client's listings name: each is searched for once.
pub(crate) fn known_prefixes<'a>(
    alloc: Global,
    dir: &'a Directory,
    part: &ClientPart,
) -> Result<KnownPrefixes<'a>, NoMemory>
    ensures { IfOk result (λ known. known ≡ dir.now) }
{
    let mut known = KnownPrefixes::none(alloc, dir);
    for asked in part.requests.as_slice() {
        match &asked.request {
            Request::List(query) => known.note(alloc, &query.get().prefix)?,
            Request::ListV1(query) => known.note(alloc, &query.get().prefix)?,
            _ => (),
        }
    }
    Ok(known)
}

// Answers one request.
pub(crate) fn answer<P: KeyPass, Rt: Wait>(
    rt: &Rt,
    alloc: Global,
    pass: &mut P,
    turn: &Turn<'_, '_>,
) -> Result<Placed, NoMemory>
    requires closed { (P.view pass.old).opened ≡ None }
    requires askable { IsAskable turn.now.known.now (request_line turn.now.asked.now) }
    requires calls { updates_in (request_line turn.now.asked.now ∷ []) ≤ (P.view pass.old).left }
    requires later { IsLaterLine (P.view pass.old) turn.now.asked.now.line }
    requires in_range { ForSome (option_copied turn.now.last) (HasPageInRange turn.now.known.now) }
    ensures answers { IfOk result (λ placed. Answers turn.now.known.now (P.view pass.old) (P.view pass.new) (option_copied turn.now.last) (record { asked = request_line turn.now.asked.now; placed = placed })) }
    ensures in_range { IfOk result (λ placed. HasPageInRange turn.now.known.now placed.reply) }
    ensures stopped { OnErr result (Stopped (P.view pass.old) (P.view pass.new)) }
    ensures home { P.home pass.new ≡ P.home pass.old }
{
    match &turn.asked.request {
        Request::Put { name, val } => Ok(updates::put(rt, pass, turn, name, *val)),
        Request::PutNew { name, val } => Ok(updates::put_new(rt, pass, turn, name, *val)),
        Request::Delete { name } => Ok(updates::delete(rt, pass, turn, name)),
        Request::Head { name } => Ok(updates::head(rt, pass, turn, name)),
        Request::List(query) => pages::list_request(rt, alloc, pass, turn, query),
        Request::ListV1(query) => v1_pages::v1_request(rt, alloc, pass, turn, query),
        Request::Next => pages::next_request(rt, alloc, pass, turn),
    }
}

// The place of the last LIST or NEXT: this request's, or otherwise the one so far.
pub(crate) fn later_listing(last: Option<usize>, request: &Request, place: usize) -> Option<usize>
    ensures { result ≡ (if is_listing request.now then Some place else last) }
{
    match request {
        Request::List(_) | Request::Next => Some(place),
        _ => last,
    }
}

pub(crate) fn reply_at(replies: &[Placed], place: Option<usize>) -> Option<&Reply>
    requires { ForSome place (λ k. k < length replies.now) }
    ensures { option_copied result ≡ option_and_then (λ k. option_map (λ (p : Placed). p.reply) (slice_get replies.now k)) place }
{
    match place {
        Some(place) => Some(&replies[place].reply),
        None => None,
    }
}
