// A client's requests, answered in parts.
ghost use Rattle.std.specs.Prelude.{◌≡◌, ◌<◌, None, IfOk, OnErr, length};
ghost use Rattle.std.specs.Option.{ForSome, option_copied};
ghost use Rattle.request_lines.specs.Session.{request_lines};
ghost use Rattle.client_run.specs.ClientRun.{Stopped};
ghost use Rattle.client_run.specs.Parts.{BeforePartsLaw, CanGoOn, NextPartLaw, WentOn, last_by};

use crate::Gate;
use crate::hints::Hints;
use crate::run::{answer, known_prefixes, later_listing};
use crate::turns::Turn;
use bucket_terms::{KeyPass, Placed, Reply};
use key_names::{Directory, NoMemory};
use page_rules::KnownPrefixes;
use request_lines::ClientPart;
use std::alloc::Global;
use std::marker::Model;
use std::sync::Wait;

/// What is kept of a client's run from one part of its requests to the next.
#[derive(Drop)]
pub struct Progress<'d> {
    known: KnownPrefixes<'d>,
    hints: Hints,
    // How many requests are answered.
    done: usize,
    // The reply of the last LIST or NEXT.
    last: Option<Reply>,
}

impl<'d> Model for Progress<'d> {
    ghost use Rattle.client_run.specs.Parts.{Kept};

    ghost Value = { Kept };

    ghost view = { λ p. record { dir = p.known; done = p.done; last = p.last } };
}

impl<'d> Progress<'d> {
    /// Before the first of the client's requests.
    pub fn start(
        alloc: Global,
        dir: &'d Directory,
        part: &ClientPart,
    ) -> Result<Progress<'d>, NoMemory>
        ensures { IfOk result (λ progress. progress ≡ record { dir = dir.now; done = 0; last = None }) }
    {
        Ok(Progress {
            known: known_prefixes(alloc, dir, part)?,
            hints: Hints::none(),
            done: 0,
            last: None,
        })
    }
}

/// Answers the next `most` of the client's requests, or those that are left if they are fewer, in order, over a pass.
/// The gate is notified before and after each. After `NoMemory` updates may have been made.
pub fn run_part<'d, P: KeyPass, G: Gate, Rt: Wait>(
    rt: &Rt,
    alloc: Global,
    pass: &mut P,
    part: &ClientPart,
    progress: Progress<'d>,
    most: usize,
    gate: &G,
) -> Result<(Vec<Placed>, Progress<'d>), NoMemory>
    requires can { CanGoOn progress (request_lines part.now) (P.view pass.old) }
    ensures went { IfOk result (λ ran. WentOn progress.entry ran.1 (request_lines part.now) most (P.view pass.old) (P.view pass.new) ran.0.items) }
    ensures stopped { OnErr result (Stopped (P.view pass.old) (P.view pass.new)) }
    ensures home { P.home pass.new ≡ P.home pass.old }
{
    let client = pass.client();
    let Progress {
        known,
        mut hints,
        done,
        last: before,
    } = progress;
    let (_, left) = part.requests.as_slice().split_at(done);
    let (next, _) = left.split_at(left.len().min(most));
    let mut replies: Vec<Placed> = Vec::with_capacity(alloc, next.len())?;
    let mut last = None;
    let earlier = before.as_ref();
    for asked in next {
        let place = replies.len();
        let hint = hints.at(
            known.directory(),
            &part.requests,
            done.saturating_add(place),
        );
        let last_reply = last_listing(&replies, last, earlier);
        let turn = Turn {
            known: &known,
            asked,
            hint,
            last: last_reply,
        };
        gate.before(client, asked.line);
        let placed = answer(rt, alloc, pass, &turn)?;
        gate.after(client, asked.line);
        last = later_listing(last, &asked.request, place);
        replies.push(placed)?;
    }
    let last = kept_listing(&replies, last, before)?;
    let progress = Progress {
        known,
        hints,
        done: done + next.len(),
        last,
    };
    Ok((replies, progress))
}

/// Parts that follow one another are a run of their requests, as `run_client` makes it. The call does nothing.
pub fn parts_make_a_run()
    ensures before { BeforePartsLaw }
    ensures next { NextPartLaw }
{}

// The reply of the last listing: the one at this place, or else that of earlier parts.
fn last_listing<'a>(
    replies: &'a [Placed],
    place: Option<usize>,
    before: Option<&'a Reply>,
) -> Option<&'a Reply>
    requires { ForSome place (λ k. k < length replies.now) }
    ensures { option_copied result ≡ last_by replies.now place (option_copied before.entry) }
{
    match place {
        Some(place) => Some(&replies[place].reply),
        None => before,
    }
}

// The same, to be kept.
fn kept_listing(
    replies: &[Placed],
    place: Option<usize>,
    before: Option<Reply>,
) -> Result<Option<Reply>, NoMemory>
    requires { ForSome place (λ k. k < length replies.now) }
    ensures { IfOk result (λ last. last ≡ last_by replies.now place before) }
{
    match place {
        Some(place) => Ok(Some(shared(&replies[place].reply)?)),
        None => Ok(before),
    }
}

// The same reply, which shares the query and the page.
fn shared(reply: &Reply) -> Result<Reply, NoMemory>
    ensures { IfOk result (λ same. same ≡ reply.now) }
{
    let same = match reply {
        Reply::Put { was } => Reply::Put { was: *was },
        Reply::Exists => Reply::Exists,
        Reply::Deleted => Reply::Deleted,
        Reply::Found { val } => Reply::Found { val: *val },
        Reply::Missing => Reply::Missing,
        Reply::Listed { query, page } => Reply::Listed {
            query: query.share()?,
            page: page.share()?,
        },
        Reply::ListedV1 { query, page } => Reply::ListedV1 {
            query: query.share()?,
            page: page.share()?,
        },
        Reply::BadToken => Reply::BadToken,
        Reply::NoSlot => Reply::NoSlot,
    };
    Ok(same)
}
