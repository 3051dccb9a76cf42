// The reply lines of a written text, looked at in the order of their places: each client's lines one after the other,
// while one map advances along the history.
ghost use Rattle.std.specs.Prelude.{◌≡◌, ◌+◌, ◌<◌, ◌^◌, List, length, Option, IfOk, OnOk};
ghost use Rattle.std.specs.Option.{ForSome};
ghost use Rattle.bucket_terms.specs.LegalRun as run;
ghost use Rattle.bucket_terms.specs.LegalRun.{lines_of};
ghost use Rattle.client_run.specs.Listing.{HasPageInRange};
ghost use Rattle.replay_check.specs.Replaying.{IsReplayed};
ghost use Rattle.replay_check.specs.Looking.{IsBasis, IsReadyOn, AreReadyOn, IsNextFound, IsFirstWrong, GoesOn, against, looks_left, texts_in, texts_of};

use crate::basis::Basis;
use crate::beginning::{due_at, starts};
use crate::line_reply::line_reply;
use crate::replay::Replay;
use crate::turns::{Client, Turn};
use bucket_terms::{Placed, Request};
use key_names::NoMemory;
use std::alloc::Global;

/// The number of the first reply line that is wrong, counted from 0. None if all are right.
pub(crate) fn first_wrong(alloc: Global, basis: &Basis<'_>) -> Result<Option<usize>, NoMemory>
    requires { IsBasis basis.now }
    ensures { IfOk result (IsFirstWrong (against basis.now) basis.now.updates.now (texts_in basis.now)) }
{
    let mut clients = starts(alloc, basis)?;
    let mut replay = Replay::new(alloc);
    look_all(alloc, basis, &replay, &mut clients)?;
    for _ in 0..basis.updates.len() {
        replay.advance(basis.updates)?;
        look_all(alloc, basis, &replay, &mut clients)?;
    }
    Ok(first_unfinished(basis, &clients))
}

// Looks at all lines that are due at the place of the map.
fn look_all(
    alloc: Global,
    basis: &Basis<'_>,
    replay: &Replay,
    clients: &mut [Client],
) -> Result<(), NoMemory>
    requires basis { IsBasis basis.now }
    requires here { IsReplayed replay.now basis.now.updates.now replay.now.at }
    requires ready { AreReadyOn basis.now replay.now.at clients.old }
    ensures { OnOk result (AreReadyOn basis.now (replay.now.at + 1) clients.new) }
{
    for number in 0..clients.len() {
        look_on(alloc, basis, replay, number, &mut clients[number])?;
    }
    Ok(())
}

// Looks at a client's lines that are due at the place of the map.
fn look_on(
    alloc: Global,
    basis: &Basis<'_>,
    replay: &Replay,
    number: usize,
    client: &mut Client,
) -> Result<(), NoMemory>
    requires basis { IsBasis basis.now }
    requires here { IsReplayed replay.now basis.now.updates.now replay.now.at }
    requires within { number < length basis.now.session.now.clients }
    requires ready { IsReadyOn basis.now number replay.now.at client.old }
    ensures { OnOk result (IsReadyOn basis.now number (replay.now.at + 1) client.new) }
{
    let lines = basis.session.clients.as_slice()[number].requests.len();
    while client.next < lines && client.due == replay.at as u64 {
        look(alloc, basis, replay, number, client)?;
    }
    Ok(())
}

// Looks at a client's next line: the client goes on after a right one, and stops for good at a wrong one.
fn look(
    alloc: Global,
    basis: &Basis<'_>,
    replay: &Replay,
    number: usize,
    client: &mut Client,
) -> Result<(), NoMemory>
    requires basis { IsBasis basis.now }
    requires here { IsReplayed replay.now basis.now.updates.now replay.now.at }
    requires within { number < length basis.now.session.now.clients }
    requires ready { IsReadyOn basis.now number replay.now.at client.old }
    requires inside { client.old.next < length (lines_of (against basis.now).parts number) }
    requires due { client.old.due ≡ replay.now.at }
    ensures ready { OnOk result (IsReadyOn basis.now number replay.now.at client.new) }
    ensures fewer { let lines = length (lines_of (against basis.now).parts number) in OnOk result (looks_left lines replay.now.at client.new < looks_left lines replay.now.at client.old) }
{
    match next_reply(alloc, basis, replay, number, client)? {
        Some(placed) => {
            let request = &basis.session.clients.as_slice()[number]
                .requests
                .as_slice()[client.next].request;
            let own = basis.own[number].get(client.next);
            go_on(client, request, own, placed, basis.lines);
        }
        None => client.due = u64::MAX,
    }
    Ok(())
}

// The reply of a client's next line. None if the line is wrong.
fn next_reply(
    alloc: Global,
    basis: &Basis<'_>,
    replay: &Replay,
    number: usize,
    client: &Client,
) -> Result<Option<Placed>, NoMemory>
    requires basis { IsBasis basis.now }
    requires here { IsReplayed replay.now basis.now.updates.now replay.now.at }
    requires within { number < length basis.now.session.now.clients }
    requires ready { IsReadyOn basis.now number replay.now.at client.now }
    requires inside { client.now.next < length (lines_of (against basis.now).parts number) }
    requires due { client.now.due ≡ replay.now.at }
    ensures found { IfOk result (IsNextFound basis.now number client.now) }
    ensures in_range { IfOk result (λ found. ForSome found (λ placed. HasPageInRange basis.now.dir.now placed.reply)) }
{
    let part = &basis.session.clients.as_slice()[number];
    let asked = &part.requests.as_slice()[client.next];
    let hint = part.requests.rank(client.next);
    let own = basis.own[number].get(client.next);
    let turn = Turn {
        number: number as u32,
        client,
        own,
        asked,
        hint,
    };
    let text = basis.lines[client.first + client.next];
    let records = basis.session.records.as_slice();
    line_reply(alloc, basis.dir, records, replay, &turn, text)
}

// The client after its next line, which is right.
fn go_on(client: &mut Client, request: &Request, own: Option<u64>, placed: Placed, lines: &[&[u8]])
    requires used { client.old.used < 2 ^ 63 }
    requires line { client.old.first + client.old.next < 2 ^ 63 }
    ensures { GoesOn (texts_of lines.now) request.now own placed client.old client.new }
{
    let Placed { at, reply, .. } = placed;
    client.seen = at.unwrap_or(client.seen);
    client.used += own.is_some() as u64;
    client.next += 1;
    client.due = due_at(lines, client.first + client.next, client.seen);
    if is_listing(request) {
        client.last = Some(reply);
    }
}

fn is_listing(request: &Request) -> bool
    ensures { result ≡ run.is_listing request.now }
{
    matches!(request, Request::List(_) | Request::Next)
}

// The first line that was not found right: the one after the client's right ones.
fn first_unfinished(basis: &Basis<'_>, clients: &[Client]) -> Option<usize>
    requires basis { IsBasis basis.now }
    requires ready { AreReadyOn basis.now (length basis.now.updates.now + 1) clients.now }
    ensures { IsFirstWrong (against basis.now) basis.now.updates.now (texts_in basis.now) result }
{
    for number in 0..clients.len() {
        let client = &clients[number];
        if client.next < basis.session.clients.as_slice()[number].requests.len() {
            return Some(client.first + client.next);
        }
    }
    None
}
