// The journal of a written text: the updates that its lines state.
ghost use Rattle.std.specs.Prelude.{◌≡◌, ◌^◌, ◌<◌, true, false, ℕ, List, [], map, length, All, Any, Some, IfSome, IfOk, is_none, slice_index_or};
ghost use Rattle.std.specs.Option.{option_map};
ghost use Rattle.std.specs.Borrow.{Bor};
ghost use Rattle.key_map.specs.declared.update.Update.{Update as AnyUpdate};
ghost use Rattle.answer_text.specs.Lines.{line_of, journal_data};
ghost use Rattle.bucket_terms.specs.LegalRun.{asked_change, lines_of};
ghost use Rattle.request_lines.specs.Session.{request_lines};
ghost use Rattle.request_lines.specs.SessionLaws.{IsAskable, Rise};
ghost use Rattle.text_laws.specs.WrongLine.{Checked};
ghost use Rattle.text_laws.specs.WrongParts.{Makes};
ghost use Rattle.replay_check.specs.declared.journal.Told.{Told as AnyTold};
ghost use Rattle.replay_check.specs.Own.{AreOwn, entry_at};
ghost use Rattle.replay_check.specs.Telling.{IsRead, IsOfSession, IsTold, IsToldBy, IsNext, IsJournalOf, IsSplitAt, named_change};

use crate::answers::rank_of;
use crate::numbers::{client_in, line_in};
use crate::own::{Table, enter, no_places};
use answer_text::push_journal_line;
use bucket_terms::Request;
use key_map::{Change, Update};
use key_names::{Directory, NoMemory, Text};
use request_lines::{ClientPart, Session};
use std::alloc::Global;

/// What the journal lines state.
#[derive(Drop)]
pub(crate) enum Journal {
    /// All are right: their updates, and the places of the requests that made them.
    Right {
        updates: Vec<Update>,
        own: Vec<Table>,
    },
    /// The line with this number, counted from 0, is the first that is wrong.
    Wrong {
        place: usize,
    },
}

/// The update of a journal line, and the place of its request among those of its client.
#[derive(Clone, Copy, Drop)]
pub(crate) struct Told {
    pub(crate) update: Update,
    pub(crate) request: usize,
}

/// Reads the journal lines of a text.
pub(crate) fn read_journal(
    alloc: Global,
    session: &Session,
    dir: &Directory,
    lines: &[&[u8]],
) -> Result<Journal, NoMemory>
    requires { IsRead session.now dir.now }
    ensures { IfOk result (λ journal. (c : Checked) → IsOfSession c session.now dir.now → IsJournalOf c (map (λ (line : Bor (List ℕ)). line.now) lines.now) journal) }
{
    let mut updates: Vec<Update> = Vec::new(alloc);
    let mut own = no_places(alloc, session)?;
    for line in lines {
        match next(alloc, session, dir, &updates, &own, line)? {
            Some(Told { update, request }) => {
                updates.push(update)?;
                let place = updates.len() as u64;
                enter(&mut own, update.client as usize, request, place);
            }
            None => return Ok(Journal::Wrong {
                place: updates.len(),
            }),
        }
    }
    Ok(Journal::Right { updates, own })
}

// The update that the line after these updates states, if it is right.
fn next(
    alloc: Global,
    session: &Session,
    dir: &Directory,
    updates: &[Update],
    own: &[Table],
    text: &[u8],
) -> Result<Option<Told>, NoMemory>
    requires read { IsRead session.now dir.now }
    requires own { AreOwn (map request_lines session.now.clients) updates.now own.now }
    ensures { IfOk result (λ found. (c : Checked) → IsOfSession c session.now dir.now → IsNext c updates.now text.now found) }
{
    let Some(told) = update_of(session, dir, text) else {
        return Ok(None);
    };
    let place = updates.len() as u64 + 1;
    if is_new(own, &told) && tells(alloc, dir, place, &told.update, text)? {
        Ok(Some(told))
    } else {
        Ok(None)
    }
}

// Whether the request has no update yet.
fn is_new(own: &[Table], told: &Told) -> bool
    requires client { told.now.update.client < length own.now }
    requires request { told.now.request < length (slice_index_or own.now told.now.update.client []) }
    ensures { result ≡ is_none (entry_at own.now told.now.update.client told.now.request) }
{
    own[told.update.client as usize].get(told.request).is_none()
}

// Whether the text is the journal line of the update at this place.
fn tells(
    alloc: Global,
    dir: &Directory,
    place: u64,
    update: &Update,
    text: &[u8],
) -> Result<bool, NoMemory>
    requires { update.now.key < length dir.now }
    ensures yes { IfOk result (λ same. same ≡ true → text.now ≡ line_of (journal_data dir.now place update.now)) }
    ensures no { IfOk result (λ same. same ≡ false → ¬ (text.now ≡ line_of (journal_data dir.now place update.now))) }
{
    let mut line = String::with_capacity(alloc, text.len())?;
    push_journal_line(&mut line, dir, place, update)?;
    Ok(line.as_bytes() == text)
}

// The update that the request line of the text's numbers would make, if there is such a line.
fn update_of(session: &Session, dir: &Directory, text: &[u8]) -> Option<Told>
    requires { IsRead session.now dir.now }
    ensures sound { (c : Checked) → IsOfSession c session.now dir.now → IfSome result (IsTold c) }
    ensures complete { (c : Checked) (at : ℕ) (u : AnyUpdate) → IsOfSession c session.now dir.now → at < 2 ^ 64 → u.client < length c.parts → Any (Makes c.dir u) (lines_of c.parts u.client)
        → text.now ≡ line_of (journal_data dir.now at u) → option_map (λ (told : AnyTold). told.update) result ≡ Some u }
{
    let client = client_in(text)?;
    let line = line_in(text)?;
    let part = session.clients.as_slice().get(client as usize)?;
    update_in(part, dir, client as u32, line)
}

// The update that the client's line with this number would make, if there is one.
fn update_in(part: &ClientPart, dir: &Directory, client: u32, line: u64) -> Option<Told>
    requires rising { Rise (request_lines part.now) }
    requires known { All (IsAskable dir.now) (request_lines part.now) }
    ensures { IsToldBy dir.now (request_lines part.now) client line result }
{
    let request = place_of(part, line);
    let asked = part.requests.as_slice().get(request)?;
    if u64::from(asked.line) != line {
        return None;
    }
    let (name, change) = change_of(&asked.request)?;
    let key = rank_of(dir, name, part.requests.rank(request));
    Some(Told {
        update: Update {
            client,
            line: asked.line,
            key,
            change,
        },
        request,
    })
}

// How many of the client's requests are of lines before this one.
fn place_of(part: &ClientPart, line: u64) -> usize
    requires { Rise (request_lines part.now) }
    ensures { IsSplitAt (request_lines part.now) line result }
{
    part.requests
        .as_slice()
        .partition_point(|asked| u64::from(asked.line) < line)
}

// The change that a request may make, and the name of its key.
fn change_of(request: &Request) -> Option<(&Text, Change)>
    ensures { option_map named_change result ≡ asked_change request.now }
{
    match request {
        Request::Put { name, val } | Request::PutNew { name, val } => Some((
            name,
            Change::Put(*val),
        )),
        Request::Delete { name } => Some((name, Change::Remove)),
        _ => None,
    }
}
