// The reply that a client's next request can have at a place of the history.
ghost use Rattle.std.specs.Prelude.{◌≡◌, ◌≤◌, ◌<◌, ℕ, List, Option, Some, None, Contains, All, length, IfSome, IfOk};
ghost use Rattle.std.specs.Option.{option_copied, ForSome};
ghost use Rattle.key_map.specs.declared.pair.Pair.{Pair as AnyPair};
ghost use Rattle.bucket_terms.specs.declared.record.Record.{Record as AnyRecord};
ghost use Rattle.bucket_terms.specs.LegalRun.{Setting, Answered};
ghost use Rattle.answer_text.specs.InRange.{IsReplyOf};
ghost use Rattle.request_lines.specs.SessionLaws.{requested_name};
ghost use Rattle.request_lines.specs.Session.{request_line};
ghost use Rattle.client_run.specs.Listing.{HasPageInRange};
ghost use Rattle.replay_check.specs.declared.replay.Replay.{Replay as AnyReplay};
ghost use Rattle.replay_check.specs.Turns.{KnowsTurn, IsFound};

use crate::answers::{of_look, of_update, refused};
use crate::replay::Replay;
use bucket_terms::Reply;
use key_names::{Directory, NoMemory};
use request_lines::Asked;
use std::alloc::Global;

/// What is known of a client whose first reply lines are right.
#[derive(Drop)]
pub(crate) struct Client {
    /// How many node slots it has.
    pub(crate) slots: u64,
    /// The number of its first reply line, counted from 0.
    pub(crate) first: usize,
    /// How many of its reply lines were looked at, and are right.
    pub(crate) next: usize,
    /// The place at which the next one is to be looked at.
    pub(crate) due: u64,
    /// The greatest place of these lines.
    pub(crate) seen: u64,
    /// How many updates the history has of their requests.
    pub(crate) used: u64,
    /// The reply of the last LIST or NEXT among them.
    pub(crate) last: Option<Reply>,
}

/// A request whose reply line is looked at: the number of its client and what is known of it, the place of the update
/// of the request, and where the directory may have its name.
#[derive(Clone, Copy)]
pub(crate) struct Turn<'a> {
    pub(crate) number: u32,
    pub(crate) client: &'a Client,
    pub(crate) own: Option<u64>,
    pub(crate) asked: &'a Asked,
    pub(crate) hint: usize,
}

/// The reply that the request can have at the place that its line shows, or without one. None if there is no such
/// reply.
pub(crate) fn reply_at(
    alloc: Global,
    dir: &Directory,
    replay: &Replay,
    turn: &Turn<'_>,
    at: Option<u64>,
) -> Result<Option<Reply>, NoMemory>
    requires known { IfSome (requested_name turn.now.asked.now.request) (Contains dir.now) }
    requires last_in_range { ForSome turn.now.client.now.last (HasPageInRange dir.now) }
    requires here { IfSome at (λ place. replay.now.at ≡ place) }
    ensures found { IfOk result (λ found. (s : Setting) (earlier : List Answered) → s.dir ≡ dir.now → KnowsTurn s earlier (request_line turn.now.asked.now) replay.now turn.now.own turn.now.client.now
        → IsFound s earlier (request_line turn.now.asked.now) at found) }
    ensures in_range { IfOk result (λ found. ForSome found (HasPageInRange dir.now)) }
    ensures recorded { (records : List AnyRecord) → All (λ (p : AnyPair). p.val < length records) replay.now.map → IfOk result (λ found. IfSome found (IsReplyOf dir.now records)) }
{
    match at {
        Some(at) => placed(alloc, dir, replay, turn, at),
        None => unplaced(alloc, dir, turn),
    }
}

// A request is refused only if it made no update.
fn unplaced(alloc: Global, dir: &Directory, turn: &Turn<'_>) -> Result<Option<Reply>, NoMemory>
    requires last_in_range { ForSome turn.now.client.now.last (HasPageInRange dir.now) }
    ensures found { IfOk result (λ found. (s : Setting) (earlier : List Answered) (replay : AnyReplay) → s.dir ≡ dir.now → KnowsTurn s earlier (request_line turn.now.asked.now) replay turn.now.own turn.now.client.now
        → IsFound s earlier (request_line turn.now.asked.now) None found) }
    ensures in_range { IfOk result (λ found. ForSome found (HasPageInRange dir.now)) }
    ensures recorded { (records : List AnyRecord) → IfOk result (λ found. IfSome found (IsReplyOf dir.now records)) }
{
    let client = turn.client;
    match turn.own {
        Some(_) => Ok(None),
        None => refused(
            alloc,
            dir,
            client.used,
            client.slots,
            client.last.as_ref(),
            &turn.asked.request,
        ),
    }
}

// A place is not below the client's places so far, and an own update stands above them.
fn placed(
    alloc: Global,
    dir: &Directory,
    replay: &Replay,
    turn: &Turn<'_>,
    at: u64,
) -> Result<Option<Reply>, NoMemory>
    requires known { IfSome (requested_name turn.now.asked.now.request) (Contains dir.now) }
    requires last_in_range { ForSome turn.now.client.now.last (HasPageInRange dir.now) }
    requires here { replay.now.at ≡ at }
    ensures found { IfOk result (λ found. (s : Setting) (earlier : List Answered) → s.dir ≡ dir.now → KnowsTurn s earlier (request_line turn.now.asked.now) replay.now turn.now.own turn.now.client.now
        → IsFound s earlier (request_line turn.now.asked.now) (Some at) found) }
    ensures in_range { IfOk result (λ found. ForSome found (HasPageInRange dir.now)) }
    ensures recorded { (records : List AnyRecord) → All (λ (p : AnyPair). p.val < length records) replay.now.map → IfOk result (λ found. IfSome found (IsReplyOf dir.now records)) }
{
    let client = turn.client;
    if at < client.seen {
        return Ok(None);
    }
    match turn.own {
        None => of_look(
            alloc,
            &replay.map,
            dir,
            client.last.as_ref(),
            &turn.asked.request,
            turn.hint,
        ),
        Some(own) if own == at && client.seen < at => {
            Ok(of_update(&turn.asked.request, replay.was))
        }
        Some(_) => Ok(None),
    }
}
