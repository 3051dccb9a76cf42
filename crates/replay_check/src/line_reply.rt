// What is found of one reply line.
ghost use Rattle.std.specs.Prelude.{◌≡◌, ◌<◌, ◌^◌, List, length, true, false, None, IsSome, Contains, All, IfSome, IfOk};
ghost use Rattle.std.specs.Option.{ForSome};
ghost use Rattle.key_map.specs.declared.pair.Pair.{Pair as AnyPair};
ghost use Rattle.key_map.specs.declared.update.Update.{Update as AnyUpdate};
ghost use Rattle.bucket_terms.specs.LegalRun.{Answered};
ghost use Rattle.answer_text.specs.InRange.{IsReplyOf};
ghost use Rattle.answer_text.specs.Lines.{line_of, reply_data};
ghost use Rattle.request_lines.specs.SessionLaws.{requested_name};
ghost use Rattle.request_lines.specs.Session.{request_line};
ghost use Rattle.client_run.specs.Listing.{HasPageInRange};
ghost use Rattle.text_laws.specs.WrongLine.{Checked, setting};
ghost use Rattle.replay_check.specs.Turns.{KnowsTurn};
ghost use Rattle.replay_check.specs.Looking.{IsLookedAt, IsDue};

use crate::numbers::place_in;
use crate::replay::Replay;
use crate::turns::{Turn, reply_at};
use answer_text::push_reply_line;
use bucket_terms::{Placed, Record};
use key_names::{Directory, NoMemory};
use std::alloc::Global;

/// The reply of the line of a request. None if the line is wrong.
pub(crate) fn line_reply(
    alloc: Global,
    dir: &Directory,
    records: &[Record],
    replay: &Replay,
    turn: &Turn<'_>,
    text: &[u8],
) -> Result<Option<Placed>, NoMemory>
    requires known { IfSome (requested_name turn.now.asked.now.request) (Contains dir.now) }
    requires last_in_range { ForSome turn.now.client.now.last (HasPageInRange dir.now) }
    requires recorded { All (λ (p : AnyPair). p.val < length records.now) replay.now.map }
    ensures looked { IfOk result (λ found. (c : Checked) (updates : List AnyUpdate) (earlier : List Answered) → c.dir ≡ dir.now → c.records ≡ records.now
        → turn.now.client.now.due ≡ replay.now.at → IsDue c updates turn.now.number earlier (request_line turn.now.asked.now) text.now turn.now.client.now → length updates < 2 ^ 64
        → KnowsTurn (setting c updates turn.now.number) earlier (request_line turn.now.asked.now) replay.now turn.now.own turn.now.client.now
        → IsLookedAt c updates turn.now.number earlier (request_line turn.now.asked.now) text.now found) }
    ensures in_range { IfOk result (λ found. ForSome found (λ placed. HasPageInRange dir.now placed.reply)) }
{
    let at = place_in(text);
    if is_elsewhere(at, replay.at as u64) {
        return Ok(None);
    }
    match reply_at(alloc, dir, replay, turn, at)? {
        Some(reply) => {
            let placed = Placed {
                client: turn.number,
                line: turn.asked.line,
                at,
                reply,
            };
            told(alloc, dir, records, placed, text)
        }
        None => Ok(None),
    }
}

// Whether a line shows another place.
fn is_elsewhere(at: Option<u64>, place: u64) -> bool
    ensures here { result ≡ false → IfSome at (λ n. place ≡ n) }
    ensures elsewhere { result ≡ true → IsSome at × IfSome at (λ n. ¬ (place ≡ n)) }
{
    match at {
        Some(at) => at != place,
        None => false,
    }
}

// The reply, if the text is its line.
fn told(
    alloc: Global,
    dir: &Directory,
    records: &[Record],
    placed: Placed,
    text: &[u8],
) -> Result<Option<Placed>, NoMemory>
    requires { IsReplyOf dir.now records.now placed.reply }
    ensures some { IfOk result (λ found. IfSome found (λ same. (same ≡ placed) × (text.now ≡ line_of (reply_data dir.now records.now placed)))) }
    ensures none { IfOk result (λ found. found ≡ None → ¬ (text.now ≡ line_of (reply_data dir.now records.now placed))) }
{
    let mut line = String::with_capacity(alloc, text.len())?;
    push_reply_line(&mut line, dir, records, &placed)?;
    if line.as_bytes() == text {
        Ok(Some(placed))
    } else {
        Ok(None)
    }
}
