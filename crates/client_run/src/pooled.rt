// A client's requests, one after another, with trades of node slots around each update.
ghost use Rattle.std.specs.Prelude.{◌≡◌, ◌≤◌, ◌<◌, [], ◌∷◌, None, All, IfOk, OnErr};
ghost use Rattle.std.specs.Option.{ForSome, option_copied};
ghost use Rattle.bucket_terms.specs.LegalRun.{RequestLine};
ghost use Rattle.bucket_terms.specs.PassView.{KnowsOwn};
ghost use Rattle.bucket_terms.specs.RunParts.{updates_in};
ghost use Rattle.request_lines.specs.Session.{request_line, request_lines};
ghost use Rattle.request_lines.specs.SessionLaws.{IsAskable, Rise};
ghost use Rattle.slot_depot.specs.Depots.{IsSameSeat, IsSeatOf};
ghost use Rattle.client_run.specs.Listing.{HasPageInRange};
ghost use Rattle.client_run.specs.ClientRun.{IsLaterLine, Stopped};
ghost use Rattle.client_run.specs.Pooling.{AnswersPooled, HasGrown, RanPooled};

use crate::Gate;
use crate::hints::Hints;
use crate::pool::{hand_over, top_up};
use crate::run::{answer, known_prefixes, later_listing, reply_at};
use crate::turns::Turn;
use bucket_terms::{Placed, PoolPass};
use key_names::{Directory, NoMemory};
use request_lines::{ClientPart, is_update};
use slot_depot::{Depot, DepotSeat};
use std::alloc::Global;
use std::sync::Wait;

/// Answers the client's requests as `run_client` does, and trades node slots around each PUT, PUTNEW and DELETE: before
/// it a pass that owns none takes one out of the depot, and after it one that owns more than `own` gives away what is
/// free. The gate is notified before the first trade and after the second. After `NoMemory` updates may have been made,
/// and slots traded.
pub fn run_pooled<P: PoolPass, G: Gate, Rt: Wait>(
    rt: &Rt,
    alloc: Global,
    pass: &mut P,
    part: &ClientPart,
    dir: &Directory,
    gate: &G,
    depot: &Depot<P::Parcel>,
    seat: &mut DepotSeat<P::Parcel>,
    own: u32,
) -> Result<Vec<Placed>, NoMemory>
    requires closed { (P.view pass.old).opened ≡ None }
    requires askable { All (IsAskable dir.now) (request_lines part.now) }
    requires calls { updates_in (request_lines part.now) ≤ (P.view pass.old).left }
    requires rising { Rise (request_lines part.now) }
    requires later { All (λ (l : RequestLine). IsLaterLine (P.view pass.old) l.line) (request_lines part.now) }
    requires seat { IsSeatOf depot.now seat.old }
    requires of { seat.old.book.terms.home ≡ P.home pass.old }
    ensures ran { IfOk result (λ replies. RanPooled dir.now own (request_lines part.now) (P.view pass.old) (P.view pass.new) (P.free_nodes pass.new) seat.old.book seat.new.book replies.items) }
    ensures stopped { OnErr result (Stopped (P.view pass.old) (P.view pass.new)) }
    ensures grown { HasGrown seat.old.book seat.new.book }
    ensures seat { IsSameSeat seat.old seat.new }
    ensures home { P.home pass.new ≡ P.home pass.old }
{
    let client = pass.client();
    let known = known_prefixes(alloc, dir, part)?;
    let mut replies: Vec<Placed> = Vec::new(alloc);
    let mut hints = Hints::none();
    let mut last = None;
    for asked in part.requests.as_slice() {
        let place = replies.len();
        let hint = hints.at(dir, &part.requests, place);
        let last_reply = reply_at(&replies, last);
        let turn = Turn {
            known: &known,
            asked,
            hint,
            last: last_reply,
        };
        gate.before(client, asked.line);
        let placed = answer_pooled(rt, alloc, pass, &turn, depot, seat, own)?;
        gate.after(client, asked.line);
        last = later_listing(last, &asked.request, place);
        replies.push(placed)?;
    }
    Ok(replies)
}

// Answers one request, with trades around an update.
fn answer_pooled<P: PoolPass, Rt: Wait>(
    rt: &Rt,
    alloc: Global,
    pass: &mut P,
    turn: &Turn<'_, '_>,
    depot: &Depot<P::Parcel>,
    seat: &mut DepotSeat<P::Parcel>,
    own: u32,
) -> Result<Placed, NoMemory>
    requires closed { (P.view pass.old).opened ≡ None }
    requires askable { IsAskable turn.now.known.now (request_line turn.now.asked.now) }
    requires calls { updates_in (request_line turn.now.asked.now ∷ []) ≤ (P.view pass.old).left }
    requires later { IsLaterLine (P.view pass.old) turn.now.asked.now.line }
    requires knows { KnowsOwn (P.view pass.old) }
    requires in_range { ForSome (option_copied turn.now.last) (HasPageInRange turn.now.known.now) }
    requires seat { IsSeatOf depot.now seat.old }
    requires of { seat.old.book.terms.home ≡ P.home pass.old }
    ensures answers { IfOk result (λ placed. AnswersPooled turn.now.known.now own (P.view pass.old) (P.view pass.new) (P.free_nodes pass.new) (option_copied turn.now.last) (record { asked = request_line turn.now.asked.now; placed = placed }) seat.old.book seat.new.book) }
    ensures in_range { IfOk result (λ placed. HasPageInRange turn.now.known.now placed.reply) }
    ensures stopped { OnErr result (Stopped (P.view pass.old) (P.view pass.new)) }
    ensures grown { HasGrown seat.old.book seat.new.book }
    ensures seat { IsSameSeat seat.old seat.new }
    ensures home { P.home pass.new ≡ P.home pass.old }
{
    if !is_update(&turn.asked.request) {
        return answer(rt, alloc, pass, turn);
    }
    top_up(rt, pass, depot, seat);
    let placed = answer(rt, alloc, pass, turn)?;
    hand_over(rt, pass, depot, seat, own);
    Ok(placed)
}
