// PUT, PUTNEW, DELETE and HEAD, each answered by calls of the pass. Before an update the pass gathers entries if it
// lacks some.
ghost use Rattle.std.specs.Prelude.{◌≡◌, ◌<◌, None, Some, Option, Contains};
ghost use Rattle.key_names.specs.Names.{IsRank};
ghost use Rattle.bucket_terms.specs.declared.request.Request.TheVariants.{Put, PutNew, Delete, Head};
ghost use Rattle.bucket_terms.specs.declared.reply.Reply.{Reply};
ghost use Rattle.bucket_terms.specs.Gathering.{Gathered};
ghost use Rattle.bucket_terms.specs.PassView.{KnowsOwn};
ghost use Rattle.bucket_terms.specs.RunParts.{head_by};
ghost use Rattle.client_run.specs.ClientRun.{answered, Answers, IsLaterLine};
ghost use Rattle.client_run.specs.Listing.{HasPageInRange};

use crate::hints::Hint;
use crate::turns::Turn;
use bucket_terms::{KeyPass, Placed, Reply};
use key_map::{New, PassError};
use key_names::{Directory, Text};
use std::sync::Wait;

// Whose update it is, and of which key.
#[derive(Clone, Copy)]
struct Target {
    client: u32,
    key: u64,
}

// What comes before each update: the rank of its name, and the entries that the pass lacks.
fn prepare<P: KeyPass, Rt: Wait>(rt: &Rt, pass: &mut P, turn: &Turn<'_, '_>, name: &Text) -> Target
    requires closed { (P.view pass.old).opened ≡ None }
    requires known { Contains turn.now.known.now name.now }
    ensures number { result.client ≡ (P.view pass.old).number }
    ensures mine { KnowsOwn (P.view pass.old) }
    ensures rank { IsRank turn.now.known.now name.now result.key }
    ensures gathered { Gathered (P.view pass.old) (P.view pass.new) }
    ensures home { P.home pass.new ≡ P.home pass.old }
{
    let client = pass.client();
    let key = rank_of(turn.known.directory(), name, turn.hint);
    pass.gather(rt);
    Target { client, key }
}

// Answers a PUT of the record at place `val`.
pub(crate) fn put<P: KeyPass, Rt: Wait>(
    rt: &Rt,
    pass: &mut P,
    turn: &Turn<'_, '_>,
    name: &Text,
    val: u64,
) -> Placed
    requires closed { (P.view pass.old).opened ≡ None }
    requires left { 0 < (P.view pass.old).left }
    requires known { Contains turn.now.known.now name.now }
    ensures answers { (last : Option Reply) → Answers turn.now.known.now (P.view pass.old) (P.view pass.new) last (answered turn.now.asked.now.line (Put name.now val) result) }
    ensures in_range { HasPageInRange turn.now.known.now result.reply }
    ensures home { P.home pass.new ≡ P.home pass.old }
{
    let line = turn.asked.line;
    let target = prepare(rt, pass, turn, name);
    match pass.put(rt, line, target.key, val) {
        Ok(done) => answer_at(target.client, line, done.at, Reply::Put { was: done.was }),
        Err(error) => not_made(target.client, line, error),
    }
}

// Answers a PUTNEW of the record at place `val`.
pub(crate) fn put_new<P: KeyPass, Rt: Wait>(
    rt: &Rt,
    pass: &mut P,
    turn: &Turn<'_, '_>,
    name: &Text,
    val: u64,
) -> Placed
    requires closed { (P.view pass.old).opened ≡ None }
    requires left { 0 < (P.view pass.old).left }
    requires later { IsLaterLine (P.view pass.old) turn.now.asked.now.line }
    requires known { Contains turn.now.known.now name.now }
    ensures answers { (last : Option Reply) → Answers turn.now.known.now (P.view pass.old) (P.view pass.new) last (answered turn.now.asked.now.line (PutNew name.now val) result) }
    ensures in_range { HasPageInRange turn.now.known.now result.reply }
    ensures home { P.home pass.new ≡ P.home pass.old }
{
    let line = turn.asked.line;
    let target = prepare(rt, pass, turn, name);
    match pass.put_new(rt, line, target.key, val) {
        Ok(New::Made { at }) => answer_at(target.client, line, at, Reply::Put { was: false }),
        Ok(New::Kept { at }) => answer_at(target.client, line, at, Reply::Exists),
        Err(error) => not_made(target.client, line, error),
    }
}

// Answers a DELETE.
pub(crate) fn delete<P: KeyPass, Rt: Wait>(
    rt: &Rt,
    pass: &mut P,
    turn: &Turn<'_, '_>,
    name: &Text,
) -> Placed
    requires closed { (P.view pass.old).opened ≡ None }
    requires left { 0 < (P.view pass.old).left }
    requires later { IsLaterLine (P.view pass.old) turn.now.asked.now.line }
    requires known { Contains turn.now.known.now name.now }
    ensures answers { (last : Option Reply) → Answers turn.now.known.now (P.view pass.old) (P.view pass.new) last (answered turn.now.asked.now.line (Delete name.now) result) }
    ensures in_range { HasPageInRange turn.now.known.now result.reply }
    ensures home { P.home pass.new ≡ P.home pass.old }
{
    let line = turn.asked.line;
    let target = prepare(rt, pass, turn, name);
    match pass.remove(rt, line, target.key) {
        Ok(done) => answer_at(target.client, line, done.at, Reply::Deleted),
        Err(error) => not_made(target.client, line, error),
    }
}

// The answer of an update that the pass has refused: calls are left, so it lacks slots.
fn not_made(client: u32, line: u32, error: PassError) -> Placed
    requires calls { ¬ (error ≡ PassError.Spent) }
    ensures answer { result ≡ record { client = client; line = line; at = None; reply = Reply.NoSlot } }
    ensures cause { error ≡ PassError.NoSlot }
{
    match error {
        PassError::NoSlot => refused(client, line, Reply::NoSlot),
        PassError::Spent => unreachable!(),
    }
}

// Answers a HEAD by one look-up in one snapshot.
pub(crate) fn head<P: KeyPass, Rt: Wait>(
    rt: &Rt,
    pass: &mut P,
    turn: &Turn<'_, '_>,
    name: &Text,
) -> Placed
    requires closed { (P.view pass.old).opened ≡ None }
    requires known { Contains turn.now.known.now name.now }
    ensures answers { (last : Option Reply) → Answers turn.now.known.now (P.view pass.old) (P.view pass.new) last (answered turn.now.asked.now.line (Head name.now) result) }
    ensures in_range { HasPageInRange turn.now.known.now result.reply }
    ensures home { P.home pass.new ≡ P.home pass.old }
{
    let client = pass.client();
    let key = rank_of(turn.known.directory(), name, turn.hint);
    let at = pass.begin();
    let found = pass.value_of(rt, key);
    pass.end();
    answer_at(client, turn.asked.line, at, head_reply(found))
}

// The answer of a HEAD that found this value.
fn head_reply(found: Option<u64>) -> Reply
    ensures { result ≡ head_by found }
{
    match found {
        Some(val) => Reply::Found { val },
        None => Reply::Missing,
    }
}

// The rank of a name that the directory has. It is searched for only if the hint is not the rank.
fn rank_of(dir: &Directory, name: &Text, hint: Hint) -> u64
    requires { Contains dir.now name.now }
    ensures { IsRank dir.now name.now result }
{
    if let Some(rank) = hint.rank_of(dir, name) {
        return rank;
    }
    match dir.rank(name.bytes()) {
        Some(rank) => rank,
        None => unreachable!(),
    }
}

// A request that was answered at this place of the history.
pub(crate) fn answer_at(client: u32, line: u32, at: u64, reply: Reply) -> Placed
    ensures { result ≡ record { client = client; line = line; at = Some at; reply = reply } }
{
    Placed {
        client,
        line,
        at: Some(at),
        reply,
    }
}

// A refused request has no place.
pub(crate) fn refused(client: u32, line: u32, reply: Reply) -> Placed
    ensures { result ≡ record { client = client; line = line; at = None; reply = reply } }
{
    Placed {
        client,
        line,
        at: None,
        reply,
    }
}
