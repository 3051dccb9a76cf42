// The texts of entries that many pages show: each is made once, before the pieces.
ghost use Rattle.std.specs.Prelude.{All, IfOk};
ghost use Rattle.bucket_terms.specs.declared.reply.Placed.{Placed};
ghost use Rattle.answer_text.specs.EntryTexts.{AreRight};
ghost use Rattle.answer_text.specs.InRange.{IsPageOf, IsReplyOf};
ghost use Rattle.run_text.specs.Pieces.{IsPieceOf};
ghost use Rattle.run_text.specs.Texts.{IsPartRight, IsWantedOf};

use crate::cutting::shown_in;
use crate::pieces::{Part, Piece};
use answer_text::{EntryTexts, WantedTexts};
use bucket_terms::{Page, Placed, Record, Reply};
use fork_join::map_vec;
use key_names::{Directory, NoMemory};
use std::alloc::Global;
use std::thread::Threads;

// How often a record has to be shown on average for the texts of entries to be kept. A page keeps 8 bytes for a key,
// and a text has some 200: so the texts take at most some three times what the pages take.
const OFTEN: usize = 8;

// How often a record is met on average in the pages that are looked at. One that is shown less often than others may
// not be met: its text is then made for each page.
const MET: usize = 4;

// 2^32 divided by the golden ratio: no two of its multiples, of which 32 bits are kept, are close together.
const GOLDEN: u32 = 0x9E37_79B9;

/// The texts of the entries that the pages of these pieces show without escapes, if the pages show many more entries
/// than there are records; otherwise none. Each of this many threads makes a share of them.
pub(crate) fn entry_texts<Rt: Threads + Sync>(
    rt: &Rt,
    alloc: Global,
    dir: &Directory,
    records: &[Record],
    pieces: &[Piece<'_>],
    threads: usize,
) -> Result<EntryTexts, NoMemory>
    requires { All (IsPieceOf dir.now records.now) pieces.now }
    ensures { IfOk result (AreRight dir.now records.now) }
{
    let times = shown(pieces).checked_div(records.len()).unwrap_or(0);
    if times < OFTEN {
        return Ok(EntryTexts::none(alloc));
    }
    let wanted = wanted_texts(alloc, dir, records, pieces, times / MET)?;
    made(rt, alloc, &wanted, threads)
}

// The entries of one page of this many, and the first rank with which a record is met there.
fn wanted_texts<'a>(
    alloc: Global,
    dir: &'a Directory,
    records: &'a [Record],
    pieces: &[Piece<'_>],
    times: usize,
) -> Result<WantedTexts<'a>, NoMemory>
    requires { All (IsPieceOf dir.now records.now) pieces.now }
    ensures { IfOk result (IsWantedOf dir.now records.now) }
{
    let mut wanted = WantedTexts::none(alloc, dir, records)?;
    let mut pages = ChosenPages::one_of(times);
    for piece in pieces {
        if let Part::Replies(replies) = &piece.part {
            want_all(&mut wanted, replies, &mut pages);
        }
    }
    Ok(wanted)
}

/// The places from one up to another.
#[derive(Clone, Copy, Debug)]
struct Share {
    from: usize,
    to: usize,
}

// This many places in this many shares, one after another.
fn shares(alloc: Global, places: usize, threads: usize) -> Result<Vec<Share>, NoMemory> {
    let most = places.div_ceil(threads.max(1));
    let mut shares = Vec::new(alloc);
    let mut from: usize = 0;
    for _ in 0..threads {
        let to = places.min(from.saturating_add(most));
        shares.push(Share { from, to })?;
        from = to;
    }
    Ok(shares)
}

// The texts that are wanted, of which each thread makes a share.
fn made<Rt: Threads + Sync>(
    rt: &Rt,
    alloc: Global,
    wanted: &WantedTexts<'_>,
    threads: usize,
) -> Result<EntryTexts, NoMemory>
    ensures { IfOk result (AreRight wanted.now.dir wanted.now.records) }
{
    let parts = made_apart(rt, alloc, wanted, threads)?;
    let mut texts = EntryTexts::none(alloc);
    for part in parts {
        texts.append(part?)?;
    }
    Ok(texts)
}

// The texts of each share.
fn made_apart<Rt: Threads + Sync>(
    rt: &Rt,
    alloc: Global,
    wanted: &WantedTexts<'_>,
    threads: usize,
) -> Result<Vec<Result<EntryTexts, NoMemory>>, NoMemory>
    ensures { IfOk result (λ parts. All (IsPartRight wanted.now.dir wanted.now.records) parts.items) }
{
    let make = |share: Share| -> Result<EntryTexts, NoMemory>
        ensures { IsPartRight wanted.entry.now.dir wanted.entry.now.records result }
    { wanted.texts(alloc, share.from, share.to) };
    let shares = shares(alloc, wanted.len(), threads)?;
    Ok(map_vec(rt, shares, &make)?)
}

/// Which pages are looked at: one of this many, spread evenly, and in no short pattern.
#[derive(Debug, Drop)]
struct ChosenPages {
    most: u32,
    place: u32,
}

impl ChosenPages {
    fn one_of(count: usize) -> ChosenPages {
        let most = match u32::try_from(count) {
            Ok(count) => u32::MAX.checked_div(count).unwrap_or(u32::MAX),
            Err(_) => 0,
        };
        ChosenPages { most, place: 0 }
    }

    /// Whether the next page is looked at. The first one is.
    fn is_next(&mut self) -> bool {
        let place = self.place;
        self.place = place.wrapping_add(GOLDEN);
        place <= self.most
    }
}

// How many entries the pages show.
fn shown(pieces: &[Piece<'_>]) -> usize {
    let mut entries: usize = 0;
    for piece in pieces {
        entries = entries.saturating_add(piece.entries);
    }
    entries
}

// Marks the texts of the entries of these replies as wanted.
fn want_all(wanted: &mut WantedTexts<'_>, replies: &[Placed], pages: &mut ChosenPages)
    requires { All (λ (p : Placed). IsReplyOf wanted.old.dir wanted.old.records p.reply) replies.now }
    ensures { IsWantedOf wanted.old.dir wanted.old.records wanted.new }
{
    for placed in replies {
        if shown_in(&placed.reply) > 0 && pages.is_next() {
            want_reply(wanted, &placed.reply);
        }
    }
}

// Marks the texts of the entries of a page that shows them without escapes as wanted.
fn want_reply(wanted: &mut WantedTexts<'_>, reply: &Reply)
    requires { IsReplyOf wanted.old.dir wanted.old.records reply.now }
    ensures { IsWantedOf wanted.old.dir wanted.old.records wanted.new }
{
    match reply {
        Reply::Listed { query, page } if !query.get().url => want_page(wanted, page.get()),
        Reply::ListedV1 { query, page } if !query.get().url => want_page(wanted, page.get()),
        _ => (),
    }
}

// Marks the texts of the entries of this page as wanted.
fn want_page(wanted: &mut WantedTexts<'_>, page: &Page)
    requires { IsPageOf wanted.old.dir wanted.old.records page.now }
    ensures { IsWantedOf wanted.old.dir wanted.old.records wanted.new }
{
    for place in 0..page.entries.len() {
        wanted.want(&page.entries.at(place));
    }
}
