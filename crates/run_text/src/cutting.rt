// Where the text is cut: pieces of nearly the same length.
ghost use Rattle.std.specs.Prelude.{◌≡◌, ◌<◌, ◌≤◌, ◌+◌, length, OnOk};
ghost use Rattle.run_text.specs.Pieces.{AddsReplies, AddsJournal};

use crate::pieces::{PIECE_BYTES, Part, Piece, Pieces};
use bucket_terms::{Placed, Reply};
use key_map::Update;
use key_names::{Directory, NoMemory};

// The bytes of a line without names: of a reply about one key, of a listing without its entries, of an entry, of an
// update. They are rather too many than too few, with tags of 32 bytes: a buffer that is too short is copied as it
// grows, and the unused rest of one that is too long is never touched.
const REPLY_BYTES: usize = 160;

const LISTING_BYTES: usize = 400;

const ENTRY_BYTES: usize = 128;

const UPDATE_BYTES: usize = 80;

/// The average number of bytes of a name of the directory.
pub(crate) fn name_bytes(dir: &Directory) -> usize {
    let mut bytes: usize = 0;
    for rank in 0..dir.len() {
        bytes = bytes.saturating_add(dir.name(rank).bytes().len());
    }
    bytes.checked_div(dir.len() as usize).unwrap_or(0)
}

impl<'a> Pieces<'a> {
    /// Adds the replies of a client.
    pub fn add_replies(&mut self, replies: &'a [Placed]) -> Result<(), NoMemory>
        ensures { OnOk result (AddsReplies self.old replies.now self.new) }
    {
        let mut left = replies;
        while !left.is_empty() {
            let first = first_piece(left, self.name_bytes);
            let (front, rest) = left.split_at(first.count);
            self.pieces.push(Piece {
                part: Part::Replies(front),
                bytes: first.bytes,
                entries: first.entries,
            })?;
            left = rest;
        }
        Ok(())
    }

    /// Adds the journal.
    pub fn add_journal(&mut self, updates: &'a [Update]) -> Result<(), NoMemory>
        ensures { OnOk result (AddsJournal self.old updates.now self.new) }
    {
        let line_bytes = UPDATE_BYTES.saturating_add(self.name_bytes);
        let count = journal_count(line_bytes);
        let mut before: u64 = 0;
        let mut left = updates;
        while !left.is_empty() {
            let (front, rest) = left.split_at(count.min(left.len()));
            self.pieces.push(Piece {
                part: Part::Updates {
                    before,
                    updates: front,
                },
                bytes: front.len().saturating_mul(line_bytes),
                entries: 0,
            })?;
            before += front.len() as u64;
            left = rest;
        }
        Ok(())
    }
}

/// The first replies that make a piece: how many there are, the bytes of their lines, and the entries of their pages.
#[derive(Clone, Copy, Debug)]
struct First {
    count: usize,
    bytes: usize,
    entries: usize,
}

// The first replies that make a piece, by the estimate of their bytes: at least one, however long its line is.
fn first_piece(replies: &[Placed], name_bytes: usize) -> First
    requires { 0 < length replies.now }
    ensures some { 0 < result.count }
    ensures most { result.count ≤ length replies.now }
{
    let mut first = First {
        count: 0,
        bytes: 0,
        entries: 0,
    };
    for placed in replies {
        first.count += 1;
        first.add(&placed.reply, name_bytes);
        if first.bytes >= PIECE_BYTES {
            return first;
        }
    }
    first
}

impl First {
    // Adds the bytes of a reply's line, and its entries.
    fn add(&mut self, reply: &Reply, name_bytes: usize)
        ensures { self.new.count ≡ self.old.count }
    {
        let entries = shown_in(reply);
        let bytes = match reply {
            Reply::Listed { .. } | Reply::ListedV1 { .. } => entries
                .saturating_mul(ENTRY_BYTES.saturating_add(name_bytes))
                .saturating_add(LISTING_BYTES),
            _ => REPLY_BYTES,
        };
        self.bytes = self.bytes.saturating_add(bytes);
        self.entries = self.entries.saturating_add(entries);
    }
}

/// How many entries the page of a listing shows.
pub(crate) fn shown_in(reply: &Reply) -> usize {
    match reply {
        Reply::Listed { page, .. } | Reply::ListedV1 { page, .. } => page.get().entries.len(),
        _ => 0,
    }
}

// How many lines of the journal make a piece.
fn journal_count(line_bytes: usize) -> usize
    ensures { 0 < result }
{
    PIECE_BYTES.checked_div(line_bytes).unwrap_or(1).max(1)
}
