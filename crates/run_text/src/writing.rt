// Pieces are written in order, and the texts of the next ones are put together meanwhile.
ghost use Rattle.std.specs.Prelude.{◌≡◌, ◌<◌, ◌≤◌, take, drop, length, All, OnOk, IfOk, IsErrOf};
ghost use Rattle.outside_io.specs.Streams.{one_more, IsTaken, TakesStart};
ghost use Rattle.answer_text.specs.EntryTexts.{AreRight};
ghost use Rattle.run_text.specs.declared.stop.Stop.{Stop as Ended};
ghost use Rattle.run_text.specs.Pieces.{IsPieceOf, pieces_text};
ghost use Rattle.run_text.specs.Sheets.{Writes};

use crate::batches::{Batch, fill_all, write_beside};
use crate::entries::entry_texts;
use crate::pieces::{PIECE_BYTES, Piece, Pieces};
use crate::sheets::Sheet;
use crate::stop::Stop;
use answer_text::KnownTexts;
use bucket_terms::Record;
use key_names::{Directory, NoMemory};
use outside_io::Sink;
use std::alloc::Global;
use std::thread::Threads;
use std::{mem, thread};

impl<'a> Pieces<'a> {
    /// Writes the text of the pieces, one write a line, or one a piece if the sink has a buffer. As many pieces are put
    /// together at once as the machine runs threads, while the caller writes those before them, whose buffers are
    /// reused; a text of no more bytes than a piece has starts no thread.
    pub fn write<K: Sink, Rt: Threads + Sync>(
        &self,
        rt: &Rt,
        alloc: Global,
        sink: &mut K,
        dir: &Directory,
        records: &[Record],
    ) -> Result<(), Stop>
        requires in_range { All (IsPieceOf dir.now records.now) self.now }
        ensures taken { OnOk result (IsTaken (K.taken sink.old) (K.taken sink.new) (pieces_text dir.now records.now self.now)) }
        ensures start { (stop : Ended) → IsErrOf result stop → TakesStart (K.taken sink.old) (K.taken sink.new) (pieces_text dir.now records.now self.now) }
        ensures fault { IsErrOf result Stop.Fault → K.faults sink.new ≡ one_more (K.faults sink.old) }
        ensures quiet { ¬ (IsErrOf result Stop.Fault) → K.faults sink.new ≡ K.faults sink.old }
    {
        let pieces = self.pieces.as_slice();
        let threads = at_once(rt, pieces);
        let texts = entry_texts(rt, alloc, dir, records, pieces, threads)?;
        let known = KnownTexts {
            dir,
            records,
            texts: &texts,
        };
        write_pieces(rt, alloc, sink, &known, pieces, threads)
    }
}

fn write_pieces<K: Sink, Rt: Threads + Sync>(
    rt: &Rt,
    alloc: Global,
    sink: &mut K,
    known: &KnownTexts<'_>,
    pieces: &[Piece<'_>],
    most: usize,
) -> Result<(), Stop>
    requires some { 0 < most }
    requires fine { All (IsPieceOf known.now.dir.now known.now.records.now) pieces.now }
    requires right { AreRight known.now.dir.now known.now.records.now known.now.texts.now }
    ensures { Writes (pieces_text known.now.dir.now known.now.records.now pieces.now)
        (K.taken sink.old) (K.taken sink.new) (K.faults sink.old) (K.faults sink.new) result }
{
    let room = most_room(pieces);
    let mut filled = empty_sheets(alloc, most, room)?;
    // If one batch has all pieces, the others stay empty.
    let spare_room = if pieces.len() > most {
        room
    } else {
        Room::none()
    };
    let mut spare = empty_sheets(alloc, most, spare_room)?;
    fill_all(rt, known, batch_at(pieces, 0, most), &mut filled);
    let mut done = 0;
    while done < pieces.len() {
        let front = batch_at(pieces, done, most);
        let next = batch_at(pieces, done + front.len(), most);
        let batch = Batch {
            pieces: front,
            sheets: &filled,
        };
        write_beside(rt, sink, known, &batch, next, &mut spare)?;
        mem::swap(&mut filled, &mut spare);
        done += front.len();
    }
    Ok(())
}

// At most this many of the pieces from this one on.
fn batch_at<'a, 'b>(pieces: &'b [Piece<'a>], done: usize, most: usize) -> &'b [Piece<'a>]
    requires { done ≤ length pieces.now }
    ensures batch { result.now ≡ take most (drop done pieces.now) }
    ensures whole { result.now ≡ take (length result.now) (drop done pieces.now) }
{
    let (_, left) = pieces.split_at(done);
    let (batch, _) = left.split_at(left.len().min(most));
    batch
}

/// For how many lines and bytes a sheet has room.
#[derive(Clone, Copy, Debug)]
struct Room {
    lines: usize,
    bytes: usize,
}

impl Room {
    fn none() -> Room {
        Room { lines: 0, bytes: 0 }
    }
}

// This many sheets without a text, with this room. The caller makes the room, since the memory that the run has given
// back is the caller's, and a thread that makes it takes new memory.
fn empty_sheets(alloc: Global, count: usize, room: Room) -> Result<Vec<Sheet>, NoMemory>
    ensures { IfOk result (λ sheets. length sheets.items ≡ count) }
{
    let mut sheets = Vec::new(alloc);
    for _ in 0..count {
        sheets.push(Sheet::with_room(alloc, room.lines, room.bytes))?;
    }
    Ok(sheets)
}

// The most lines that a piece has, and about the most bytes: an eighth more, since the bytes are estimated.
fn most_room(pieces: &[Piece<'_>]) -> Room {
    let mut lines = 0;
    let mut bytes = 0;
    for piece in pieces {
        lines = piece.part.line_count().max(lines);
        bytes = piece.bytes.max(bytes);
    }
    let bytes = bytes.saturating_add(bytes / 8);
    Room { lines, bytes }
}

// How many pieces are put together at once.
fn at_once<Rt: Threads>(rt: &Rt, pieces: &[Piece<'_>]) -> usize
    ensures { 0 < result }
{
    let mut bytes: usize = 0;
    for piece in pieces {
        bytes = bytes.saturating_add(piece.bytes);
    }
    match thread::available_parallelism(rt) {
        Ok(threads) if bytes > PIECE_BYTES => threads.get().min(pieces.len()).max(1),
        _ => 1,
    }
}
