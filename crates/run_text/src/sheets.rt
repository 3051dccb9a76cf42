// The sheets on which the texts of pieces are put together: each serves for one piece after another.
ghost use Rattle.std.specs.Prelude.{◌≡◌, ◌+◌, ◌<◌, ◌^◌, ◌++◌, ◌⊎◌, length, All, OnOk, IsErrOf, Ok, string_bytes};
ghost use Rattle.key_map.specs.declared.update.Update.{Update};
ghost use Rattle.bucket_terms.specs.declared.reply.Placed.{Placed};
ghost use Rattle.answer_text.specs.Lines.{journal_lines};
ghost use Rattle.answer_text.specs.Shown.{reply_lines};
ghost use Rattle.answer_text.specs.InRange.{IsReplyOf};
ghost use Rattle.answer_text.specs.EntryTexts.{AreRight};
ghost use Rattle.outside_io.specs.Streams.{one_more, IsTaken, TakesStart};
ghost use Rattle.run_text.specs.declared.stop.Stop.{Stop as Ended};
ghost use Rattle.run_text.specs.Pieces.{IsPieceOf, IsPartOf, part_text};
ghost use Rattle.run_text.specs.Sheets.{IsFilled};

use crate::lines::write_lines;
use crate::pieces::{Part, Piece};
use crate::stop::Stop;
use answer_text::{KnownTexts, push_journal_line, push_known_line};
use bucket_terms::Placed;
use key_map::Update;
use key_names::{Directory, NoMemory};
use outside_io::Sink;
use std::alloc::Global;
use std::mem;

// The names of this many updates are looked at before the line of the first of them is made. Each may lie anywhere in
// memory, and this way the waits for all of them overlap.
const AHEAD: usize = 16;

/// The text of a piece, in buffers that serve for the next one too.
#[derive(Drop)]
pub(crate) struct Sheet {
    text: String,
    // Where each of its lines ends.
    ends: Vec<usize>,
    // Whether memory sufficed for the text.
    filled: Result<(), NoMemory>,
}

impl Sheet {
    // A sheet without a text and without room. It takes no memory.
    fn empty(alloc: Global) -> Sheet {
        Sheet {
            text: String::new(alloc),
            ends: Vec::new(alloc),
            filled: Ok(()),
        }
    }

    /// A sheet without a text. It has room for one of this many lines and bytes, if available. The caller makes the
    /// room: what the run has given back is the caller's memory, while a thread takes new memory.
    pub(crate) fn with_room(alloc: Global, lines: usize, bytes: usize) -> Sheet {
        let mut sheet = Sheet::empty(alloc);
        // Without the room the buffers grow as they are filled.
        let _ = sheet.text.reserve(bytes);
        let _ = sheet.ends.reserve(lines);
        sheet
    }

    /// Replaces what the sheet had by the text of the piece. The sheet is filled on the stack of its thread: those of
    /// other threads are next to it in memory, and if two processors write into one cache line by turns, each waits
    /// for the other at every write.
    pub(crate) fn fill(&mut self, known: &KnownTexts<'_>, piece: &Piece<'_>)
        requires piece { IsPieceOf known.now.dir.now known.now.records.now piece.now }
        requires right { AreRight known.now.dir.now known.now.records.now known.now.texts.now }
        ensures { IsFilled known.now.dir.now known.now.records.now piece.now self.new }
    {
        let empty = Sheet::empty(*self.text.allocator());
        let mut sheet = mem::replace(self, empty);
        sheet.text.clear();
        sheet.ends.clear();
        sheet.filled = sheet.push_piece(known, piece);
        *self = sheet;
    }

    fn push_piece(&mut self, known: &KnownTexts<'_>, piece: &Piece<'_>) -> Result<(), NoMemory>
        requires piece { IsPieceOf known.now.dir.now known.now.records.now piece.now }
        requires right { AreRight known.now.dir.now known.now.records.now known.now.texts.now }
        ensures { OnOk result (string_bytes self.new.text ≡ string_bytes self.old.text ++ part_text known.now.dir.now known.now.records.now piece.now.part) }
    {
        self.text.reserve(piece.bytes)?;
        match &piece.part {
            Part::Replies(replies) => self.push_replies(known, replies),
            Part::Updates { before, updates } => self.push_updates(known.dir, *before, updates),
        }
    }

    fn push_replies(&mut self, known: &KnownTexts<'_>, replies: &[Placed]) -> Result<(), NoMemory>
        requires fine { All (λ (p : Placed). IsReplyOf known.now.dir.now known.now.records.now p.reply) replies.now }
        requires right { AreRight known.now.dir.now known.now.records.now known.now.texts.now }
        ensures { OnOk result (string_bytes self.new.text ≡ string_bytes self.old.text ++ reply_lines known.now.dir.now known.now.records.now replies.now) }
    {
        for placed in replies {
            push_known_line(&mut self.text, known, placed)?;
            self.ends.push(self.text.len())?;
        }
        Ok(())
    }

    // Updates with this many before them. Places are counted from 1.
    fn push_updates(
        &mut self,
        dir: &Directory,
        before: u64,
        updates: &[Update],
    ) -> Result<(), NoMemory>
        requires keys { All (λ (u : Update). u.key < length dir.now) updates.now }
        requires places { before + length updates.now < 2 ^ 64 }
        ensures { OnOk result (string_bytes self.new.text ≡ string_bytes self.old.text ++ journal_lines dir.now (before + 1) updates.now) }
    {
        let mut place = before;
        for update in updates {
            self.look_ahead(dir, updates, (place - before) as usize)?;
            place += 1;
            push_journal_line(&mut self.text, dir, place, update)?;
            self.ends.push(self.text.len())?;
        }
        Ok(())
    }

    // At every sixteenth place looks at the names of the updates from there on, and makes room for them.
    fn look_ahead(
        &mut self,
        dir: &Directory,
        updates: &[Update],
        place: usize,
    ) -> Result<(), NoMemory>
        ensures { OnOk result (string_bytes self.new.text ≡ string_bytes self.old.text) }
    {
        if place % AHEAD == 0 {
            self.text.reserve(names_len(dir, updates, place))?;
        }
        Ok(())
    }

    /// Writes the text that is on the sheet, one write a line, or at once if the sink has a buffer.
    pub(crate) fn write<K: Sink>(&self, sink: &mut K) -> Result<(), Stop>
        ensures taken { OnOk result (IsTaken (K.taken sink.old) (K.taken sink.new) (string_bytes self.now.text)) }
        ensures filled { OnOk result (self.now.filled ≡ Ok tt) }
        ensures start { (stop : Ended) → IsErrOf result stop → (K.taken sink.new ≡ K.taken sink.old) ⊎ ((self.now.filled ≡ Ok tt) × TakesStart (K.taken sink.old) (K.taken sink.new) (string_bytes self.now.text)) }
        ensures fault { IsErrOf result Stop.Fault → K.faults sink.new ≡ one_more (K.faults sink.old) }
        ensures quiet { ¬ (IsErrOf result Stop.Fault) → K.faults sink.new ≡ K.faults sink.old }
    {
        match self.filled {
            Ok(()) => Ok(write_lines(sink, self.text.as_bytes(), self.ends.as_slice())?),
            Err(_) => Err(Stop::NoMemory),
        }
    }
}

// How many bytes the names of the updates from this place on have.
fn names_len(dir: &Directory, updates: &[Update], first: usize) -> usize {
    let mut bytes: usize = 0;
    for ahead in 0..AHEAD {
        match updates.get(first.saturating_add(ahead)) {
            Some(update) if update.key < dir.len() => {
                bytes = bytes.saturating_add(dir.name(update.key).bytes().len());
            },
            _ => (),
        }
    }
    bytes
}
