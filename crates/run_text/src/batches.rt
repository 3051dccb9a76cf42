// A batch of pieces: their texts are put together concurrently, and are written in order.
// rayon is not used: it cuts a list in two for each processor and keeps the whole text; its chains are for thousands
// of light items.
ghost use Rattle.std.specs.Prelude.{◌≡◌, ◌<◌, ◌≤◌, length, OnOk};
ghost use Rattle.std.specs.Thread.{IsSync};
ghost use Rattle.run_text.specs.Pieces.{pieces_text};
ghost use Rattle.run_text.specs.Sheets.{AreFilled, CanFill, CanFillAll, IsFilledAt, Writes};

use crate::pieces::Piece;
use crate::sheets::Sheet;
use crate::stop::Stop;
use answer_text::KnownTexts;
use fork_join::for_each_mut;
use outside_io::Sink;
use std::thread::{Threads, join_mut, yield_now};

/// Pieces, and the sheets of which the first have their texts.
#[derive(Clone, Copy)]
pub(crate) struct Batch<'a, 'b> {
    pub(crate) pieces: &'b [Piece<'a>],
    pub(crate) sheets: &'b [Sheet],
}

/// Writes the texts of a batch, while other threads put those of the next one on other sheets. If there is one sheet,
/// the caller does one after the other.
pub(crate) fn write_beside<K: Sink, Rt: Threads + Sync>(
    rt: &Rt,
    sink: &mut K,
    known: &KnownTexts<'_>,
    batch: &Batch<'_, '_>,
    next: &[Piece<'_>],
    spare: &mut Vec<Sheet>,
) -> Result<(), Stop>
    requires filled { AreFilled known.now.dir.now known.now.records.now batch.now.pieces.now batch.now.sheets.now }
    requires next { CanFillAll known.now.dir.now known.now.records.now known.now.texts.now next.now spare.old.items }
    ensures written { Writes (pieces_text known.now.dir.now known.now.records.now batch.now.pieces.now)
        (K.taken sink.old) (K.taken sink.new) (K.faults sink.old) (K.faults sink.new) result }
    ensures next { OnOk result (AreFilled known.now.dir.now known.now.records.now next.now spare.new.items) }
    ensures as_many { length spare.new.items ≡ length spare.old.items }
{
    if batch.sheets.len() < 2 || next.is_empty() {
        write_batch(sink, known, batch)?;
        fill_all(rt, known, next, spare);
        return Ok(());
    }
    let mut fill = ||
        requires { IsSync Rt.row × CanFillAll known.now.dir.now known.now.records.now known.now.texts.now next.now spare.now.items }
        ensures { AreFilled known.entry.now.dir.now known.entry.now.records.now next.entry.now spare.exit.now.items
            × (length spare.exit.now.items ≡ length spare.entry.now.items) }
    { fill_all(rt, known, next, spare) };
    let mut write = || -> Result<(), Stop>
        requires { AreFilled known.now.dir.now known.now.records.now batch.now.pieces.now batch.now.sheets.now }
        ensures { Writes (pieces_text known.entry.now.dir.now known.entry.now.records.now batch.entry.now.pieces.now)
            (K.taken sink.entry.now) (K.taken sink.exit.now) (K.faults sink.entry.now) (K.faults sink.exit.now) result }
    {
        // The thread that fills has begun on this processor. It gets the first turn, since it wakes the others.
        yield_now();
        write_batch(sink, known, batch)
    };
    let (_, written) = join_mut(rt, &mut fill, &mut write);
    written
}

// Writes the texts of a batch. The directory and the records determine these texts.
fn write_batch<K: Sink>(
    sink: &mut K,
    _known: &KnownTexts<'_>,
    batch: &Batch<'_, '_>,
) -> Result<(), Stop>
    requires { AreFilled _known.now.dir.now _known.now.records.now batch.now.pieces.now batch.now.sheets.now }
    ensures { Writes (pieces_text _known.now.dir.now _known.now.records.now batch.now.pieces.now)
        (K.taken sink.old) (K.taken sink.new) (K.faults sink.old) (K.faults sink.new) result }
{
    let sheets = batch.sheets;
    for place in 0..batch.pieces.len() {
        sheets[place].write(sink)?;
    }
    Ok(())
}

/// Puts the texts of the pieces on the first sheets, concurrently.
pub(crate) fn fill_all<Rt: Threads + Sync>(
    rt: &Rt,
    known: &KnownTexts<'_>,
    pieces: &[Piece<'_>],
    sheets: &mut Vec<Sheet>,
)
    requires { CanFillAll known.now.dir.now known.now.records.now known.now.texts.now pieces.now sheets.old.items }
    ensures filled { AreFilled known.now.dir.now known.now.records.now pieces.now sheets.new.items }
    ensures as_many { length sheets.new.items ≡ length sheets.old.items }
{
    let (used, _) = sheets.as_mut_slice().split_at_mut(pieces.len());
    fill_each(rt, known, pieces, used);
}

// Puts the text of each piece on the sheet at its place, each on a thread of its own, if one can be started.
fn fill_each<Rt: Threads + Sync>(
    rt: &Rt,
    known: &KnownTexts<'_>,
    pieces: &[Piece<'_>],
    sheets: &mut [Sheet],
)
    requires can { CanFillAll known.now.dir.now known.now.records.now known.now.texts.now pieces.now sheets.old }
    requires one_each { length sheets.old ≡ length pieces.now }
    ensures filled { AreFilled known.now.dir.now known.now.records.now pieces.now sheets.new }
    ensures as_many { length sheets.new ≡ length sheets.old }
{
    let fill = |place: usize, sheet: &mut Sheet|
        requires { CanFill known.now.dir.now known.now.records.now known.now.texts.now pieces.now place }
        ensures { IsFilledAt known.entry.now.dir.now known.entry.now.records.now pieces.entry.now place sheet.exit.now }
    { sheet.fill(known, &pieces[place]) };
    for_each_mut(rt, sheets, &fill);
}
