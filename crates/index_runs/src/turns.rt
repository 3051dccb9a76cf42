// A pass at work over the table itself: it enters and leaves sections, fills words of free slots, looks at the section
// words of others, and reports and hears notes.
ghost use Rattle.std.specs.Prelude.{◌≡◌};
ghost use Rattle.table_steps.specs.Notes.{IsNoteOf};
ghost use Rattle.table_steps.specs.Passes.{AtRest, IsPassOf, IsSamePass};
ghost use Rattle.index_runs.specs.Sections.{IsBack};

use crate::gate::Gate;
use index_words::{Part, Word};
use table_steps::{Note, PassKey, SharedTable, TablePass};

/// What a pass has found.
#[derive(Clone, Copy, Drop)]
pub(crate) struct Found {
    /// How often it has looked at another one's section word, and how often that had fallen since the last look.
    pub(crate) looks: u64,
    pub(crate) falls: u64,
    /// How often it has met the other three at work.
    pub(crate) meetings: u32,
    /// What the last look at each pass has found, and the first one.
    pub(crate) last: [u64; 5],
    pub(crate) first: [u64; 5],
}

impl Found {
    pub(crate) fn new() -> Found {
        Found {
            looks: 0,
            falls: 0,
            meetings: 0,
            last: [0; 5],
            first: [0; 5],
        }
    }

    /// Another pass's section word was found to be this.
    fn note(&mut self, other: u32, word: u64) {
        self.looks = self.looks.wrapping_add(1);
        let place = other as usize;
        if place >= 5 {
            return;
        }
        if word < self.last[place] {
            self.falls = self.falls.wrapping_add(1);
        }
        if self.first[place] == 0 {
            self.first[place] = word;
        }
        self.last[place] = word;
    }
}

/// A pass that was laid down, and what it has found.
#[derive(Drop)]
pub(crate) struct Seat {
    pub(crate) key: PassKey,
    pub(crate) found: Found,
}

/// How long the four work between two meetings, and the gate at which they meet.
#[derive(Drop)]
pub(crate) struct Work {
    pub(crate) turns: u32,
    pub(crate) gate: Gate,
}

/// Fills a word of a free slot.
fn fill(pass: &mut TablePass<'_>, val: u64)
    requires rest { AtRest pass.old.view }
    ensures same { IsSamePass pass.old pass.new }
    ensures rest { AtRest pass.new.view }
{
    pass.facts();
    if let Some(entry) = pass.free_entry(0) {
        pass.fill_word(Word::Entry(Part::Child, entry), val);
    }
}

/// Looks at another pass's section word, if slots wait to become free.
fn look(pass: &mut TablePass<'_>, other: u32, found: &mut Found)
    requires rest { AtRest pass.old.view }
    ensures same { IsSamePass pass.old pass.new }
    ensures rest { AtRest pass.new.view }
{
    pass.facts();
    if pass.is_own(other) || other >= pass.passes() || pass.is_settled() {
        return;
    }
    let word = pass.look_sec(other);
    found.note(other, word);
}

/// Enters and leaves a section, fills a word and looks at another pass, so often.
fn take_turns(pass: &mut TablePass<'_>, turns: u32, found: &mut Found)
    requires rest { AtRest pass.old.view }
    ensures same { IsSamePass pass.old pass.new }
    ensures rest { AtRest pass.new.view }
{
    'turns: for turn in 0..turns {
        pass.enter();
        pass.leave();
        fill(pass, u64::from(turn));
        look(pass, turn % 5, found);
    }
}

/// Meets the other three, and takes turns.
fn work_on(table: &SharedTable, work: &Work, meeting: u64, seat: Seat) -> Seat
    requires of { IsPassOf table.now seat.key }
    ensures back { IsBack table.now seat.key result.key }
{
    let Seat { key, mut found } = seat;
    work.gate.raise();
    if work.gate.wait_for(meeting.saturating_mul(4)) {
        found.meetings = found.meetings.wrapping_add(1);
    }
    let mut pass = table.attach(key);
    take_turns(&mut pass, work.turns, &mut found);
    let key = pass.detach();
    Seat { key, found }
}

/// Works, and then reports a note.
pub(crate) fn work_and_tell(
    table: &SharedTable,
    work: &Work,
    meeting: u64,
    seat: Seat,
) -> (Seat, Note)
    requires of { IsPassOf table.now seat.key }
    ensures back { IsBack table.now seat.key result.0.key }
    ensures note { IsNoteOf result.0.key result.1 }
{
    let Seat { key, found } = work_on(table, work, meeting, seat);
    let mut pass = table.attach(key);
    let note = pass.tell();
    let key = pass.detach();
    (Seat { key, found }, note)
}

/// Hears a note, and then works.
pub(crate) fn hear_and_work(
    table: &SharedTable,
    work: &Work,
    meeting: u64,
    seat: Seat,
    note: Note,
) -> Seat
    requires of { IsPassOf table.now seat.key }
    requires note { IsNoteOf seat.key note }
    ensures back { IsBack table.now seat.key result.key }
{
    let Seat { key, found } = seat;
    let mut pass = table.attach(key);
    pass.hear(note);
    let key = pass.detach();
    work_on(table, work, meeting, Seat { key, found })
}

/// Looks once at each other pass.
pub(crate) fn look_around(table: &SharedTable, seat: Seat) -> Seat
    requires of { IsPassOf table.now seat.key }
    ensures back { IsBack table.now seat.key result.key }
{
    let Seat { key, mut found } = seat;
    let mut pass = table.attach(key);
    'others: for other in 0..5 {
        look(&mut pass, other, &mut found);
    }
    let key = pass.detach();
    Seat { key, found }
}
