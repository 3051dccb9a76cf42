// The check of a whole text.
ghost use Rattle.std.specs.Prelude.{◌≡◌, ◌↔◌, ◌+◌, ◌<◌, ◌^◌, ℕ, length, map, true, false, IfOk};
ghost use Rattle.answer_text.specs.Lines.{line_of};
ghost use Rattle.answer_text.specs.Shown.{last_data};
ghost use Rattle.request_lines.specs.Session.{request_lines};
ghost use Rattle.request_lines.specs.SessionLaws.{IsSmall};
ghost use Rattle.text_laws.specs.TextLaws.{IsLegalText};
ghost use Rattle.request_lines.specs.CheckInput.{text_lines};
ghost use Rattle.text_laws.specs.WrongLine.{IsWrongLine, requests_of};
ghost use Rattle.replay_check.specs.declared.verdict.Verdict.TheVariants.{Legal, Wrong};
ghost use Rattle.replay_check.specs.Telling.{IsRead, checked};
ghost use Rattle.replay_check.specs.Looking.{HasJournal, against, texts_in, texts_of};
ghost use Rattle.replay_check.specs.Judging.{IsVerdict};

use crate::Verdict;
use crate::basis::Basis;
use crate::journal::{Journal, read_journal};
use crate::looking::first_wrong;
use crate::texts::cut;
use answer_text::last_line;
use key_names::{Directory, NoMemory};
use request_lines::Session;
use std::alloc::Global;

/// Whether the text is that of a legal run of the session, or which of its lines is the first wrong one. Each client
/// has `slots` node slots, or, if none are given, one more than it has lines that may make an update.
pub fn check_text(
    alloc: Global,
    session: &Session,
    dir: &Directory,
    slots: Option<u32>,
    text: &[u8],
) -> Result<Verdict, NoMemory>
    requires { IsRead session.now dir.now }
    ensures legal { IfOk result (λ verdict. (verdict ≡ Legal) ↔ IsLegalText (checked session.now dir.now slots) text.now) }
    ensures wrong { IfOk result (λ verdict. (line : ℕ) → (verdict ≡ Wrong line) ↔ IsWrongLine (checked session.now dir.now slots) (text_lines text.now) line) }
{
    let lines = cut(alloc, text)?;
    check_lines(alloc, session, dir, slots, &lines)
}

fn check_lines(
    alloc: Global,
    session: &Session,
    dir: &Directory,
    slots: Option<u32>,
    lines: &[&[u8]],
) -> Result<Verdict, NoMemory>
    requires { IsRead session.now dir.now }
    ensures { IfOk result (IsVerdict (checked session.now dir.now slots) (texts_of lines.now)) }
{
    let asked = requests_in(session);
    if lines.len() <= asked {
        return Ok(wrong(lines.len()));
    }
    let (_, rest) = lines.split_at(asked);
    let (journal, _) = rest.split_at(rest.len() - 1);
    match read_journal(alloc, session, dir, journal)? {
        Journal::Wrong { place } => Ok(wrong(asked + place)),
        Journal::Right { updates, own } => {
            let (updates, own) = (updates.as_slice(), own.as_slice());
            check_replies(
                alloc,
                &Basis {
                    session,
                    dir,
                    slots,
                    updates,
                    own,
                    lines,
                },
            )
        }
    }
}

// The verdict if the journal lines are right.
fn check_replies(alloc: Global, basis: &Basis<'_>) -> Result<Verdict, NoMemory>
    requires { HasJournal basis.now }
    ensures { IfOk result (IsVerdict (against basis.now) (texts_in basis.now)) }
{
    let last = basis.lines.len() - 1;
    if !tells(alloc, basis.updates.len(), basis.lines[last])? {
        return Ok(wrong(last));
    }
    match first_wrong(alloc, basis)? {
        Some(place) => Ok(wrong(place)),
        None => Ok(Verdict::Legal),
    }
}

// Whether a last line states this number of updates.
fn tells(alloc: Global, updates: usize, text: &[u8]) -> Result<bool, NoMemory>
    ensures yes { IfOk result (λ same. same ≡ true → text.now ≡ line_of (last_data updates)) }
    ensures no { IfOk result (λ same. same ≡ false → ¬ (text.now ≡ line_of (last_data updates))) }
{
    let line = last_line(alloc, updates as u64)?;
    Ok(line.bytes() == text)
}

// The line at this place, counted from 0, is wrong.
fn wrong(place: usize) -> Verdict
    requires { place + 1 < 2 ^ 32 }
    ensures { result ≡ Wrong (place + 1) }
{
    Verdict::Wrong {
        line: place as u32 + 1,
    }
}

// How many requests the session has.
fn requests_in(session: &Session) -> usize
    requires { IsSmall session.now }
    ensures { result ≡ requests_of (map request_lines session.now.clients) }
{
    let mut count = 0;
    for part in session.clients.as_slice() {
        count += part.requests.len();
    }
    count
}
