// The clients before their first reply line was looked at.
ghost use Rattle.std.specs.Prelude.{◌≡◌, ◌+◌, ◌<◌, ◌≤◌, ◌^◌, ◌++◌, ◌∷◌, ℕ, List, length, Option, IfSome, IfOk};
ghost use Rattle.std.specs.Option.{unwrap_or};
ghost use Rattle.bucket_terms.specs.RunParts.{default_slots};
ghost use Rattle.answer_text.specs.Pieces.{place_text};
ghost use Rattle.request_lines.specs.Session.{request_lines};
ghost use Rattle.text_laws.specs.WrongLine.{first_reply};
ghost use Rattle.replay_check.specs.Looking.{IsBasis, IsDueAt, IsReadyOn, AreReadyOn, against, texts_of};

use crate::basis::Basis;
use crate::numbers::place_in;
use crate::turns::Client;
use key_names::NoMemory;
use request_lines::ClientPart;
use std::alloc::Global;

/// What is known of each client before its first line was looked at.
pub(crate) fn starts(alloc: Global, basis: &Basis<'_>) -> Result<Vec<Client>, NoMemory>
    requires { IsBasis basis.now }
    ensures { IfOk result (λ clients. AreReadyOn basis.now 0 clients.items) }
{
    let parts = basis.session.clients.as_slice();
    let mut clients = Vec::new(alloc);
    let mut first = 0;
    for number in 0..parts.len() {
        clients.push(start(basis, number, first))?;
        first += parts[number].requests.len();
    }
    Ok(clients)
}

fn start(basis: &Basis<'_>, number: usize, first: usize) -> Client
    requires basis { IsBasis basis.now }
    requires within { number < length basis.now.session.now.clients }
    requires first { first ≡ first_reply (against basis.now) number }
    ensures { IsReadyOn basis.now number 0 result }
{
    let part = &basis.session.clients.as_slice()[number];
    let slots = slots_of(part, basis.slots);
    let due = due_at(basis.lines, first, 0);
    Client {
        slots,
        first,
        next: 0,
        due,
        seen: 0,
        used: 0,
        last: None,
    }
}

fn slots_of(part: &ClientPart, slots: Option<u32>) -> u64
    requires { length part.now.requests < 2 ^ 32 }
    ensures { result ≡ unwrap_or slots (default_slots (request_lines part.now)) }
{
    match slots {
        Some(slots) => u64::from(slots),
        None => u64::from(part.writes()) + 1,
    }
}

/// The place at which a line is to be looked at, after lines with places up to this one. A refused request has no
/// place: its line is looked at at once, and so is a line that shows a lower place, which is wrong.
pub(crate) fn due_at(lines: &[&[u8]], line: usize, seen: u64) -> u64
    ensures least { seen ≤ result }
    ensures due { IsDueAt (texts_of lines.now) line seen result }
{
    match lines.get(line) {
        Some(text) => due_of(text, seen),
        None => seen,
    }
}

fn due_of(text: &[u8], seen: u64) -> u64
    ensures least { seen ≤ result }
    ensures due { (at : Option ℕ) (rest : List ℕ) → IfSome at (λ n. n < 2 ^ 64) → IfSome at (λ n. seen ≤ n) → text.now ≡ place_text at ++ 44 ∷ rest → result ≡ unwrap_or at seen }
{
    match place_in(text) {
        Some(at) if at > seen => at,
        _ => seen,
    }
}
