// Names that are put in order where they stand, so that none is copied.
ghost use Rattle.std.specs.Prelude.{◌≡◌, ◌<◌, ℕ, List, length, IfOk};
ghost use Rattle.std.specs.List.{range_with_len};
ghost use Rattle.request_lines.specs.Interned.{AreMoved, AreNumbered, IsRankedBy};

use crate::leads::Numbered;
use key_names::Text;
use std::alloc::{AllocError, Global};

/// Puts the names in the order of these numbers, and returns for each number the place where its name then stands.
pub(crate) fn put_in_order(
    alloc: Global,
    names: &mut Vec<Text>,
    entries: &[Numbered],
) -> Result<Vec<usize>, AllocError>
    requires { AreNumbered names.old.items entries.now }
    ensures { IfOk result (λ places. IsRankedBy names.old.items names.new.items places.items) }
{
    let mut places = counted_up(alloc, entries.len())?;
    let mut numbers = counted_up(alloc, entries.len())?;
    for (place, entry) in entries.iter().enumerate() {
        move_to(names, &mut places, &mut numbers, place, entry.number);
    }
    Ok(places)
}

// Moves the name with this number to this place, and the name that stands there to where the first one stood.
fn move_to(
    names: &mut Vec<Text>,
    places: &mut Vec<usize>,
    numbers: &mut Vec<usize>,
    place: usize,
    number: usize,
)
    requires moved { (kept : List (List ℕ)) × AreMoved kept names.old.items places.old.items numbers.old.items }
    requires place { place < length names.old.items }
    requires number { number < length names.old.items }
    ensures moved { (kept : List (List ℕ)) → AreMoved kept names.old.items places.old.items numbers.old.items → AreMoved kept names.new.items places.new.items numbers.new.items }
    ensures len { length names.new.items ≡ length names.old.items }
{
    let from = places[number];
    if from == place {
        return;
    }
    let other = numbers[place];
    names.swap(place, from);
    places[number] = place;
    places[other] = from;
    numbers[place] = number;
    numbers[from] = other;
}

// The numbers below this one, in order.
fn counted_up(alloc: Global, count: usize) -> Result<Vec<usize>, AllocError>
    ensures { IfOk result (λ numbers. numbers.items ≡ range_with_len 0 count) }
{
    let mut numbers = Vec::with_capacity(alloc, count)?;
    for number in 0..count {
        numbers.push(number)?;
    }
    Ok(numbers)
}

/// For each number the rank of its name among the distinct ones. The names stand in the order of the entries.
pub(crate) fn ranks_of(
    alloc: Global,
    names: &[Text],
    entries: &[Numbered],
) -> Result<Vec<usize>, AllocError> {
    let mut ranks = vec![in alloc; 0; names.len()]?;
    let mut rank: usize = 0;
    for (place, entry) in entries.iter().enumerate() {
        if !is_as_before(names, place) {
            rank = rank.saturating_add(1);
        }
        if entry.number < ranks.len() {
            ranks[entry.number] = rank;
        }
    }
    Ok(ranks)
}

// Whether the name at this place is that of the place before, or there is none before.
fn is_as_before(names: &[Text], place: usize) -> bool {
    if place == 0 {
        return true;
    }
    match (names.get(place - 1), names.get(place)) {
        (Some(before), Some(name)) => before.as_str() == name.as_str(),
        _ => true,
    }
}
