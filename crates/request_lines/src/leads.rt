// The sort of the names, which is fast where many names begin alike: the bytes after what all have in common are
// compared first, as two numbers.
ghost use Rattle.std.specs.Prelude.{◌≡◌, length, map, IfOk};
ghost use Rattle.std.specs.List.{range_with_len};
ghost use Rattle.request_lines.specs.Interned.{AreNumbered, number_in};

use key_names::{NoMemory, Text};
use rayon::slice::par_sort_unstable_by;
use std::alloc::Global;
use std::cmp::Ordering;
use std::thread::Threads;

// How many bytes are compared as one number. Of names with a date and then a number, some ten are alike in 16 bytes,
// so two numbers, 32 bytes, are compared.
const LEAD_BYTES: usize = 16;

/// The number of a name, and its bytes after what all names begin with, as two numbers.
#[derive(Drop)]
pub(crate) struct Numbered {
    pub(crate) leads: (u128, u128),
    pub(crate) number: usize,
}

/// The names' numbers, in the byte order of the names.
pub(crate) fn sorted(alloc: Global, names: &[Text]) -> Result<Vec<Numbered>, NoMemory>
    ensures { IfOk result (λ entries. AreNumbered names.now entries.items) }
{
    let mut entries = with_numbers(alloc, names)?;
    entries.sort_unstable_by(|first, second| order_of(names, first, second));
    Ok(entries)
}

/// As `sorted`. Many names are sorted in parts, each on a thread of its own where one can be started.
pub(crate) fn sorted_on_threads<Rt: Threads + Sync>(
    rt: &Rt,
    alloc: Global,
    names: &[Text],
) -> Result<Vec<Numbered>, NoMemory>
    ensures { IfOk result (λ entries. AreNumbered names.now entries.items) }
{
    let mut entries = with_numbers(alloc, names)?;
    par_sort_unstable_by(
        rt,
        entries.as_mut_slice(),
        |first: &Numbered, second: &Numbered| -> Ordering { order_of(names, first, second) },
    );
    Ok(entries)
}

// The names' numbers, in the order of the names.
fn with_numbers(alloc: Global, names: &[Text]) -> Result<Vec<Numbered>, NoMemory>
    ensures { IfOk result (λ entries. map number_in entries.items ≡ range_with_len 0 (length names.now)) }
{
    let begin = common_len(names);
    let mut entries = Vec::with_capacity(alloc, names.len())?;
    for (number, name) in names.iter().enumerate() {
        let leads = leads_of(name.bytes(), begin);
        entries.push(Numbered { leads, number })?;
    }
    Ok(entries)
}

// The order of the names of these numbers.
fn order_of(names: &[Text], first: &Numbered, second: &Numbered) -> Ordering {
    match first.leads.cmp(&second.leads) {
        Ordering::Equal => names.get(first.number).cmp(&names.get(second.number)),
        unequal => unequal,
    }
}

// With how many bytes all names begin.
fn common_len(names: &[Text]) -> usize {
    let mut common = match names.first() {
        Some(first) => first.bytes(),
        None => return 0,
    };
    for name in names {
        common = common_front(common, name.bytes());
    }
    common.len()
}

// The longest front of these bytes with which the name begins.
fn common_front<'a>(bytes: &'a [u8], name: &[u8]) -> &'a [u8] {
    let mut front = bytes;
    while !name.starts_with(front) {
        match front.split_last() {
            Some((_, shorter)) => front = shorter,
            None => return front,
        }
    }
    front
}

// The bytes of a name from this place on as two numbers, one after the other, with zeros after its end. Where names
// begin alike up to the place and the numbers differ, they are in the order of the numbers.
fn leads_of(name: &[u8], begin: usize) -> (u128, u128) {
    let rest = after(name, begin);
    (lead(rest), lead(after(rest, LEAD_BYTES)))
}

// The bytes after so many of them.
fn after(bytes: &[u8], count: usize) -> &[u8] {
    match bytes.split_at_checked(count) {
        Some((_, rest)) => rest,
        None => &[],
    }
}

fn lead(bytes: &[u8]) -> u128 {
    if let Some(front) = bytes.first_chunk::<LEAD_BYTES>() {
        return u128::from_be_bytes(*front);
    }
    let mut padded = [0; LEAD_BYTES];
    for (place, byte) in bytes.iter().enumerate() {
        if place < LEAD_BYTES {
            padded[place] = *byte;
        }
    }
    u128::from_be_bytes(padded)
}
