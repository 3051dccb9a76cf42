// The entries of a bundle as the words hold them, and which of them a number selects.
ghost use Rattle.std.specs.Prelude.{◌≡◌, ◌+◌, ◌++◌, nat_le, IfOk, OnOk};
ghost use Rattle.index_words.specs.Words.{memory};
ghost use Rattle.index_words.specs.declared.word.Part.TheVariants.{Next as NextPart};
ghost use Rattle.index_words.specs.declared.word.Word.TheVariants.{Entry as EntryWord};
ghost use Rattle.core_links.specs.Bundle.{select};
ghost use Rattle.core_events.specs.CutMoves.{cut_off};
ghost use Rattle.core_events.specs.Numbered.{shown, raised_number, entry_number};
ghost use Rattle.core_events.specs.SpelledNow.{entries_from, bundle_now};
ghost use Rattle.machine_spelled.specs.Sights.{memory_of};

use crate::spelled_now::{Sight, field_of, is_listed, part_of};
use core_events::reads::held;
use index_words::{Field, Items, Layout, NoMemory, Part, Side, View, Word};
use std::alloc::Global;

/// Appends an entry and at most `behind` entries after it to the list.
pub(crate) fn push_entries(
    sight: &Sight<'_>,
    behind: u64,
    entry: u64,
    entries: &mut Items<u32>,
) -> Result<(), NoMemory>
    ensures { OnOk result (entries.new ≡ entries.old ++ entries_from (behind + 1) sight.now.layout.now.entries (λ e. memory_of sight.now (EntryWord NextPart e)) entry) }
{
    if entry == 0 || entry > u64::from(sight.layout.entries) {
        return Ok(());
    }
    entries.push(entry as u32)?;
    if behind == 0 {
        return Ok(());
    }
    push_entries(
        sight,
        behind - 1,
        part_of(sight, Part::Next, entry),
        entries,
    )
}

/// The entries after this one.
pub fn entries_behind(
    alloc: Global,
    layout: &Layout,
    words: &[u64],
    entry: u32,
) -> Result<Items<u32>, NoMemory>
    ensures { IfOk result (λ back. back ≡ cut_off layout.now (memory layout.now words.now) entry) }
{
    let sight = Sight {
        layout,
        words,
        views: &[],
        pending: &[],
        left: 0,
        right: 0,
    };
    let mut back = Items::new(alloc);
    let next = held(layout, words, Word::Entry(Part::Next, entry));
    push_entries(&sight, held(layout, words, Word::Stamp), next, &mut back)?;
    Ok(back)
}

/// Whether the update's raised number is at most this one: false before its raise.
fn is_shown_by(raised: Option<u64>, number: u64) -> bool
    ensures { result ≡ nat_le (shown raised) number }
{
    match raised {
        None => false,
        Some(raised) => raised <= number,
    }
}

fn is_raised_by(views: &[View], entry: u64, number: u64) -> bool
    ensures { result ≡ nat_le (raised_number views.now entry) number }
{
    for view in views {
        if is_listed(view.update.pending.as_slice(), entry) {
            return is_shown_by(view.update.raised, number);
        }
    }
    false
}

/// Whether the entry has a number of at most this one.
fn is_numbered_by(sight: &Sight<'_>, entry: u64, number: u64) -> bool
    ensures { result ≡ nat_le (entry_number (memory_of sight.now) sight.now.views.now entry) number }
{
    let written = part_of(sight, Part::Stamp, entry);
    if written == 0 {
        is_raised_by(sight.views, entry, number)
    } else {
        written <= number
    }
}

/// The entry that a number selects from this one on, among at most `behind` entries after it, 0 for none.
fn selected_from(sight: &Sight<'_>, behind: u64, entry: u64, number: u64) -> u64
    ensures { result ≡ select (entry_number (memory_of sight.now) sight.now.views.now) number (entries_from (behind + 1) sight.now.layout.now.entries (λ e. memory_of sight.now (EntryWord NextPart e)) entry) }
{
    if entry == 0 || entry > u64::from(sight.layout.entries) {
        return 0;
    }
    if is_numbered_by(sight, entry, number) {
        return entry;
    }
    if behind == 0 {
        return 0;
    }
    selected_from(sight, behind - 1, part_of(sight, Part::Next, entry), number)
}

/// The entry that a number selects in the bundle of a link, 0 for none.
pub fn selected(
    layout: &Layout,
    words: &[u64],
    views: &[View],
    number: u64,
    side: Side,
    node: u32,
) -> u64
    ensures { result ≡ select (entry_number (memory layout.now words.now) views.now) number (bundle_now layout.now (memory layout.now words.now) side node) }
{
    let sight = Sight {
        layout,
        words,
        views,
        pending: &[],
        left: 0,
        right: 0,
    };
    let head = field_of(&sight, Field::Head(side), u64::from(node));
    selected_from(&sight, held(layout, words, Word::Stamp), head, number)
}
