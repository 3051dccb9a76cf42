// The view of a seat after a fill.
ghost use Rattle.std.specs.Prelude.{◌≡◌, ◌++◌, OnOk, OnErr, IfOk};
ghost use Rattle.index_words.specs.Words.{same_field, same_part, same_word};
ghost use Rattle.core_events.specs.FillMoves.{filled_other, filled_with, node_words, entry_words, zeros_in, zeros_of, known_before, used_slots, filled_view};

use crate::updates::drop_number;
use core_events::reads::is_in;
use core_events::searches::same_side;
use index_words::{Field, Filled, Items, NoMemory, Part, Side, Slots, View, Word};
use std::alloc::Global;

fn is_field(one: Field, other: Field) -> bool
    ensures { result ≡ same_field one other }
{
    match (one, other) {
        (Field::Key, Field::Key) => true,
        (Field::Val, Field::Val) => true,
        (Field::Lock, Field::Lock) => true,
        (Field::Mark, Field::Mark) => true,
        (Field::Head(one), Field::Head(other)) => same_side(one, other),
        (Field::Link(one), Field::Link(other)) => same_side(one, other),
        (Field::Tag(one), Field::Tag(other)) => same_side(one, other),
        _ => false,
    }
}

fn is_part(one: Part, other: Part) -> bool
    ensures { result ≡ same_part one other }
{
    match (one, other) {
        (Part::Child, Part::Child) => true,
        (Part::Stamp, Part::Stamp) => true,
        (Part::Next, Part::Next) => true,
        _ => false,
    }
}

fn is_word(one: Word, other: Word) -> bool
    ensures { result ≡ same_word one other }
{
    match (one, other) {
        (Word::Stamp, Word::Stamp) => true,
        (Word::Section(one), Word::Section(other)) => one == other,
        (Word::Announced(one), Word::Announced(other)) => one == other,
        (Word::Node(one, node), Word::Node(other, at)) => is_field(one, other) && node == at,
        (Word::Entry(one, entry), Word::Entry(other, at)) => is_part(one, other) && entry == at,
        _ => false,
    }
}

fn keep_others(filled: &mut Vec<Filled>, word: Word)
    ensures { filled.new.items ≡ filled_other word filled.old.items }
{
    filled.retain(|item| !is_word(item.word, word));
}

fn zero(word: Word) -> Filled
    ensures { result ≡ record { word = word; value = 0 } }
{
    Filled { word, value: 0 }
}

fn add_node_zeros(filled: &mut Items<Filled>, node: u32) -> Result<(), NoMemory>
    ensures { OnOk result (filled.new ≡ filled.old ++ zeros_in (node_words node)) }
{
    filled.append(&[
        zero(Word::Node(Field::Key, node)),
        zero(Word::Node(Field::Val, node)),
        zero(Word::Node(Field::Mark, node)),
        zero(Word::Node(Field::Head(Side::Left), node)),
        zero(Word::Node(Field::Head(Side::Right), node)),
        zero(Word::Node(Field::Link(Side::Left), node)),
        zero(Word::Node(Field::Link(Side::Right), node)),
        zero(Word::Node(Field::Tag(Side::Left), node)),
        zero(Word::Node(Field::Tag(Side::Right), node)),
    ])
}

fn add_entry_zeros(filled: &mut Items<Filled>, entry: u32) -> Result<(), NoMemory>
    ensures { OnOk result (filled.new ≡ filled.old ++ zeros_in (entry_words entry)) }
{
    filled.append(&[
        zero(Word::Entry(Part::Child, entry)),
        zero(Word::Entry(Part::Stamp, entry)),
        zero(Word::Entry(Part::Next, entry)),
    ])
}

/// Adds the words of a word's slot, each with the value 0, if the slot was never used.
fn add_zeros(filled: &mut Items<Filled>, unused: &Slots, word: Word) -> Result<(), NoMemory>
    ensures { OnOk result (filled.new ≡ filled.old ++ zeros_of unused.now word) }
{
    match word {
        Word::Node(_, node) if is_in(unused.nodes.as_slice(), node) => {
            add_node_zeros(filled, node)
        }
        Word::Entry(_, entry) if is_in(unused.entries.as_slice(), entry) => {
            add_entry_zeros(filled, entry)
        }
        _ => Ok(()),
    }
}

/// What is known of filled words before a store to this one.
fn known_words(alloc: Global, view: &View, word: Word) -> Result<Items<Filled>, NoMemory>
    ensures { IfOk result (λ fs. fs ≡ known_before view.now word) }
{
    let mut known = view.reading.filled.copy(alloc)?;
    add_zeros(&mut known, &view.unused, word)?;
    Ok(known)
}

/// The filled words, with one more.
fn with_word(filled: Items<Filled>, word: Word, value: u64) -> Result<Items<Filled>, NoMemory>
    ensures { IfOk result (λ fs. fs ≡ filled_with filled word value) }
{
    let mut others = filled.into_vec();
    keep_others(&mut others, word);
    let mut words = Items::from_vec(others);
    words.push(Filled { word, value })?;
    Ok(words)
}

/// Takes the slot of this word out of the unused ones.
fn drop_slot(alloc: Global, unused: &mut Slots, word: Word)
    ensures { unused.new ≡ used_slots word unused.old }
{
    match word {
        Word::Node(_, node) => drop_number(alloc, &mut unused.nodes, node),
        Word::Entry(_, entry) => drop_number(alloc, &mut unused.entries, entry),
        _ => {}
    }
}

/// The view after a fill of this word. After a refusal it is unchanged.
pub fn fill(alloc: Global, view: &mut View, word: Word, value: u64) -> Result<(), NoMemory>
    ensures ok { OnOk result (view.new ≡ filled_view view.old word value) }
    ensures err { OnErr result (view.new ≡ view.old) }
{
    if view.section_word % 2 == 0 {
        drop_slot(alloc, &mut view.unused, word);
        return Ok(());
    }
    let known = known_words(alloc, view, word)?;
    view.reading.filled = with_word(known, word, value)?;
    drop_slot(alloc, &mut view.unused, word);
    Ok(())
}
