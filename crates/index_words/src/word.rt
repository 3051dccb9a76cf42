// The words of the table by name, and the number of each.
ghost use Rattle.std.specs.Prelude.{◌≡◌, ◌<◌, ◌≤◌, ◌^◌, ◌↔◌, IfSome, IsNone, true};
ghost use Rattle.index_words.specs.Words.{address, word_count, is_there, word_at, nodes_begin, entries_begin, side_number, field_number, part_number, field_at, part_at};

use crate::layout::Layout;
use crate::side::Side;

/// A field of a node. `Link` and `Tag` are those of the plain search of Citrus.
#[derive(Clone, Copy, Debug, PartialEq, Eq)]
pub enum Field {
    Key,
    Val,
    /// 0, or the holder's pass number plus 1.
    Lock,
    /// 1 once the node was taken out of the tree, otherwise 0.
    Mark,
    /// The newest entry of the bundle on this side, 0 for none.
    Head(Side),
    Link(Side),
    Tag(Side),
}

/// A part of a bundle's entry.
#[derive(Clone, Copy, Debug, PartialEq, Eq)]
pub enum Part {
    /// The child, 0 for none.
    Child,
    /// The number from which on the child is this one: 0 while it is pending.
    Stamp,
    /// The next older entry, 0 for none.
    Next,
}

/// A word of the table, by name.
#[derive(Clone, Copy, Debug, PartialEq, Eq)]
pub enum Word {
    /// The number of updates.
    Stamp,
    /// The section word of a pass: odd inside a read-side section.
    Section(u32),
    /// The announced number of a pass plus 1, or 0.
    Announced(u32),
    Node(Field, u32),
    Entry(Part, u32),
}

fn side_number(side: Side) -> u64
    ensures { result ≡ side_number side }
{
    match side {
        Side::Left => 0,
        Side::Right => 1,
    }
}

fn field_number(field: Field) -> u64
    ensures number { result ≡ field_number field }
    ensures small { result < 10 }
{
    match field {
        Field::Key => 0,
        Field::Val => 1,
        Field::Lock => 2,
        Field::Mark => 3,
        Field::Head(side) => 4 + side_number(side),
        Field::Link(side) => 6 + side_number(side),
        Field::Tag(side) => 8 + side_number(side),
    }
}

fn field_at(number: u64) -> Field
    ensures { result ≡ field_at number }
{
    match number {
        0 => Field::Key,
        1 => Field::Val,
        2 => Field::Lock,
        3 => Field::Mark,
        4 => Field::Head(Side::Left),
        5 => Field::Head(Side::Right),
        6 => Field::Link(Side::Left),
        7 => Field::Link(Side::Right),
        8 => Field::Tag(Side::Left),
        _ => Field::Tag(Side::Right),
    }
}

fn part_number(part: Part) -> u64
    ensures number { result ≡ part_number part }
    ensures small { result < 3 }
{
    match part {
        Part::Child => 0,
        Part::Stamp => 1,
        Part::Next => 2,
    }
}

fn part_at(number: u64) -> Part
    ensures { result ≡ part_at number }
{
    match number {
        0 => Part::Child,
        1 => Part::Stamp,
        _ => Part::Next,
    }
}

impl Layout {
    fn nodes_begin(&self) -> u64
        ensures value { result ≡ nodes_begin self.now }
        ensures small { result ≤ 2 ^ 34 }
    {
        1 + 2 * u64::from(self.passes)
    }

    fn entries_begin(&self) -> u64
        ensures value { result ≡ entries_begin self.now }
        ensures small { result ≤ 2 ^ 38 }
    {
        self.nodes_begin() + 10 * (u64::from(self.nodes) + 1)
    }

    /// How many words the table has.
    pub fn word_count(&self) -> u64
        ensures { result ≡ word_count self.now }
    {
        self.entries_begin() + 3 * u64::from(self.entries)
    }

    /// Whether the table has this word.
    pub fn is_there(&self, word: Word) -> bool
        ensures { result ≡ is_there self.now word }
    {
        match word {
            Word::Stamp => true,
            Word::Section(pass) | Word::Announced(pass) => pass < self.passes,
            Word::Node(_, node) => node <= self.nodes,
            Word::Entry(_, entry) => 0 < entry && entry <= self.entries,
        }
    }

    /// The number of a word.
    pub fn address(&self, word: Word) -> u64
        ensures number { result ≡ address self.now word }
        ensures in_range { is_there self.now word ≡ true → result < word_count self.now }
        ensures own { is_there self.now word ≡ true → word_at self.now result ≡ Some word }
    {
        match word {
            Word::Stamp => 0,
            Word::Section(pass) => 1 + u64::from(pass),
            Word::Announced(pass) => 1 + u64::from(self.passes) + u64::from(pass),
            Word::Node(field, node) => {
                self.nodes_begin() + 10 * u64::from(node) + field_number(field)
            }
            Word::Entry(part, entry) => {
                self.entries_begin() + 3 * u64::from(entry).saturating_sub(1) + part_number(part)
            }
        }
    }

    /// The word with this number. None exactly if the table has no such word.
    pub fn word_at(&self, number: u64) -> Option<Word>
        ensures value { result ≡ word_at self.now number }
        ensures found { IfSome result (λ w. (is_there self.now w ≡ true) × (address self.now w ≡ number)) }
        ensures none { IsNone result ↔ (word_count self.now ≤ number) }
    {
        let passes = u64::from(self.passes);
        if number == 0 {
            return Some(Word::Stamp);
        }
        if number <= passes {
            return Some(Word::Section((number - 1) as u32));
        }
        if number < self.nodes_begin() {
            return Some(Word::Announced((number - 1 - passes) as u32));
        }
        if number < self.entries_begin() {
            let from = number - self.nodes_begin();
            return Some(Word::Node(field_at(from % 10), (from / 10) as u32));
        }
        if number < self.word_count() {
            let from = number - self.entries_begin();
            return Some(Word::Entry(part_at(from % 3), (from / 3 + 1) as u32));
        }
        None
    }
}
