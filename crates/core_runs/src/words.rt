// Words of the table and links of its tree, by name: `stamp`, `section:0`, `announced:0`; of node 3 `key:3`, `val:3`,
// `lock:3`, `mark:3`, `left:3` and `right:3` (the heads of its bundles), `left_link:3` and `right_link:3` (its plain
// links), `left_tag:3` and `right_tag:3` (their tags); of entry 2 `child:2`, `number:2`, `next:2`. A word may also be
// given by its number.
use index_words::{Field, Layout, Part, Side, Word};

/// A link of a node.
#[derive(Clone, Copy)]
pub(crate) struct LinkName {
    pub(crate) node: u32,
    pub(crate) side: Side,
}

/// The word of a name. None if it is not a name of a word.
fn word_named(name: &str) -> Option<Word> {
    if name == "stamp" {
        return Some(Word::Stamp);
    }
    let (kind, number) = name.split_once(':')?;
    let number = number.parse::<u32>().ok()?;
    Some(match kind {
        "section" => Word::Section(number),
        "announced" => Word::Announced(number),
        "key" => Word::Node(Field::Key, number),
        "val" => Word::Node(Field::Val, number),
        "lock" => Word::Node(Field::Lock, number),
        "mark" => Word::Node(Field::Mark, number),
        "left" => Word::Node(Field::Head(Side::Left), number),
        "right" => Word::Node(Field::Head(Side::Right), number),
        "left_link" => Word::Node(Field::Link(Side::Left), number),
        "right_link" => Word::Node(Field::Link(Side::Right), number),
        "left_tag" => Word::Node(Field::Tag(Side::Left), number),
        "right_tag" => Word::Node(Field::Tag(Side::Right), number),
        "child" => Word::Entry(Part::Child, number),
        "number" => Word::Entry(Part::Stamp, number),
        "next" => Word::Entry(Part::Next, number),
        _ => return None,
    })
}

/// The number of a word that is given by its name or by its number. None if it is neither.
pub(crate) fn address_of(layout: &Layout, name: &str) -> Option<u64> {
    match word_named(name) {
        Some(word) => Some(layout.address(word)),
        None => name.parse::<u64>().ok(),
    }
}

/// The link of a name such as `left:3`. None if it names no link.
pub(crate) fn link_named(name: &str) -> Option<LinkName> {
    match word_named(name)? {
        Word::Node(Field::Head(side), node) => Some(LinkName { node, side }),
        _ => None,
    }
}
