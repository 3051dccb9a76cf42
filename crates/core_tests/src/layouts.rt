// Layouts of tables: the limits of their sizes, and the numbers of their words.
use index_words::{Field, Layout, Part, PassSize, Side, Word};
use std::test::Fail;

const SMALL: PassSize = PassSize {
    nodes: 1,
    entries: 4,
    calls: 1,
};

const NO_CALL: PassSize = PassSize {
    nodes: 1,
    entries: 4,
    calls: 0,
};

const LARGEST: PassSize = PassSize {
    nodes: 262_144,
    entries: 1_048_576,
    calls: 16_777_216,
};

const NO_NODE: PassSize = PassSize {
    nodes: 0,
    entries: 4,
    calls: 1,
};

const FEW_ENTRIES: PassSize = PassSize {
    nodes: 1,
    entries: 3,
    calls: 1,
};

const ALL_NODES: PassSize = PassSize {
    nodes: 262_144,
    entries: 4,
    calls: 1,
};

const ALL_ENTRIES: PassSize = PassSize {
    nodes: 1,
    entries: 1_048_576,
    calls: 1,
};

const ALL_CALLS: PassSize = PassSize {
    nodes: 1,
    entries: 4,
    calls: 16_777_216,
};

/// Sizes of passes, and whether a table may have them: up to each limit, and past it.
const SIZES: [(&[PassSize], bool); 10] = [
    (&[NO_CALL], true),
    (&[LARGEST], true),
    (&[NO_CALL; 32], true),
    (&[], false),
    (&[NO_CALL; 33], false),
    (&[NO_NODE], false),
    (&[FEW_ENTRIES], false),
    (&[ALL_NODES, SMALL], false),
    (&[ALL_ENTRIES, SMALL], false),
    (&[ALL_CALLS, SMALL], false),
];

/// The place of the first of these sizes that is taken or refused wrongly.
fn first_wrong_size(rows: &[(&[PassSize], bool)]) -> Option<usize> {
    for (place, (sizes, fit)) in rows.iter().enumerate() {
        if Layout::new(sizes).is_some() != *fit {
            return Some(place);
        }
    }
    None
}

#[test]
fn takes_sizes_up_to_each_limit_and_refuses_those_past_it(rt: HostRuntime) -> Result<(), Fail> {
    assert_eq!(rt; first_wrong_size(&SIZES), None);
    Ok(())
}

/// Words of a table of one pass with one node, and their numbers. A node's ten words have their order.
const WORDS: [(Word, u64); 17] = [
    (Word::Section(0), 1),
    (Word::Announced(0), 2),
    (Word::Node(Field::Lock, 0), 5),
    (Word::Node(Field::Head(Side::Right), 0), 8),
    (Word::Node(Field::Key, 1), 13),
    (Word::Node(Field::Val, 1), 14),
    (Word::Node(Field::Lock, 1), 15),
    (Word::Node(Field::Mark, 1), 16),
    (Word::Node(Field::Head(Side::Left), 1), 17),
    (Word::Node(Field::Head(Side::Right), 1), 18),
    (Word::Node(Field::Link(Side::Left), 1), 19),
    (Word::Node(Field::Link(Side::Right), 1), 20),
    (Word::Node(Field::Tag(Side::Left), 1), 21),
    (Word::Node(Field::Tag(Side::Right), 1), 22),
    (Word::Entry(Part::Child, 1), 23),
    (Word::Entry(Part::Stamp, 1), 24),
    (Word::Entry(Part::Next, 4), 34),
];

/// The number of the first of these rows whose word has another one, or whose number is that of another word.
fn first_wrong_number(layout: &Layout, rows: &[(Word, u64)]) -> Option<u64> {
    for (word, number) in rows {
        if layout.address(*word) != *number || layout.word_at(*number) != Some(*word) {
            return Some(*number);
        }
    }
    None
}

#[test]
fn numbers_the_words_of_one_pass_of_one_node(rt: HostRuntime) -> Result<(), Fail> {
    let layout = Layout::new(&[SMALL]).ok_or("refused")?;
    assert_eq!(rt; layout.word_count(), 35);
    assert_eq!(rt; first_wrong_number(&layout, &WORDS), None);
    assert_eq!(rt; layout.word_at(35), None);
    Ok(())
}
