// Pages of a list, by the definition and by look-ups; tests/program/rows.py compares those of sessions.
use bucket_terms::{ListQuery, Page, PageEntry, TokenPoint};
use key_map::Pair;
use key_names::{Directory, NoMemory, Text};
use page_rules::{KnownPrefixes, PageCursor, page_by_look_ups, page_of_list};
use std::alloc::Global;
use std::test::Fail;

// The names a/1, a/2 and b.
fn directory(alloc: Global) -> Result<Directory, Fail> {
    let mut names = Vec::new(alloc);
    for name in ["b", "a/2", "a/1"] {
        names.push(Text::of(alloc, name)?)?;
    }
    Ok(Directory::new(alloc, names)?)
}

const PAIRS: [Pair; 3] = [
    Pair { key: 0, val: 9 },
    Pair { key: 1, val: 8 },
    Pair { key: 2, val: 7 },
];

fn empty(alloc: Global) -> Text {
    Text::from_string(String::new(alloc))
}

// A listing of one entry with the delimiter `/`.
fn one_entry(alloc: Global) -> Result<ListQuery, NoMemory> {
    let delimiter = Text::of(alloc, "/")?;
    Ok(ListQuery {
        prefix: empty(alloc),
        delimiter,
        start_after: empty(alloc),
        token: empty(alloc),
        max_keys: 1,
        url: false,
    })
}

// Whether the page has exactly these entries, and is truncated or not.
fn has_entries(page: &Page, entries: &[PageEntry], truncated: bool) -> bool {
    let alike = entries.iter().enumerate().all(|(place, entry)| {
        place < page.entries.len() && page.entries.at(place) == *entry
    });
    alike && page.entries.len() == entries.len() && page.truncated == truncated
}

// Whether the page has exactly this entry, and is truncated or not.
fn is_page(page: &Page, entry: PageEntry, truncated: bool) -> bool {
    has_entries(page, &[entry], truncated)
}

// Whether the pairs have such a page from the point on, by the definition and by look-ups.
fn have_page(
    alloc: Global,
    dir: &Directory,
    point: Option<&TokenPoint>,
    entry: PageEntry,
    truncated: bool,
) -> Result<bool, NoMemory> {
    let query = one_entry(alloc)?;
    let page = page_of_list(alloc, dir, &PAIRS, &query, point)?;
    let looked_up = page_by_look_ups(alloc, dir, &PAIRS, &query, point)?;
    Ok(is_page(&page, entry, truncated) && is_page(&looked_up, entry, truncated))
}

// Where the listing goes on after its first page.
fn point_behind(alloc: Global, dir: &Directory) -> Result<Option<TokenPoint>, NoMemory> {
    page_of_list(alloc, dir, &PAIRS, &one_entry(alloc)?, None)?.point(alloc, dir)
}

// The common prefix of a point.
fn group(point: &Option<TokenPoint>) -> Option<&str> {
    match point {
        Some(TokenPoint::Group(group)) => Some(group.as_str()),
        _ => None,
    }
}

#[test]
fn goes_on_behind_a_group(rt: HostRuntime) -> Result<(), Fail> {
    let alloc = rt.alloc();
    let dir = directory(alloc)?;
    let first = PageEntry::Group { rank: 0, len: 2 };
    assert!(rt; have_page(alloc, &dir, None, first, true)?);
    let point = point_behind(alloc, &dir)?;
    assert_eq!(rt; group(&point), Some("a/"));
    let second = PageEntry::Key { rank: 2, val: 7 };
    assert!(rt; have_page(alloc, &dir, point.as_ref(), second, false)?);
    Ok(())
}

// Whether a new cursor asks for the first and the last of the pairs, which it takes, and for no other.
fn asks_for_two(alloc: Global, cursor: &mut PageCursor<'_>) -> Result<bool, NoMemory> {
    for (rank, pair) in [(0, PAIRS[0]), (2, PAIRS[2])] {
        match cursor.next_rank() {
            Some(next) if next == rank => cursor.take(alloc, pair)?,
            _ => return Ok(false),
        }
    }
    Ok(cursor.next_rank().is_none())
}

// Whether the cursor then gives the first page.
fn leaves_the_group_at_once(alloc: Global, dir: &Directory) -> Result<bool, NoMemory> {
    let query = one_entry(alloc)?;
    let mut cursor = PageCursor::new(alloc, dir, &query, None);
    let has_asked = asks_for_two(alloc, &mut cursor)?;
    let entry = PageEntry::Group { rank: 0, len: 2 };
    Ok(has_asked && is_page(&cursor.finish(), entry, true))
}

#[test]
fn leaves_a_group_with_one_jump(rt: HostRuntime) -> Result<(), Fail> {
    let dir = directory(rt.alloc())?;
    assert!(rt; leaves_the_group_at_once(rt.alloc(), &dir)?);
    Ok(())
}

// A listing of the names that begin with `a/`.
fn names_below_a(alloc: Global) -> Result<ListQuery, NoMemory> {
    let prefix = Text::of(alloc, "a/")?;
    let mut query = one_entry(alloc)?;
    query.prefix = prefix;
    query.delimiter = empty(alloc);
    query.max_keys = 5;
    Ok(query)
}

// Whether the known ranks lead to the page of both names, and no rank is known of another prefix.
fn lists_two_known(alloc: Global, dir: &Directory) -> Result<bool, NoMemory> {
    let query = names_below_a(alloc)?;
    let mut known = KnownPrefixes::none(alloc, dir);
    let before = known.ranks(&query.prefix);
    known.note(alloc, &query.prefix)?;
    let is_known = before.is_none()
        && known.ranks(&query.prefix).is_some()
        && known.ranks(&Text::of(alloc, "b")?).is_none();
    let mut cursor = PageCursor::of_known(alloc, &known, &query, None);
    for pair in PAIRS {
        if cursor.next_rank().is_some() {
            cursor.take(alloc, pair)?;
        }
    }
    let page = cursor.finish();
    let listed = [
        PageEntry::Key { rank: 0, val: 9 },
        PageEntry::Key { rank: 1, val: 8 },
    ];
    Ok(is_known && has_entries(&page, &listed, false))
}

#[test]
fn lists_by_the_ranks_of_a_known_prefix(rt: HostRuntime) -> Result<(), Fail> {
    let dir = directory(rt.alloc())?;
    assert!(rt; lists_two_known(rt.alloc(), &dir)?);
    Ok(())
}
