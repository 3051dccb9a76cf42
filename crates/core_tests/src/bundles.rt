// Which entry of a bundle a number selects, and how many entries are kept.
use core_links::{Entry, is_chain, keep, select};
use std::test::Fail;

/// The place that `t` selects among three entries, and how many of them are kept if nobody reads below it.
fn answers_among_three(t: u64) -> (Option<usize>, usize) {
    let newest = Entry { child: 1, stamp: 7 };
    let middle = Entry { child: 0, stamp: 4 };
    let oldest = Entry { child: 2, stamp: 1 };
    let bundle = [newest, middle, oldest];
    (select(&bundle, t), keep(&bundle, t))
}

#[test]
fn selects_the_first_entry_that_is_old_enough_and_keeps_all_up_to_it(
    rt: HostRuntime,
) -> Result<(), Fail> {
    let rows: [(u64, Option<usize>, usize); 7] = [
        (9, Some(0), 1),
        (7, Some(0), 1),
        (6, Some(1), 2),
        (4, Some(1), 2),
        (3, Some(2), 3),
        (1, Some(2), 3),
        (0, None, 3),
    ];
    for (t, place, kept) in rows {
        assert_eq!(rt; answers_among_three(t), (place, kept));
    }
    assert_eq!(rt; select(&[], 5), None);
    assert_eq!(rt; keep(&[], 5), 0);
    Ok(())
}

#[test]
fn tells_a_whole_chain_from_a_part(rt: HostRuntime) -> Result<(), Fail> {
    assert!(rt; is_chain(&[0, 2, 3, 0], 1, &[1, 2, 3]));
    assert!(rt; !is_chain(&[0, 2, 3, 0], 1, &[1, 2]));
    assert!(rt; is_chain(&[0, 2, 3, 0], 0, &[]));
    Ok(())
}
