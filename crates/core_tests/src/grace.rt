// Slots that a pass has retired, and the looks after which they are free.
use core_grace::{current_looks, left_word, look_at, passed, settle};
use index_words::{Items, Layout, NoMemory, View};
use std::alloc::Global;
use std::test::Fail;

/// The view of pass 0 of two, which has retired one node.
fn retiring_view(alloc: Global) -> Result<View, NoMemory> {
    let mut nodes = Items::new(alloc);
    nodes.push(1)?;
    let layout = Layout {
        passes: 2,
        nodes: 2,
        entries: 8,
        calls: 2,
    };
    let mut view = View::empty(alloc, layout);
    view.number = Some(0);
    view.retired.nodes = nodes;
    Ok(view)
}

/// A look that finds `word` as the section word of pass 1.
fn look(alloc: Global, view: &mut View, word: u64) -> Result<(), NoMemory> {
    let mut looks = current_looks(alloc, view)?;
    look_at(&mut looks, 1, word)?;
    settle(alloc, view, looks, 2)
}

/// Looks that find these words, and how many nodes are free after them.
fn look_at_each(alloc: Global, view: &mut View, words: &[u64]) -> Result<usize, NoMemory> {
    for word in words {
        look(alloc, view, *word)?;
    }
    Ok(view.free.nodes.len())
}

/// How many nodes are free after looks that find these words.
fn free_after(alloc: Global, words: &[u64]) -> Result<usize, NoMemory> {
    let mut view = retiring_view(alloc)?;
    let free = look_at_each(alloc, &mut view, words);
    // by this call, the drop of so large a struct is proved quickly
    drop(view);
    free
}

#[test]
fn frees_a_batch_once_the_other_pass_was_outside(rt: HostRuntime) -> Result<(), Fail> {
    let rows: [(&[u64], usize); 7] = [
        (&[1], 0),
        (&[1, 1], 0),
        (&[1, 3], 1),
        (&[1, 2], 1),
        (&[2], 1),
        (&[u64::MAX, u64::MAX], 0),
        (&[u64::MAX, u64::MAX - 1], 1),
    ];
    for (words, free) in rows {
        let count = free_after(rt.alloc(), words).ok();
        assert_eq!(rt; count, Some(free));
    }
    Ok(())
}

#[test]
fn passes_an_even_word_and_one_that_has_changed(rt: HostRuntime) -> Result<(), Fail> {
    assert!(rt; passed(1, 2));
    assert!(rt; passed(1, 3));
    assert!(rt; passed(3, 1));
    assert!(rt; !passed(1, 1));
    assert!(rt; !passed(u64::MAX, u64::MAX));
    assert!(rt; passed(u64::MAX, u64::MAX - 1));
    assert_eq!(rt; left_word(1), 2);
    assert_eq!(rt; left_word(u64::MAX), u64::MAX - 1);
    Ok(())
}
