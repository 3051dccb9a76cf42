// The slots that a pass has retired, and when it may free them.
use pass_slots::{OwnSlots, PassSlots, Waits};
use std::test::Fail;

/// Whether pass 0 of two may free its batch after looks that find these words as the section word of pass 1.
fn is_done_after(words: &[u64]) -> bool {
    let mut waits = Waits::none();
    for word in words {
        waits.look_at(1, *word);
    }
    waits.is_done(2, 0)
}

#[test]
fn waits_while_the_other_pass_is_in_the_section_found(rt: HostRuntime) -> Result<(), Fail> {
    let rows: [(&[u64], bool); 7] = [
        (&[], false),
        (&[1], false),
        (&[1, 1], false),
        (&[1, 3], true),
        (&[1, 2], true),
        (&[2], true),
        (&[u64::MAX, u64::MAX - 1], true),
    ];
    for (words, done) in rows {
        assert_eq!(rt; is_done_after(words), done);
    }
    Ok(())
}

#[test]
fn has_no_batch_and_nothing_retired_at_first(rt: HostRuntime) -> Result<(), Fail> {
    let mut nodes = OwnSlots::with_room(rt.alloc(), 2)?;
    nodes.add_free(1);
    let entries = OwnSlots::with_room(rt.alloc(), 4)?;
    let mut slots = PassSlots::new(rt.alloc(), nodes, entries)?;
    slots.enter(2, 0);
    slots.look(2, 0, 1, 1);
    assert!(rt; slots.is_settled());
    Ok(())
}

#[test]
fn retires_slots_and_frees_them_with_the_batch(rt: HostRuntime) -> Result<(), Fail> {
    let mut slots = OwnSlots::with_room(rt.alloc(), 3)?;
    slots.add_free(1);
    slots.add_free(2);
    slots.take(1);
    slots.retire(1);
    assert!(rt; !slots.is_retired_empty());
    slots.take_batch();
    assert!(rt; slots.is_retired_empty());
    assert!(rt; !slots.is_batch_empty());
    slots.free_batch();
    assert!(rt; slots.is_batch_empty());
    slots.take(1);
    Ok(())
}
