// The first put of a table by single steps. All numbers are handwritten.
ghost use Rattle.std.specs.Prelude.{◌≡◌, true, IfOk};
ghost use Rattle.index_words.specs.declared.side.Side.TheVariants.{Right};
ghost use Rattle.core_events.specs.LockMoves.{locked_view};
ghost use Rattle.core_events.specs.PlainMoves.{link_loaded, tag_loaded};
ghost use Rattle.core_laws.specs.PlainNeeds.{MayReadLink};
ghost use Rattle.table_tests.specs.FirstPut.{at_start, at_seen, at_root, at_pair, at_locked_root};
ghost use Rattle.table_steps.specs.Passes.{IsPassOf};

use crate::rows::{Row, have_answers};
use crate::set_up::both;
use index_words::{Change, Layout, NoMemory, Pair, PassSize, Side};
use std::alloc::Global;
use std::sync::Wait;
use std::test::Fail;
use table_steps::{PassKey, SharedTable, TablePass};

const SIZE: PassSize = PassSize {
    nodes: 1,
    entries: 4,
    calls: 1,
};

/// A table of two passes with the keys of both.
fn opened(alloc: Global) -> Result<(SharedTable, PassKey, PassKey), NoMemory>
    ensures one { IfOk result (λ t. IsPassOf t.0 t.1) }
    ensures two { IfOk result (λ t. IsPassOf t.0 t.2) }
    ensures start { IfOk result (λ t. t.1.view ≡ at_start) }
{
    let sizes = [SIZE; 2];
    let Some(layout) = Layout::new(&sizes) else {
        return Err(NoMemory);
    };
    let (table, keys) = SharedTable::open(alloc, &layout, &sizes)?;
    match both(keys) {
        Some((one, two)) => Ok((table, one, two)),
        None => Err(NoMemory),
    }
}

/// Enters a section. Returns whether there is no update yet.
fn sees_nothing(pass: &mut TablePass<'_>) -> bool
    requires start { pass.old.view ≡ at_start }
    ensures { result ≡ true → pass.new.view ≡ at_seen }
{
    pass.enter();
    pass.load_stamp() == 0
}

/// Whether the root's plain link is null, with the tag 0.
fn has_no_child(pass: &mut TablePass<'_>) -> bool
    requires may { MayReadLink pass.old.view 0 Right }
    ensures { result ≡ true → pass.new.view ≡ tag_loaded (link_loaded pass.old.view 0 Right 0) 0 Right 0 }
{
    pass.load_link(0, Side::Right) == 0 && pass.load_tag(0, Side::Right) == 0
}

/// Announces that it has seen no update. Returns whether there is still none, and no child at the root.
fn reads_nothing(pass: &mut TablePass<'_>) -> bool
    requires seen { pass.old.view ≡ at_seen }
    ensures { result ≡ true → pass.new.view ≡ at_root }
{
    pass.number_fact();
    pass.announce(Some(0));
    pass.load_stamp() == 0 && has_no_child(pass)
}

/// Fills node 1 with key 5 and value 7, and entry 1, which leads to it. Both were never used, so their other words are
/// known to be 0.
fn fill_pair(pass: &mut TablePass<'_>)
    requires root { pass.old.view ≡ at_root }
    ensures { pass.new.view ≡ at_pair }
{
    pass.fill(15, 5);
    pass.fill(16, 7);
    pass.fill(35, 1);
}

/// Whether the locked root is unmarked, still without a child, and without an entry.
fn is_bare(pass: &mut TablePass<'_>) -> bool
    requires locked { pass.old.view ≡ locked_view at_pair 0 }
    ensures { result ≡ true → pass.new.view ≡ at_locked_root }
{
    if pass.load_mark(0) {
        return false;
    }
    has_no_child(pass) && pass.load_head(0, Side::Right) == 0
}

/// Locks the root. Returns whether it is unmarked, still without a child, and without an entry.
fn locks_root(pass: &mut TablePass<'_>) -> bool
    requires filled { pass.old.view ≡ at_pair }
    ensures { result ≡ true → pass.new.view ≡ at_locked_root }
{
    if pass.try_lock(0) {
        is_bare(pass)
    } else {
        false
    }
}

/// Raises the put that is ready, and ends it. Returns its place.
fn put_by_steps(pass: &mut TablePass<'_>) -> u64
    requires locked { pass.old.view ≡ at_locked_root }
{
    pass.number_fact();
    pass.prepare(0, Side::Right, 1);
    let place = pass.raise(2, 5, Change::Put(7), [1, 0, 0], [0, 0]);
    pass.finalise(1);
    pass.set_link(0, Side::Right, 1);
    pass.unlock(0);
    pass.close_section();
    place
}

/// The place of a put by single steps. None if the pass finds another table than one without updates.
fn place_of_put(pass: &mut TablePass<'_>) -> Option<u64>
    requires start { pass.old.view ≡ at_start }
{
    if sees_nothing(pass) && reads_nothing(pass) {
        fill_pair(pass);
        if locks_root(pass) {
            return Some(put_by_steps(pass));
        }
    }
    None
}

const SEEN: [Row; 2] = [
    Row::First(0, 1, Some(Pair { key: 5, val: 7 })),
    Row::First(6, 1, None),
];

/// The place of the put, and whether the other pass then sees the pair.
fn put_and_seen<R: Wait>(rt: &R, alloc: Global) -> Result<(Option<u64>, bool), NoMemory> {
    let (table, one, two) = opened(alloc)?;
    let place = place_of_put(&mut table.attach(one));
    let is_seen = have_answers(rt, alloc, &mut table.attach(two), &SEEN);
    Ok((place, is_seen))
}

#[test]
fn the_first_put_by_single_steps_fills_three_words(rt: HostRuntime) -> Result<(), Fail> {
    assert_eq!(rt; put_and_seen(&rt, rt.alloc())?, (Some(1), true));
    Ok(())
}
