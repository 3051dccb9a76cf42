// Openings of an index, and passes that put many keys, also on two threads.
ghost use Rattle.std.specs.Prelude.{◌≡◌, ◌∷◌, [], ◌<◌, IsSome, None};
ghost use Rattle.shared_index.specs.Keys.{AreAllKeys, IsKeyOf};

use crate::set_up::{ended, opened, put, size};
use bucket_terms::KeyPass;
use index_words::{Pair, PassSize};
use shared_index::{OpenError, PassKey, SharedIndex};
use std::alloc::Global;
use std::sync::Wait;
use std::test::Fail;
use std::thread::{Threads, join};

/// Whether no table takes these sizes.
fn are_refused(alloc: Global, sizes: &[PassSize]) -> bool {
    matches!(SharedIndex::open(alloc, sizes), Err(OpenError::BadSizes))
}

#[test]
fn sizes_that_no_table_takes_are_refused(rt: HostRuntime) -> Result<(), Fail> {
    assert!(rt; are_refused(rt.alloc(), &[]));
    assert!(rt; are_refused(rt.alloc(), &[size(4, 3, 8)]));
    Ok(())
}

/// Puts twenty keys, from one on.
fn put_twenty<P: KeyPass, R: Wait>(rt: &R, pass: &mut P, from: u64)
    requires closed { (P.view pass.old).opened ≡ None }
    requires small { from < 1000 }
    ensures closed { (P.view pass.new).opened ≡ None }
    ensures number { (P.view pass.new).number ≡ (P.view pass.old).number }
    ensures home { P.home pass.new ≡ P.home pass.old }
{
    for i in 0..20 {
        let _ = put(rt, pass, 1, from + i, i);
    }
}

/// Whether the open snapshot has exactly the keys of `put_twenty`, in order, from this one on.
fn lists_twenty<P: KeyPass, R: Wait>(rt: &R, pass: &mut P, from: u64) -> bool
    requires open { IsSome (P.view pass.old).opened }
    requires small { from < 1000 }
    ensures same { P.view pass.new ≡ P.view pass.old }
{
    for i in 0..20 {
        let Some(found) = pass.next_from(rt, from + i) else {
            return false;
        };
        if found.key != from + i || found.val != i {
            return false;
        }
    }
    pass.next_from(rt, from + 20).is_none()
}

/// Whether this is the first pair of the open snapshot from its key on.
fn finds<P: KeyPass, R: Wait>(rt: &R, pass: &mut P, from: u64, pair: Pair) -> bool
    requires open { IsSome (P.view pass.old).opened }
    ensures same { P.view pass.new ≡ P.view pass.old }
{
    pass.next_from(rt, from) == Some(pair)
}

/// Whether the open snapshot lists the keys of `put_twenty` from 100 on, after searches in the middle of them, and is
/// then searched from the least key on.
fn is_searched_and_listed<P: KeyPass, R: Wait>(rt: &R, pass: &mut P) -> bool
    requires open { IsSome (P.view pass.old).opened }
    ensures same { P.view pass.new ≡ P.view pass.old }
{
    finds(rt, pass, 110, Pair { key: 110, val: 10 })
        && finds(rt, pass, 105, Pair { key: 105, val: 5 })
        && lists_twenty(rt, pass, 100)
        && finds(rt, pass, 0, Pair { key: 100, val: 0 })
}

/// Puts twenty keys from 100 on. Returns the place of a snapshot after them, and whether it lists them.
fn put_and_listed<P: KeyPass, R: Wait>(rt: &R, pass: &mut P) -> (u64, bool)
    requires { (P.view pass.old).opened ≡ None }
{
    put_twenty(rt, pass, 100);
    let at = pass.begin();
    let is_listed = is_searched_and_listed(rt, pass);
    pass.end();
    (at, is_listed)
}

/// The same, of pass 0 of an index.
fn listed_by_first<R: Wait>(rt: &R, alloc: Global) -> Option<(u64, bool)> {
    let (index, first, _second) = opened(alloc, &[size(20, 200, 20); 2])?;
    Some(put_and_listed(rt, &mut index.attach(first)))
}

#[test]
fn keys_put_in_rising_order_are_listed_in_it(rt: HostRuntime) -> Result<(), Fail> {
    assert_eq!(rt; listed_by_first(&rt, rt.alloc()), Some((20, true)));
    Ok(())
}

/// The pass of a key puts twenty keys, and gives its key back.
fn put_by_key<R: Wait>(rt: &R, index: &SharedIndex, key: PassKey, from: u64) -> PassKey
    requires of { IsKeyOf index.now key }
    requires small { from < 1000 }
    ensures of { IsKeyOf index.now result }
    ensures number { result.number ≡ key.number }
{
    let mut pass = index.attach(key);
    put_twenty(rt, &mut pass, from);
    pass.detach()
}

/// Two passes put keys at once, some of them the same.
fn at_once<R: Threads + Wait + Sync>(
    rt: &R,
    index: &SharedIndex,
    first: PassKey,
    second: PassKey,
) -> (PassKey, PassKey)
    requires { AreAllKeys index.now (first ∷ second ∷ []) }
    ensures { AreAllKeys index.now (result.0 ∷ result.1 ∷ []) }
{
    join(
        rt,
        || -> PassKey
            requires { IsKeyOf index.now first }
            ensures { IsKeyOf index.entry.now result × (result.number ≡ first.number) }
        { put_by_key(rt, index, first, 0) },
        || -> PassKey
            requires { IsKeyOf index.now second }
            ensures { IsKeyOf index.entry.now result × (result.number ≡ second.number) }
        { put_by_key(rt, index, second, 10) },
    )
}

/// How many updates the history has at the end.
fn updates_at_once<R: Threads + Wait + Sync>(rt: &R, alloc: Global) -> Option<usize> {
    let (index, first, second) = opened(alloc, &[size(20, 200, 20); 2])?;
    let (first, second) = at_once(rt, &index, first, second);
    Some(ended(alloc, index, first, second)?.len())
}

#[test]
fn two_passes_on_two_threads(rt: HostRuntime) -> Result<(), Fail> {
    assert_eq!(rt; updates_at_once(&rt, rt.alloc()), Some(40));
    Ok(())
}
