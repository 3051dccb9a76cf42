// Indexes of two passes for the tests, how they end, and the updates that several tests make.
ghost use Rattle.std.specs.Prelude.{◌≡◌, ◌∷◌, [], None, IfSome};
ghost use Rattle.shared_index.specs.Keys.{AreAllKeys};

use bucket_terms::KeyPass;
use index_words::{PassSize, Update};
use key_map::{Done, PassError};
use shared_index::{PassKey, SharedIndex};
use std::alloc::Global;
use std::sync::Wait;

pub(crate) const fn size(nodes: u32, entries: u32, calls: u32) -> PassSize {
    PassSize {
        nodes,
        entries,
        calls,
    }
}

/// The items of a list of two, as the keys of an index of two passes.
pub(crate) fn both<T: Drop>(items: Vec<T>) -> Option<(T, T)>
    ensures { IfSome result (λ two. items.items ≡ two.0 ∷ two.1 ∷ []) }
{
    let mut items = items;
    let second = items.pop()?;
    let first = items.pop()?;
    if !items.is_empty() {
        return None;
    }
    Some((first, second))
}

/// An index of two passes, and its keys.
pub(crate) fn opened(
    alloc: Global,
    sizes: &[PassSize; 2],
) -> Option<(SharedIndex, PassKey, PassKey)>
    ensures { IfSome result (λ o. AreAllKeys o.0 (o.1 ∷ o.2 ∷ [])) }
{
    let Ok((index, keys)) = SharedIndex::open(alloc, sizes) else {
        return None;
    };
    match both(keys) {
        Some((first, second)) => Some((index, first, second)),
        None => None,
    }
}

/// The whole history of an index with these keys.
pub(crate) fn ended(
    alloc: Global,
    index: SharedIndex,
    first: PassKey,
    second: PassKey,
) -> Option<Vec<Update>>
    requires { AreAllKeys index (first ∷ second ∷ []) }
{
    let Ok(keys) = vec![in alloc; first, second] else {
        return None;
    };
    index.finish(alloc, keys).ok()
}

/// A put, which leaves no snapshot open.
pub(crate) fn put<P: KeyPass, R: Wait>(
    rt: &R,
    pass: &mut P,
    line: u32,
    key: u64,
    val: u64,
) -> Result<Done, PassError>
    requires closed { (P.view pass.old).opened ≡ None }
    ensures closed { (P.view pass.new).opened ≡ None }
    ensures number { (P.view pass.new).number ≡ (P.view pass.old).number }
    ensures home { P.home pass.new ≡ P.home pass.old }
{
    match pass.put(rt, line, key, val) {
        Ok(done) => Ok(done),
        Err(error) => Err(error),
    }
}

/// A removal, which leaves no snapshot open. What is known after it depends on whether the key was there.
pub(crate) fn remove<P: KeyPass, R: Wait>(
    rt: &R,
    pass: &mut P,
    line: u32,
    key: u64,
) -> Result<Done, PassError>
    requires closed { (P.view pass.old).opened ≡ None }
    ensures closed { (P.view pass.new).opened ≡ None }
    ensures number { (P.view pass.new).number ≡ (P.view pass.old).number }
    ensures home { P.home pass.new ≡ P.home pass.old }
{
    match pass.remove(rt, line, key) {
        Ok(done) if done.was => Ok(done),
        Ok(done) => Ok(done),
        Err(error) => Err(error),
    }
}
