// Tables of one pass and of two for the tests.
ghost use Rattle.std.specs.Prelude.{◌≡◌, ◌∷◌, [], All, IfOk, IfSome};
ghost use Rattle.table_steps.specs.Closes.{AreAllKeys};
ghost use Rattle.table_steps.specs.Passes.{IsPassOf};

use index_words::{Layout, NoMemory, PassSize};
use std::alloc::Global;
use table_steps::{PassKey, SharedTable};

pub(crate) const ROOMY: (u32, u32, u32) = (3, 12, 8);

/// So many nodes, entries and calls.
pub(crate) fn size_of(size: (u32, u32, u32)) -> PassSize {
    let (nodes, entries, calls) = size;
    PassSize {
        nodes,
        entries,
        calls,
    }
}

/// A table of passes of these sizes.
pub(crate) fn opened(
    alloc: Global,
    sizes: &[PassSize],
) -> Result<(SharedTable, Vec<PassKey>), NoMemory>
    ensures of { IfOk result (λ t. All (IsPassOf t.0) t.1.items) }
    ensures all { IfOk result (λ t. AreAllKeys t.0 t.1.items) }
{
    match Layout::new(sizes) {
        Some(layout) => SharedTable::open(alloc, &layout, sizes),
        None => Err(NoMemory),
    }
}

/// The items of a list of two. What is proved of any type is proved faster: a key has many parts to drop.
pub(crate) fn both<T: Drop>(items: Vec<T>) -> Option<(T, T)>
    ensures { IfSome result (λ two. items.items ≡ two.0 ∷ two.1 ∷ []) }
{
    let mut items = items;
    let second = items.pop()?;
    let first = items.pop()?;
    if !items.is_empty() {
        return None;
    }
    Some((first, second))
}

/// A table of two passes of this size, with the keys of both.
pub(crate) fn two_passes(
    alloc: Global,
    size: (u32, u32, u32),
) -> Result<(SharedTable, PassKey, PassKey), NoMemory>
    ensures first { IfOk result (λ t. IsPassOf t.0 t.1) }
    ensures second { IfOk result (λ t. IsPassOf t.0 t.2) }
{
    let (table, keys) = opened(alloc, &[size_of(size); 2])?;
    match both(keys) {
        Some((first, second)) => Ok((table, first, second)),
        None => Err(NoMemory),
    }
}
