//! How the index ends, with its whole history.
ghost use Rattle.std.specs.Prelude.{◌≡◌, IfOk, IfErr};
ghost use Rattle.table_steps.specs.Closes.{AreMadeBy, BeginsWithSeen, StandAtOwnPlaces};
ghost use Rattle.shared_index.specs.Keys.{AreAllKeys};

use crate::index::SharedIndex;
use index_words::Update;
use std::alloc::Global;
use table_steps::{CloseError, PassKey};

/// There was no memory for the history. The index and the keys come back as they were.
#[derive(Drop)]
pub struct FinishError {
    pub index: SharedIndex,
    pub keys: Vec<PassKey>,
}

impl SharedIndex {
    /// Ends the index and gives its whole history. It begins with what each of the keys has seen, and so with what each
    /// note had that one of them heard. Each update was made by a pass of one of the keys, and the updates of each of
    /// them stand at its own places.
    ///
    /// ```
    /// let keys = vec![in alloc; first.detach(), second.detach()]?;
    /// let history = index.finish(alloc, keys)?;
    /// ```
    ///
    /// # Errors
    /// Only out of memory; the index and the keys then come back unchanged.
    pub fn finish(self, alloc: Global, keys: Vec<PassKey>) -> Result<Vec<Update>, FinishError>
        requires all { AreAllKeys self keys.items }
        ensures seen { IfOk result (λ history. BeginsWithSeen keys.items history.items) }
        ensures clients { IfOk result (λ history. AreMadeBy keys.items history.items) }
        ensures places { IfOk result (λ history. StandAtOwnPlaces keys.items history.items) }
        ensures index_unchanged { IfErr result (λ e. e.index ≡ self) }
        ensures keys_unchanged { IfErr result (λ e. e.keys.items ≡ keys.items) }
    {
        let SharedIndex {
            table,
            hints,
            alloc: source,
        } = self;
        match table.close(alloc, keys) {
            Ok(history) => Ok(history),
            Err(CloseError { table, keys }) => Err(FinishError {
                index: SharedIndex {
                    table,
                    hints,
                    alloc: source,
                },
                keys,
            }),
        }
    }
}
