//! The index: how it is opened, and how a pass of it is taken up.
ghost use Rattle.std.specs.Prelude.{◌≡◌, ◌↔◌, All, IfOk, IsErrOf, None};
ghost use Rattle.index_words.specs.Sizes.{FitTable};
ghost use Rattle.shared_index.specs.Keys.{AreAllKeys, AreFresh, IsKeyOf};

use crate::facts::own_facts;
use crate::pass::IndexPass;
use bucket_terms::Homed;
use index_words::{Layout, NoMemory, PassSize};
use snapshot_read::Way;
use std::alloc::Global;
use std::marker::Model;
use table_steps::{PassKey, SharedTable};

/// The trees of fewer keys mostly stay in the processor's cache, so that their listings need no hints.
const MANY: u32 = 32_768;

/// An ordered map that passes share. Contracts see which table it is kept in, and that table's layout.
#[derive(Drop)]
pub struct SharedIndex {
    pub(crate) table: SharedTable,
    /// How many keys a pass has hints of at most.
    pub(crate) hints: u32,
    /// Where the memory of the hints comes from.
    pub(crate) alloc: Global,
}

impl Model for SharedIndex {
    ghost use Rattle.table_rule.specs.Homes.{Home};

    ghost Value = { Home };

    ghost view = { λ x. x.table };
}

impl Homed for SharedIndex {
    ghost use Rattle.shared_index.specs.Keys.{home_of_index};

    ghost home = { home_of_index };
}

/// Why no index was opened.
#[derive(Clone, Copy, Debug, PartialEq, Eq)]
pub enum OpenError {
    /// No table can have these sizes.
    BadSizes,
    NoMemory,
}

impl SharedIndex {
    /// Opens an index for passes of these sizes, with an empty history. The keys are all keys of the index, each once,
    /// in the order of the sizes: key `i` has the number `i`, and the slots and calls of size `i`, all of them free.
    /// All memory that later calls use is taken here, except that of `finish` and of the hints of `attach`.
    ///
    /// ```
    /// let size = PassSize { nodes: 8, entries: 32, calls: 8 };
    /// let (index, keys) = SharedIndex::open(alloc, &[size, size])?;
    /// assert_eq!(rt; keys.len(), 2);
    /// ```
    ///
    /// # Errors
    /// `BadSizes` if there are no sizes or more than 32 of them, if one has no node or fewer than 4 entries, or if the
    /// sum of nodes is above 262,144, of entries above 1,048,576 or of calls above 16,777,216.
    pub fn open(alloc: Global, sizes: &[PassSize]) -> Result<(SharedIndex, Vec<PassKey>), OpenError>
        ensures bad_sizes { IsErrOf result OpenError.BadSizes ↔ (¬ FitTable sizes.now) }
        ensures of { IfOk result (λ opened. All (IsKeyOf opened.0) opened.1.items) }
        ensures all { IfOk result (λ opened. AreAllKeys opened.0 opened.1.items) }
        ensures fresh { IfOk result (λ opened. AreFresh 0 sizes.now opened.1.items) }
    {
        let Some(layout) = Layout::new(sizes) else {
            return Err(OpenError::BadSizes);
        };
        match SharedTable::open(alloc, &layout, sizes) {
            Ok((table, keys)) => Ok((
                SharedIndex {
                    table,
                    hints: layout.nodes,
                    alloc,
                },
                keys,
            )),
            Err(NoMemory) => Err(OpenError::NoMemory),
        }
    }

    /// The table that the index is kept in. A key of the index is one of the table, and may be taken up there.
    pub fn table(&self) -> &SharedTable
        ensures { result.now ≡ self.now }
    {
        &self.table
    }

    /// Takes up the work of a pass. No snapshot is open, and everything else is as the key has it. If the index has
    /// many node slots, the pass takes memory for hints, 4 bytes a slot, by which long listings load ahead. Without
    /// that memory its answers are the same.
    ///
    /// ```
    /// let mut pass = index.attach(key);
    /// let done = pass.put(&rt, 1, 5, 50)?;
    /// pass.begin();
    /// assert_eq!(rt; pass.next_from(&rt, 0), Some(Pair { key: 5, val: 50 }));
    /// pass.end();
    /// ```
    pub fn attach(&self, key: PassKey) -> IndexPass<'_>
        requires of { IsKeyOf self.now key }
        ensures same { result ≡ key }
        ensures closed { result.view.reading.opened ≡ None }
    {
        let pass = self.table.attach(key);
        own_facts(&pass);
        let way = Way::hinting(self.alloc, self.hints, MANY);
        IndexPass {
            pass,
            way,
            vain: None,
        }
    }
}
