//! Hints for long listings: at which node the searches met each key last. A listing that takes the keys one after
//! another loads the nodes of the keys ahead, and the newest entries of their bundles, into the processor's cache. No
//! contract speaks of the hints: a wrong one, and an old one whose node has another key by now, cost their loads alone.
//!
//! The loads of a batch wait for memory at once, where the search would wait for one after another.
ghost use Rattle.std.specs.Prelude.{◌≡◌};

use std::alloc::Global;
use table_steps::TablePass;

/// For how many keys nodes are loaded at once.
const BATCH: u64 = 16;

/// How many searches in a row a listing makes for keys near one another before it loads ahead, so that short ones load
/// nothing in vain.
const BEGIN: u32 = 3;

/// How far two keys of a row may lie apart.
const NEAR: u64 = 8;

/// The nodes of keys, and how far a listing has come.
#[derive(Drop)]
pub(crate) struct Hints {
    /// At a key's number its node, or 0 where none is known. It has its room from the start, and is empty until it is
    /// needed. None where no hints are kept.
    nodes: Option<Vec<u32>>,
    /// How many keys have a hint at most.
    bound: usize,
    /// Where a key from this one on is met, it is noted: 0 once one was.
    pub(crate) from: u64,
    /// The key of the last search that met a node.
    last: u64,
    /// How many of these searches in a row were for near keys, up to `BEGIN`.
    row: u32,
    /// The entries of the keys below this one have been loaded.
    loaded: u64,
}

impl Hints {
    /// No hints are kept.
    pub(crate) fn none() -> Hints {
        Hints {
            nodes: None,
            bound: 0,
            from: u64::MAX,
            last: 0,
            row: 0,
            loaded: 0,
        }
    }

    /// Room for the hints of the keys below a bound, which are kept once a key from `many` on was met. Without memory
    /// for them none are kept.
    pub(crate) fn below(alloc: Global, bound: u32, many: u32) -> Hints {
        if bound <= many {
            return Hints::none();
        }
        let Ok(nodes) = Vec::with_capacity(alloc, bound as usize) else {
            return Hints::none();
        };
        Hints {
            nodes: Some(nodes),
            bound: bound as usize,
            from: u64::from(many),
            last: 0,
            row: 0,
            loaded: 0,
        }
    }

    /// Notes at which node a search for `asked` met a key, and loads ahead where the search goes on with a listing.
    pub(crate) fn meet(&mut self, pass: &mut TablePass<'_>, asked: u64, key: u64, node: u32)
        ensures { pass.new ≡ pass.old }
    {
        let Some(nodes) = self.nodes.as_mut() else {
            return;
        };
        if nodes.is_empty() {
            begin(nodes, self.bound);
            self.from = 0;
        }
        if let Some(hint) = nodes.get_mut(key as usize) {
            *hint = node;
        }
        if asked != self.last && self.is_due(asked) {
            self.load_ahead(pass, asked);
        }
    }

    /// Whether a search for this key, the next one that has met a node, is to load ahead.
    fn is_due(&mut self, asked: u64) -> bool {
        let near = self.last <= asked && asked - self.last <= NEAR;
        self.last = asked;
        if !near {
            self.row = 0;
            return false;
        }
        if self.row >= BEGIN {
            return self.loaded <= asked;
        }
        self.row += 1;
        self.row == BEGIN
    }

    /// Loads the entries of the batch of keys that begins here, and the nodes of the next batch.
    fn load_ahead(&mut self, pass: &mut TablePass<'_>, from: u64)
        ensures { pass.new ≡ pass.old }
    {
        let Some(nodes) = self.nodes.as_ref() else {
            return;
        };
        let next = from.saturating_add(BATCH);
        if self.loaded != from {
            fetch_nodes(pass, nodes.as_slice(), from);
        }
        fetch_heads(pass, nodes.as_slice(), from);
        fetch_nodes(pass, nodes.as_slice(), next);
        self.loaded = next;
    }
}

/// No node is known yet. The list has room for so many: no memory is taken.
fn begin(nodes: &mut Vec<u32>, bound: usize) {
    let _ = nodes.resize(bound, 0);
}

/// The hints of a batch of keys.
fn batch(nodes: &[u32], from: u64) -> &[u32] {
    let from = (from as usize).min(nodes.len());
    let to = from.saturating_add(BATCH as usize).min(nodes.len());
    nodes.get(from..to).unwrap_or(&[])
}

/// Loads the nodes of a batch of keys.
fn fetch_nodes(pass: &mut TablePass<'_>, nodes: &[u32], from: u64)
    ensures { pass.new ≡ pass.old }
{
    'nodes: for node in batch(nodes, from) {
        if *node != 0 {
            pass.fetch_node(*node);
        }
    }
}

/// Loads the entries of a batch of keys, whose nodes have been loaded one batch before.
fn fetch_heads(pass: &mut TablePass<'_>, nodes: &[u32], from: u64)
    ensures { pass.new ≡ pass.old }
{
    'nodes: for node in batch(nodes, from) {
        if *node != 0 {
            pass.fetch_heads(*node);
        }
    }
}
