// The sizes of a table, and their limits.
ghost use Rattle.std.specs.Prelude.{◌≡◌, ◌≤◌, ◌↔◌, IsSome, IfSome, IsTrue, length};
ghost use Rattle.index_words.specs.Sizes.{FitTable, IsPassSize, layout_of, all_nodes, all_entries, all_calls};

use key_map::PassSize;

/// The sizes of a table: how many passes share it, and over all passes the node slots, the entry slots
/// and the updates that they may make. Node 0 is the root; nodes 1 to `nodes` and entries 1 to `entries`
/// are slots.
#[derive(Clone, Copy, Debug, PartialEq, Eq)]
pub struct Layout {
    pub passes: u32,
    pub nodes: u32,
    pub entries: u32,
    pub calls: u32,
}

const MAX_PASSES: usize = 32;

const MAX_NODES: u64 = 262_144;

const MAX_ENTRIES: u64 = 1_048_576;

const MAX_CALLS: u64 = 16_777_216;

/// An update takes up to one node and four entries.
fn can_update(size: &PassSize) -> bool
    ensures { IsTrue result ↔ IsPassSize size.now }
{
    size.nodes > 0 && size.entries >= 4
}

fn sum_of_nodes(sizes: &[PassSize]) -> u64
    requires { length sizes.now ≤ 32 }
    ensures { result ≡ all_nodes sizes.now }
{
    let mut sum: u64 = 0;
    for size in sizes {
        sum += u64::from(size.nodes);
    }
    sum
}

fn sum_of_entries(sizes: &[PassSize]) -> u64
    requires { length sizes.now ≤ 32 }
    ensures { result ≡ all_entries sizes.now }
{
    let mut sum: u64 = 0;
    for size in sizes {
        sum += u64::from(size.entries);
    }
    sum
}

fn sum_of_calls(sizes: &[PassSize]) -> u64
    requires { length sizes.now ≤ 32 }
    ensures { result ≡ all_calls sizes.now }
{
    let mut sum: u64 = 0;
    for size in sizes {
        sum += u64::from(size.calls);
    }
    sum
}

impl Layout {
    /// The layout of a table with these passes. None if there are none or more than 32 of them, if one has no node or
    /// fewer than 4 entries, or if the sum of nodes is above 262,144, of entries above 1,048,576 or of calls above
    /// 16,777,216.
    pub fn new(sizes: &[PassSize]) -> Option<Layout>
        ensures fits { IsSome result ↔ FitTable sizes.now }
        ensures sums { IfSome result (λ z. z ≡ layout_of sizes.now) }
    {
        if sizes.is_empty() || sizes.len() > MAX_PASSES || !sizes.iter().all(can_update) {
            return None;
        }
        let nodes = sum_of_nodes(sizes);
        let entries = sum_of_entries(sizes);
        let calls = sum_of_calls(sizes);
        if nodes > MAX_NODES || entries > MAX_ENTRIES || calls > MAX_CALLS {
            return None;
        }
        Some(Layout {
            passes: sizes.len() as u32,
            nodes: nodes as u32,
            entries: entries as u32,
            calls: calls as u32,
        })
    }
}
