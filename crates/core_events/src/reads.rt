// What needs and moves read of the words, and of a view.
ghost use Rattle.std.specs.Prelude.{◌≡◌, ◌==◌, ◌&&◌};
ghost use Rattle.index_words.specs.Words.{memory};
ghost use Rattle.index_words.specs.declared.word.Part.TheVariants.{Stamp as Number};
ghost use Rattle.index_words.specs.declared.word.Word.TheVariants.{Entry as EntryWord};
ghost use Rattle.key_map.specs.Lists.{has};
ghost use Rattle.core_events.specs.LoadNeeds.{reads_tree, is_reachable as reaches};
ghost use Rattle.core_events.specs.LoadMoves.{locks, is_above_at, is_above as above_section};

use index_words::{Field, HeldNode, Layout, Part, TreeNode, View, Word};

/// What a word holds, and 0 for a word that the table does not have.
pub fn held(layout: &Layout, words: &[u64], word: Word) -> u64
    ensures { result ≡ memory layout.now words.now word }
{
    if !layout.is_there(word) {
        return 0;
    }
    words
        .get(layout.address(word) as usize)
        .copied()
        .unwrap_or(0)
}

/// The written number of an entry, and 0 for an entry that the table does not have.
pub fn number_of(layout: &Layout, words: &[u64], entry: u64) -> u64
    ensures { result ≡ memory layout.now words.now (EntryWord Number entry) }
{
    if entry > u64::from(layout.entries) {
        return 0;
    }
    held(layout, words, Word::Entry(Part::Stamp, entry as u32))
}

pub fn is_in(slots: &[u32], slot: u32) -> bool
    ensures { result ≡ has slot slots.now }
{
    slots.contains(&slot)
}

fn is_in_tree(tree: &[TreeNode], node: u32) -> bool
    ensures { result ≡ reads_tree node tree.now }
{
    tree.iter().any(|own| own.slot == node)
}

/// Whether the seat may be looking at the node.
pub fn is_reachable(view: &View, node: u32) -> bool
    ensures { result ≡ reaches view.now node }
{
    node == 0
        || is_in_tree(view.reading.tree.as_slice(), node)
        || is_locked(view.held.nodes.as_slice(), node)
}

/// Whether the seat has locked the node.
pub fn is_locked(nodes: &[HeldNode], node: u32) -> bool
    ensures { result ≡ locks node nodes.now }
{
    nodes.iter().any(|held| held.node == node)
}

pub fn is_pending(view: &View, entry: u64) -> bool
    ensures { result ≡ has entry view.now.update.pending }
{
    view.update
        .pending
        .as_slice()
        .iter()
        .any(|own| u64::from(*own) == entry)
}

fn is_above_section(section: Option<u64>, found: Option<u64>, unnumbered: bool) -> bool
    ensures { result ≡ is_above_at section found unnumbered }
{
    match (section, found) {
        (Some(section), Some(found)) => section < found || unnumbered,
        (Some(_), None) => unnumbered,
        (None, _) => false,
    }
}

/// Whether the entry's number is known to be above the section number.
pub fn is_above(view: &View, entry: u32, found: Option<u64>) -> bool
    ensures { result ≡ above_section view.now entry found }
{
    let unnumbered = is_pending(view, u64::from(entry)) && view.update.raised.is_none();
    is_above_section(view.reading.section, found, unnumbered)
}
