// The entries of a bundle, which of them a number selects, and how many are kept.
ghost use Rattle.std.specs.Prelude.{◌≡◌, ◌<◌, ◌↔◌, All, IsNone, IfSome};
ghost use Rattle.core_links.specs.Selection.{IsFirstPlace, IsKept, IsSelection, IsWalkedToPlace, KeepsSelected, NumberedAbove, StaysAtPlace, StaysBehindFront};
ghost use Rattle.core_links.specs.declared.entry.Entry.{Entry as BundleEntry};

/// An entry of a bundle.
#[derive(Clone, Copy, Debug, PartialEq, Eq)]
pub struct Entry {
    /// The child's slot from this entry's stamp on, 0 for none.
    pub child: u32,
    /// The number from which on the child is this one, 0 while the entry is pending.
    pub stamp: u64,
}

/// The place of the entry that the number `t` selects: the first whose stamp is at most `t`. None exactly if there is
/// none. Bundles have their newest entry first.
pub fn select(bundle: &[Entry], t: u64) -> Option<usize>
    requires written { All (λ (e : BundleEntry). 0 < e.stamp) bundle.now }
    ensures none { IsNone result ↔ NumberedAbove t bundle.now }
    ensures first { IfSome result (IsFirstPlace t bundle.now) }
    ensures selection { IsSelection t bundle.now result }
    ensures stays { StaysAtPlace t bundle.now result }
    ensures behind { StaysBehindFront t bundle.now result }
    ensures walked { IsWalkedToPlace t bundle.now result }
{
    first_at_most(bundle, t)
}

/// How many entries of a bundle are kept, from the front, if nobody reads at a number below `least`: up to and
/// including the one that `select` gives for it, or all. The entries after them may be cut off.
pub fn keep(bundle: &[Entry], least: u64) -> usize
    requires written { All (λ (e : BundleEntry). 0 < e.stamp) bundle.now }
    ensures kept { IsKept least bundle.now result }
    ensures selected { KeepsSelected least bundle.now result }
{
    match first_at_most(bundle, least) {
        Some(place) => place + 1,
        None => bundle.len(),
    }
}

// The place of the first entry whose stamp is at most `t`, also in a bundle with pending entries.
fn first_at_most(bundle: &[Entry], t: u64) -> Option<usize>
    ensures none { IsNone result → NumberedAbove t bundle.now }
    ensures first { IfSome result (IsFirstPlace t bundle.now) }
{
    for (place, entry) in bundle.iter().enumerate() {
        if entry.stamp <= t {
            return Some(place);
        }
    }
    None
}
