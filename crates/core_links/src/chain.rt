// Whether entries are a whole chain, from its head on.
ghost use Rattle.std.specs.Prelude.{◌<◌, ◌↔◌, IsTrue, All, length, slice_index};
ghost use Rattle.core_links.specs.Bundle.{IsChain, IsOnlyChain};

/// Whether the entries are all of those from the head on: each of the others is the next of the one before, and after
/// the last there is none. `nexts` has the next of each entry, indexed by the entry; 0 is none.
pub fn is_chain(nexts: &[u32], head: u32, entries: &[u32]) -> bool
    requires listed { All (λ e. e < length nexts.now) entries.now }
    ensures chain { IsTrue result ↔ IsChain (slice_index nexts.now) head entries.now }
    ensures only { IsTrue result → IsOnlyChain (slice_index nexts.now) head entries.now }
{
    follows_nexts(nexts, head, entries)
}

fn follows_nexts(nexts: &[u32], head: u32, entries: &[u32]) -> bool
    requires { All (λ e. e < length nexts.now) entries.now }
    ensures { IsTrue result ↔ IsChain (slice_index nexts.now) head entries.now }
{
    let mut at = head;
    for entry in entries {
        if at != *entry || *entry == 0 {
            return false;
        }
        at = nexts[*entry as usize];
    }
    at == 0
}
