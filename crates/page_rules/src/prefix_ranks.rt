// The ranks of the names that begin with a prefix.
ghost use Rattle.std.specs.Prelude.{◌≡◌, ◌≤◌, ◌<◌, ◌&&◌, nat_le, nat_lt, length, IfSome};
ghost use Rattle.key_names.specs.Ranks.{is_before, StandFirst};
ghost use Rattle.page_rules.specs.PrefixRanks.{AreOfPrefix};

use key_names::Directory;

/// The names of a directory that begin with a prefix: those from the rank `start` up to the rank `end`.
#[derive(Clone, Copy, Debug, PartialEq, Eq)]
pub struct PrefixRanks {
    pub(crate) start: u64,
    pub(crate) end: u64,
}

impl PrefixRanks {
    /// The ranks of the names that begin with the prefix, by two searches.
    pub(crate) fn of(dir: &Directory, prefix: &[u8]) -> PrefixRanks
        ensures { AreOfPrefix dir.now prefix.now result }
    {
        PrefixRanks {
            start: dir.at_or_after(prefix),
            end: dir.past_prefix(prefix),
        }
    }

    /// Whether the rank is one of these.
    #[inline(always)]
    pub(crate) fn has(&self, rank: u64) -> bool
        ensures { result ≡ (nat_le self.now.start rank && nat_lt rank self.now.end) }
    {
        self.start <= rank && rank < self.end
    }
}

/// The rank of the first name that is not below the prefix: by a search, where the ranks are not known.
pub(crate) fn start_of(dir: &Directory, prefix: &[u8], ranks: Option<PrefixRanks>) -> u64
    requires { IfSome ranks (AreOfPrefix dir.now prefix.now) }
    ensures within { result ≤ length dir.now }
    ensures first { StandFirst (λ name. is_before name prefix.now) dir.now result }
{
    match ranks {
        Some(ranks) => ranks.start,
        None => dir.at_or_after(prefix),
    }
}
