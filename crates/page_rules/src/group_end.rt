// Where a group ends in the directory.
ghost use Rattle.std.specs.Prelude.{◌≡◌, ◌<◌, ◌≤◌, true, length};
ghost use Rattle.key_names.specs.Names.{name_at, begins_with};
ghost use Rattle.key_names.specs.Ranks.{is_upto_prefix, StandFirst};
ghost use Rattle.page_rules.specs.GroupEnd.{AreAroundEnd};

use key_names::Directory;

/// The rank of the first name after those that begin with this text, as the name at `rank` does: what
/// `Directory::past_prefix` returns. It is found in steps that double, so that a group of few names is left after few
/// comparisons, with names that stand near one another, however many names there are; a search among all names looks
/// all over the directory. Not inlined into the loop of a listing, which is slower with it.
#[inline(never)]
pub(crate) fn group_end(dir: &Directory, rank: u64, group: &str) -> u64
    requires rank { rank < length dir.now }
    requires begins { begins_with (name_at dir.now rank) group.now ≡ true }
    ensures within { result ≤ length dir.now }
    ensures first { StandFirst (λ name. is_upto_prefix name group.now) dir.now result }
{
    // for the proof: the call's clauses say that the names rise
    let _names = dir.len();
    let (mut inside, mut outside) = around_end(dir, rank, group);
    while inside + 1 < outside {
        let middle = inside + (outside - inside) / 2;
        if is_in(dir, middle, group) {
            inside = middle;
        } else {
            outside = middle;
        }
    }
    outside
}

// A rank within the group, and one after it.
fn around_end(dir: &Directory, rank: u64, group: &str) -> (u64, u64)
    requires rank { rank < length dir.now }
    requires begins { begins_with (name_at dir.now rank) group.now ≡ true }
    ensures { AreAroundEnd dir.now group.now result.0 result.1 }
{
    let mut inside = rank;
    let mut step = 1;
    while step < dir.len() - inside {
        let next = inside + step;
        if !is_in(dir, next, group) {
            return (inside, next);
        }
        inside = next;
        step *= 2;
    }
    (inside, dir.len())
}

// Whether the name at a rank begins with this text.
fn is_in(dir: &Directory, rank: u64, group: &str) -> bool
    requires { rank < length dir.now }
    ensures { result ≡ begins_with (name_at dir.now rank) group.now }
{
    dir.name(rank).as_str().starts_with(group)
}
