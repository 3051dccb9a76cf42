// How work is split in two.
ghost use Rattle.std.specs.Prelude.{◌<◌};

// At most this many calls are given out one by one. More are first given out by halves, so that no thread has to
// start very many others.
const ONE_BY_ONE: usize = 8;

/// How many of so many calls a new thread is given.
pub(crate) fn share_of(calls: usize) -> usize
    requires { 1 < calls }
    ensures some { 0 < result }
    ensures not_all { result < calls }
{
    if calls > ONE_BY_ONE { calls / 2 } else { 1 }
}
