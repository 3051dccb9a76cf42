// Where the directory may have the names of a client's requests.
ghost use Rattle.std.specs.Prelude.{◌≡◌, Some, IfSome};
ghost use Rattle.key_names.specs.Names.{IsRank};
ghost use Rattle.client_run.specs.Hints.{IsRightHint};

use key_names::{Directory, Text};
use request_lines::Requests;

// The names of this many requests are looked at before the first of them is answered. Each may lie anywhere in memory,
// and this way the waits for all of them overlap.
const AHEAD: usize = 16;

/// Where the directory may have the name of a request, and how many bytes the name there has.
#[derive(Clone, Copy)]
pub(crate) struct Hint {
    rank: u64,
    len: usize,
}

impl Hint {
    // A hint that is right for no name: each name has at least one byte.
    fn none() -> Hint {
        Hint { rank: 0, len: 0 }
    }

    // The hint for the request at this place.
    fn of(dir: &Directory, requests: &Requests, place: usize) -> Hint {
        let rank = requests.rank(place) as u64;
        if rank < dir.len() {
            let len = dir.name(rank).bytes().len();
            return Hint { rank, len };
        }
        Hint::none()
    }

    /// The rank, if the name there is this one and has this many bytes.
    pub(crate) fn rank_of(&self, dir: &Directory, name: &Text) -> Option<u64>
        ensures rank { IfSome result (IsRank dir.now name.now) }
        ensures right { IsRightHint dir.now name.now self.now → result ≡ Some self.now.rank }
    {
        if self.len == name.bytes().len()
            && self.rank < dir.len()
            && dir.name(self.rank).as_str() == name.as_str()
        {
            return Some(self.rank);
        }
        None
    }
}

/// The hints for some requests that follow one another.
#[derive(Clone, Copy)]
pub(crate) struct Hints {
    hints: [Hint; AHEAD],
}

impl Hints {
    /// Before the first request.
    pub(crate) fn none() -> Hints {
        Hints {
            hints: [Hint::none(); AHEAD],
        }
    }

    /// The hint for the request at this place. The places are those from 0 on, one after another.
    pub(crate) fn at(&mut self, dir: &Directory, requests: &Requests, place: usize) -> Hint {
        if place % AHEAD == 0 {
            self.look(dir, requests, place);
        }
        self.hints[place % AHEAD]
    }

    // Looks at the names of the requests from this place on.
    fn look(&mut self, dir: &Directory, requests: &Requests, first: usize) {
        for ahead in 0..AHEAD {
            self.hints[ahead] = Hint::of(dir, requests, first.saturating_add(ahead));
        }
    }
}
