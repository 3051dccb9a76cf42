// A client's requests, and which name of the session each of them is about.
ghost use Rattle.std.specs.Prelude.{◌≡◌, ◌++◌, ◌∷◌, [], length, OnOk};

use crate::Asked;
use key_names::NoMemory;
use std::alloc::Global;
use std::marker::Model;

/// The requests of a client, in the order of their lines. Contracts see the list of them. Next to each request it
/// keeps the rank of its name among the session's names, so that no one has to search for it: see `rank`.
#[derive(Debug, Drop)]
pub struct Requests {
    asked: Vec<Asked>,
    // As many as requests were read, 0 for one without a name; none where the requests are a caller's.
    ranks: Vec<usize>,
}

impl Model for Requests {
    ghost use Rattle.std.specs.Prelude.{List};
    ghost use Rattle.request_lines.specs.declared.session.Asked.{Asked as AskedLine};

    ghost Value = { List AskedLine };

    ghost view = { λ r. r.asked.items };
}

impl Requests {
    /// No requests.
    pub fn new(alloc: Global) -> Requests
        ensures { result ≡ [] }
    {
        Requests {
            asked: Vec::new(alloc),
            ranks: Vec::new(alloc),
        }
    }

    /// No requests, and room for so many, if available.
    pub(crate) fn with_room(alloc: Global, count: usize) -> Requests
        ensures { result ≡ [] }
    {
        let mut requests = Requests::new(alloc);
        // Without the room the lists grow as they are filled.
        let _ = requests.asked.reserve(count);
        let _ = requests.ranks.reserve(count);
        requests
    }

    /// The requests of a vector, whose memory is reused. Their names are looked for at rank 0 first.
    pub fn from_vec(asked: Vec<Asked>) -> Requests
        ensures { result ≡ asked.items }
    {
        let ranks = Vec::new(*asked.allocator());
        Requests { asked, ranks }
    }

    /// The requests alone, in the memory that they have.
    pub fn into_vec(self) -> Vec<Asked>
        ensures { result.items ≡ self }
    {
        let Requests { asked, ranks: _ } = self;
        asked
    }

    pub fn len(&self) -> usize
        ensures { result ≡ length self.now }
    {
        self.asked.len()
    }

    pub fn as_slice(&self) -> &[Asked]
        ensures { result.now ≡ self.now }
    {
        self.asked.as_slice()
    }

    /// Where to look for the name of the request at this place: its rank in a directory of exactly the session's
    /// names. Another directory may have another name there, so that a caller has to compare.
    pub fn rank(&self, place: usize) -> usize {
        self.ranks.get(place).copied().unwrap_or(0)
    }

    /// Adds a request about the name of this number.
    pub(crate) fn push(&mut self, asked: Asked, number: usize) -> Result<(), NoMemory>
        ensures { OnOk result (self.new ≡ self.old ++ asked ∷ []) }
    {
        self.ranks.push(number)?;
        self.asked.push(asked)?;
        Ok(())
    }

    /// Gives back the room that no request has taken.
    pub(crate) fn shrink_to_fit(&mut self)
        ensures { self.new ≡ self.old }
    {
        self.asked.shrink_to_fit();
        self.ranks.shrink_to_fit();
    }

    /// Puts the ranks of the names in place of their numbers.
    pub(crate) fn rank_names(&mut self, ranks: &[usize])
        ensures { self.new ≡ self.old }
    {
        for place in 0..self.ranks.len() {
            self.ranks[place] = ranks.get(self.ranks[place]).copied().unwrap_or(0);
        }
    }
}
