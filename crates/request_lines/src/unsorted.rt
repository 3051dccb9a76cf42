// A session that is read, and whose names are still to be sorted.
ghost use Rattle.std.specs.Prelude.{◌≡◌, ◌≤◌, length, IfOk};
ghost use Rattle.key_names.specs.Ranks.{most_names};

use crate::interner::Interner;
use crate::{ClientPart, Names, Session};
use bucket_terms::Record;
use key_map::Items;
use key_names::NoMemory;
use std::alloc::Global;
use std::marker::Model;
use std::thread::Threads;

/// What a text asks, whose names are still to be sorted. Contracts see the session that it becomes.
#[derive(Drop)]
pub(crate) struct UnsortedSession {
    // Each request has the number of its name in place of the rank.
    clients: Vec<ClientPart>,
    names: Interner,
    records: Vec<Record>,
}

impl Model for UnsortedSession {
    ghost use Rattle.std.specs.Prelude.{◌≤◌, length};
    ghost use Rattle.key_names.specs.Ranks.{most_names};
    ghost use Rattle.request_lines.specs.declared.session.Session.{Session as TheSession};

    ghost Value = { TheSession };

    ghost view = { λ s. record { clients = s.clients.items; names = s.names; records = s.records.items } };

    ghost invariant = { λ s. length s.names ≤ most_names };
}

impl UnsortedSession {
    /// The session with these parts, whose names have their numbers, these names and these records.
    pub(crate) fn of(
        clients: Vec<ClientPart>,
        names: Interner,
        records: Vec<Record>,
    ) -> UnsortedSession
        requires { length names ≤ most_names }
        ensures { result ≡ record { clients = clients.items; names = names; records = records.items } }
    {
        UnsortedSession {
            clients,
            names,
            records,
        }
    }

    /// The session. Its names are sorted, and each request gets the rank of its name.
    pub(crate) fn sorted(self, alloc: Global) -> Result<Session, NoMemory>
        ensures { IfOk result (λ session. session ≡ self) }
    {
        let UnsortedSession {
            clients,
            names,
            records,
        } = self;
        let (names, ranks) = names.ranked(alloc)?;
        Ok(with_ranks(clients, &ranks, names, records))
    }

    /// As `sorted`. Many names are sorted in parts, each on a thread of its own where one can be started.
    pub(crate) fn sorted_on_threads<Rt: Threads + Sync>(
        self,
        rt: &Rt,
        alloc: Global,
    ) -> Result<Session, NoMemory>
        ensures { IfOk result (λ session. session ≡ self) }
    {
        let UnsortedSession {
            clients,
            names,
            records,
        } = self;
        let (names, ranks) = names.ranked_on_threads(rt, alloc)?;
        Ok(with_ranks(clients, &ranks, names, records))
    }
}

// The session with these parts, whose names have their numbers, these ranks of the numbers, and these names and records.
fn with_ranks(
    mut clients: Vec<ClientPart>,
    ranks: &[usize],
    names: Names,
    records: Vec<Record>,
) -> Session
    ensures { result ≡ record { clients = clients.items; names = names; records = records.items } }
{
    rank_names(&mut clients, ranks);
    Session {
        clients: Items::from_vec(clients),
        names,
        records: Items::from_vec(records),
    }
}

// Puts the ranks of the names in place of their numbers.
fn rank_names(parts: &mut [ClientPart], ranks: &[usize])
    ensures { parts.new ≡ parts.old }
{
    for place in 0..parts.len() {
        parts[place].requests.rank_names(ranks);
    }
}
