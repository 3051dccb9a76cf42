// The places of the updates of a session's request lines.
ghost use Rattle.std.specs.Prelude.{◌≡◌, ◌<◌, [], Some, None, length, map, set, replicate, slice_index_or, IfOk};
ghost use Rattle.request_lines.specs.Session.{request_lines};
ghost use Rattle.replay_check.specs.Own.{AreOwn};

use key_names::NoMemory;
use request_lines::Session;
use std::alloc::Global;
use std::marker::Model;

/// For each request of a client the place of its update in a history, counted from 1. None if it has none.
#[derive(Drop)]
pub(crate) struct Table {
    places: Vec<Option<u64>>,
}

impl Model for Table {
    ghost use Rattle.std.specs.Prelude.{List, Option, ℕ};

    ghost Value = { List (Option ℕ) };

    ghost view = { λ t. t.places.items };
}

impl Table {
    // For this many requests without updates.
    fn new(alloc: Global, requests: usize) -> Result<Table, NoMemory>
        ensures { IfOk result (λ table. table ≡ replicate requests None) }
    {
        Ok(Table {
            places: Vec::from_elem(alloc, None, requests)?,
        })
    }

    /// The place of the update of the request at this place of the client's requests.
    pub(crate) fn get(&self, request: usize) -> Option<u64>
        requires { request < length self.now }
        ensures { result ≡ slice_index_or self.now request None }
    {
        self.places[request]
    }

    // Enters the place of the request's update.
    fn put(&mut self, request: usize, place: u64)
        requires { request < length self.old }
        ensures { self.new ≡ set self.old request (Some place) }
    {
        self.places[request] = Some(place);
    }
}

/// A table for each client, before the first update of a history.
pub(crate) fn no_places(alloc: Global, session: &Session) -> Result<Vec<Table>, NoMemory>
    ensures { IfOk result (λ tables. AreOwn (map request_lines session.now.clients) [] tables.items) }
{
    let mut tables = Vec::new(alloc);
    for part in session.clients.as_slice() {
        tables.push(Table::new(alloc, part.requests.len())?)?;
    }
    Ok(tables)
}

/// Enters the place of an update that a client's request has made.
pub(crate) fn enter(tables: &mut Vec<Table>, client: usize, request: usize, place: u64)
    requires client { client < length tables.old.items }
    requires request { request < length (slice_index_or tables.old.items client []) }
    ensures { tables.new.items ≡ set tables.old.items client (set (slice_index_or tables.old.items client []) request (Some place)) }
{
    tables[client].put(request, place);
}
