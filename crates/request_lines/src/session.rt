// What a session's text asks.
ghost use Rattle.std.specs.Prelude.{◌≡◌, ◌<◌, ◌^◌, length};
ghost use Rattle.bucket_terms.specs.LegalRun as spec;

use crate::{Names, Requests};
use bucket_terms::{Record, Request};
use key_map::Items;
use key_names::Directory;

/// One request and the number of its line, counted from 1.
#[derive(Debug, Drop)]
pub struct Asked {
    pub line: u32,
    pub request: Request,
}

/// What one client asks, in the order of its lines.
#[derive(Debug, Drop)]
pub struct ClientPart {
    pub requests: Requests,
}

/// What a text asks, client by client.
#[derive(Debug, Drop)]
pub struct Session {
    /// The place of a part, from 0, is the number of its client.
    pub clients: Items<ClientPart>,
    /// The names of all PUT, PUTNEW, DELETE and HEAD lines, in the order of the lines.
    pub names: Names,
    /// The records of all PUT and PUTNEW lines, in the order of the lines. A `Put` or `PutNew` names its record by the
    /// place, from 0.
    pub records: Items<Record>,
}

impl Session {
    ghost use Rattle.std.specs.Prelude.{[], All};
    ghost use Rattle.key_names.specs.Names.{IsFine, HoldsEachOnce};

    /// Takes the names out, and returns the directory that has them.
    ///
    /// ```
    /// let mut session = read_session(alloc, b"CLIENT\nPUT a 1 e1 10\nHEAD a\n")?;
    /// let dir = session.take_directory();
    /// assert_eq!(rt; (dir.len(), session.names.len()), (1, 0));
    /// ```
    pub fn take_directory(&mut self) -> Directory
        requires { All IsFine self.old.names }
        ensures directory { HoldsEachOnce self.old.names result }
        ensures session { self.new ≡ record self.old { names = [] } }
    {
        self.names.take().into_directory()
    }
}

impl ClientPart {
    ghost use Rattle.bucket_terms.specs.RunParts.{updates_in};
    ghost use Rattle.request_lines.specs.Session.{request_lines};

    /// How many of the requests may make an update: PUT, PUTNEW and DELETE lines.
    pub fn writes(&self) -> u32
        requires { length self.now.requests < 2 ^ 32 }
        ensures { result ≡ updates_in (request_lines self.now) }
    {
        let mut writes = 0;
        for asked in self.requests.as_slice() {
            writes += u32::from(is_update(&asked.request));
        }
        writes
    }
}

/// Whether the request is a PUT, a PUTNEW or a DELETE, which may make an update.
pub fn is_update(request: &Request) -> bool
    ensures { result ≡ spec.is_update request.now }
{
    matches!(
        request,
        Request::Put { .. } | Request::PutNew { .. } | Request::Delete { .. }
    )
}
