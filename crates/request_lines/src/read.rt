// The session of a text, read on one thread.
ghost use Rattle.std.specs.Prelude.{◌≤◌, length, IfOk};
ghost use Rattle.request_lines.specs.Input.{most_input_bytes, IsSessionOf};
ghost use Rattle.request_lines.specs.Refusal.{IsRefused};
ghost use Rattle.request_lines.specs.SessionLaws.{HasNames, HasRecords, HasRequests, HasLines, IsSmall};

use crate::reader::Reader;
use crate::unsorted::UnsortedSession;
use crate::{Session, SessionError};
use std::alloc::Global;

/// The session of a text, or the first line that has a cause, with its first cause.
///
/// ```
/// let session = read_session(alloc, b"CLIENT\nPUT a 1 e1 10\nHEAD a\n")?;
/// assert_eq!(rt; session.clients.as_slice().len(), 1);
/// assert_eq!(rt; session.names.len(), 2);
/// ```
pub fn read_session(alloc: Global, bytes: &[u8]) -> Result<Session, SessionError>
    requires { length bytes.now ≤ most_input_bytes }
    ensures session { IfOk result (IsSessionOf bytes.now) }
    ensures refused { IsRefused bytes.now result }

    // What the layers above need of every session.
    ensures names { IfOk result HasNames }
    ensures records { IfOk result HasRecords }
    ensures requests { IfOk result HasRequests }
    ensures lines { IfOk result HasLines }
    ensures small { IfOk result IsSmall }
{
    Ok(read_lines(alloc, bytes)?.sorted(alloc)?)
}

/// The same, and the names are still to be sorted.
pub(crate) fn read_lines(alloc: Global, bytes: &[u8]) -> Result<UnsortedSession, SessionError>
    requires { length bytes.now ≤ most_input_bytes }
    ensures session { IfOk result (IsSessionOf bytes.now) }
    ensures refused { IsRefused bytes.now result }

    // What the layers above need of every session.
    ensures names { IfOk result HasNames }
    ensures records { IfOk result HasRecords }
    ensures requests { IfOk result HasRequests }
    ensures lines { IfOk result HasLines }
    ensures small { IfOk result IsSmall }
{
    let mut reader = Reader::new(alloc);
    reader.take_in_turn(alloc, bytes)?;
    reader.finish()
}
