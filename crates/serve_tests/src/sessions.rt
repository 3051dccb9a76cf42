// The sessions of the tests.
ghost use Rattle.std.specs.Prelude.{IfOk};
ghost use Rattle.request_lines.specs.SessionLaws.{HasNames, HasRequests, HasLines, IsSmall};
ghost use Rattle.client_threads.specs.Sizes.{CanServe};

use key_names::Directory;
use request_lines::{MAX_INPUT_BYTES, Session, read_session};
use std::alloc::Global;
use std::test::Fail;

// A client that asks for one name.
pub(super) fn one_client() -> &'static str {
    "CLIENT\nHEAD a\n"
}

// The session of this text, and the directory that has its names.
pub(super) fn session_of(alloc: Global, text: &[u8]) -> Result<(Session, Directory), Fail>
    ensures { IfOk result (λ s. CanServe s.1 s.0) }
{
    if text.len() > MAX_INPUT_BYTES {
        return Err("a long text")?;
    }
    let Ok(session) = read_session(alloc, text) else {
        return Err("no session")?;
    };
    with_directory(session)
}

// The session without its names, and the directory that has them.
fn with_directory(mut session: Session) -> Result<(Session, Directory), Fail>
    requires names { HasNames session }
    requires requests { HasRequests session }
    requires lines { HasLines session }
    requires small { IsSmall session }
    ensures { IfOk result (λ s. CanServe s.1 s.0) }
{
    if session.clients.is_empty() {
        return Err("no client")?;
    }
    let dir = session.take_directory();
    Ok((session, dir))
}
