//! A session's text, read block by block: which clients there are, what each of them asks, and the first fault. The
//! layers above use `read_session` and `read_session_on_threads`, what `specs/SessionLaws.antt` says of every
//! session, and the grammar of `specs/Input.antt`; and, for a session followed by a written text, `read_check_input`
//! and `line_len`. `sample_session` makes the generated session.
#![tactic(auto)]

mod blocks;
mod check_input;
mod counts;
mod generated;
mod interner;
mod known;
mod leads;
mod limits;
mod lines;
mod name_hints;
mod names;
mod placing;
mod read;
mod read_on_threads;
mod reader;
mod requests;
mod room;
mod rounds;
mod said;
mod sample;
mod session;
mod session_error;
mod taking;
mod unsorted;

pub use check_input::{CheckInput, line_len, read_check_input};
pub use generated::sample_session;
pub use limits::MAX_INPUT_BYTES;
pub use line_grammar::Cause;
pub use names::Names;
pub use read::read_session;
pub use read_on_threads::read_session_on_threads;
pub use requests::Requests;
pub use room::make_room;
pub use sample::sample_input;
pub use session::{Asked, ClientPart, Session, is_update};
pub use session_error::{InputError, SessionError};
