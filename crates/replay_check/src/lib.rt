//! Whether a written text is the text of a legal run of a session, or which of its lines is the first wrong one. The
//! layer above uses `check_text`. The journal is read first, then the last line, then each client's replies, each
//! compared with the map as it was at the reply's place.
#![tactic(auto)]

mod answers;
mod basis;
mod beginning;
mod check;
mod journal;
mod line_reply;
mod looking;
mod numbers;
mod own;
mod replay;
mod replay_map;
mod texts;
mod turns;
mod verdict;

pub use check::check_text;
pub use verdict::Verdict;
