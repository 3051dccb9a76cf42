//! The whole program except the real input and output: reads the arguments and the input, runs the clients of the
//! session over one shared index, and writes the answers, the journal of updates and their number as lines of JSON;
//! or runs a generated session, and writes a line of numbers; or checks a written text. The call is `serve`, and its
//! clauses say what a run has read and written. The layer above gives it the input, the output and the runner of the
//! clients.
#![tactic(auto)]

mod checking;
mod input;
mod laws;
mod running;
mod sample;
mod serving;
mod status;
mod summary;
mod verdict;
mod writing;

pub use laws::{one_text, one_verdict, served};
pub use serving::serve;
pub use status::Status;
pub use summary::summary_line;
pub use verdict::verdict_line;
