//! The text of a run: its lines are put together in pieces, several concurrently on threads, and are written in order
//! while the next pieces are put together, one write a line, or one a piece if the sink has a buffer. `Pieces` is given
//! what the lines say, and writes them; the text of each piece is defined by the definitions of `answer_text`. The
//! layer above has the replies and the journal.
#![tactic(auto)]

mod batches;
mod cutting;
mod entries;
mod lines;
mod pieces;
mod sheets;
mod stop;
mod writing;

pub use pieces::Pieces;
pub use stop::Stop;
