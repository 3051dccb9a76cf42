//! The lines in which a run is written: one JSON object for each reply, for each update of the history, and for
//! the number of updates. Each call's contract is the exact text. A line is put together in a buffer of the caller, who
//! uses it again for the next line; `serde_json` says what JSON is, and writes the texts that have escapes. The layers
//! above use the calls, and `session_text` of `specs/Lines.antt`, the text of a whole run.
#![tactic(auto)]

mod entries;
mod entry_texts;
mod escapes;
mod journal;
mod known_texts;
mod listing;
mod listing_v1;
mod pieces;
mod plain;
mod replies;

pub use entry_texts::{EntryTexts, WantedTexts};
pub use journal::{journal_line, last_line, push_journal_line};
pub use known_texts::KnownTexts;
pub use replies::{push_known_line, push_reply_line, reply_line};
