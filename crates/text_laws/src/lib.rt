//! Laws on a text that is checked against a session: which line is its first wrong one, and that there is at most one.
//! No code: the calls do nothing, and their clauses are what is proved.
#![tactic(auto)]

mod laws;

pub use laws::{legal_text, one_wrong_line};
