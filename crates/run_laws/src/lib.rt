//! Laws on the definitions on which the program's promise rests: what a legal run, an input and a directory determine.
//! The calls do nothing: their clauses are what is proved.
#![tactic(auto)]

mod laws;

pub use laws::{clients_renamed, one_client, one_input, page_laws, run_rows, untouched_names};
