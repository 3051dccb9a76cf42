//! Laws on the definitions: a run that was begun can be ended. A legal run of the first requests of each client is the
//! beginning of a legal run of all of them, and the lines of the first client's replies so far are a start of the text
//! of that run. So it is with what the pass of a client alone knows between two parts of its requests. The calls do
//! nothing: their clauses are what is proved.
#![tactic(auto)]

mod laws;

pub use laws::{begun_run, first_part};
