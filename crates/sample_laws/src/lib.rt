//! What clients on names of their own find in a run, whatever the run: updates on other names commute, so each client
//! is answered as if it were alone, and the numbers of the run's summary are sums over the clients. The generated
//! session is such a session. The calls do nothing: their clauses are what is proved.
#![tactic(auto)]

mod laws;

pub use laws::{own_names, sample_rows, sample_session};
