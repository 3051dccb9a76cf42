//! The arguments of the command line. `clap` reads them, and what was read is compared with its spelling, so that
//! arguments which `clap` takes by itself, such as `--help`, `--` or a number with a leading zero, are no form of the
//! program. The layer above uses `form_of`, and `IsForm` of `specs/Program.antt`.
#![tactic(auto)]

mod form;
mod reading;
mod spelling;

pub use form::{Form, form_of};
