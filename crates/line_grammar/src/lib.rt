//! One line of a session: what it says, or the first cause for which it is refused, whatever came before it. The layer
//! above cuts an input into lines, refuses one that is not UTF-8, and uses `command_of` and the grammar of
//! `specs/Line.antt`.
#![tactic(auto)]

mod cause;
mod command;
mod limits;
mod line_error;
mod parameter;
mod parts;
mod put;
mod query;
mod texts;
mod values;
mod verb;

pub use cause::Cause;
pub use command::{Command, command_of};
pub use line_error::LineError;
pub use parts::first_part;
pub use verb::PutWhen;
