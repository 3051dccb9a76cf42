//! Names of objects: texts as their UTF-8 bytes, and the directory, the sorted list of a session's names.
//! The layers above put the rank of a name in the directory in place of the name; they use `Text`, `Directory` and the
//! definitions of `specs/`.
#![tactic(auto)]

mod directory;
mod names_error;
mod no_memory;
mod text;

pub use directory::{Directory, MAX_NAME_BYTES, MAX_NAMES};
pub use names_error::NamesError;
pub use no_memory::NoMemory;
pub use text::Text;
