//! The running table: a pass's seat, and its steps on the words that all passes share. Each step is one move, and is
//! the event of its name of the pure machine. The layers above use the steps of `TablePass`, and `SharedTable`, which
//! is opened for the passes and closed to their history.
// Proofs of clauses on the view are handwritten, since `search` gives up at this size of view: each is a lemma on plain
// data, and two lines carry it over `view_is`. In a call to a move its `then` is named (`finds`, `stores`, `knows`). A
// function that calls itself can pick no ghost member (`make_key`).
#![tactic(auto)]

mod ahead;
mod close;
mod cuts;
mod free;
mod kept;
mod links;
mod loads;
mod locks;
mod notes;
mod open;
mod own_updates;
mod parcels;
mod pass;
mod raises;
mod reading;
mod retires;
mod sections;
mod settled;
mod stamps;
mod table;
mod updates;

pub use close::CloseError;
pub use notes::Note;
pub use own_updates::OwnUpdate;
pub use parcels::{OwnedSlots, Parcel};
pub use pass::{PassKey, TablePass};
pub use table::SharedTable;
