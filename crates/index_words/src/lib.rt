//! The words of the shared table, and what a seat of it knows. The public names of `key_map` are reexported. The layers
//! above use the definitions of `specs/`, the plain types below, and `Layout`, which says where each word of the table
//! stands.
#![tactic(auto)]

mod layout;
mod side;
mod view;
mod word;

pub use key_map::{
    Change, Done, Items, NoMemory, Pair, PassError, PassSize, PlainMap, Update, first_from,
};
pub use layout::Layout;
pub use side::Side;
pub use view::{
    Counts, EndedPlace, Filled, Held, HeldNext, HeldNode, HeldSide, Link, LinkSource, LoadedHead,
    Looks, OwedTag, Place, Reading, SectionFound, SeenHistory, Slots, TreeNode, Turn, Unlinking,
    UnsetLink, Updating, View,
};
pub use word::{Field, Part, Word};
