//! The rules of a listing: which names are listed, how keys are rolled up into common prefixes, and where a page
//! ends. It reaches no map: the layer above hands it pairs, and makes its pages by `PageCursor`, from one look-up for
//! each entry. Two more ways to the same page serve for comparison: `page_of_list`, the definition of a page as a
//! program, and `page_by_look_ups`, the cursor over a sorted list.
#![tactic(auto)]

mod cursor;
mod group_end;
mod known_prefixes;
mod list_page;
mod look_ups;
mod prefix_ranks;
mod resume;
mod rules;

pub use cursor::PageCursor;
pub use known_prefixes::KnownPrefixes;
pub use list_page::page_of_list;
pub use look_ups::page_by_look_ups;
pub use prefix_ranks::PrefixRanks;
pub use rules::group_len;
