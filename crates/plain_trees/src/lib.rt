//! The plain links of the shared tree, pure: how the tree that they spell differs from the tree at the stamp, what
//! searches on them claim, and what stays after a store of a plain link. The calls do nothing: their clauses are what
//! is proved.
#![tactic(auto)]

mod laws;

pub use laws::plain_links_lead_to_the_gap;
