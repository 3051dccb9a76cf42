//! The laws that carry the plan of an update from its search to its raise and to its end, over views alone. For each
//! stage of an update there is a record over the view of the seat, and for each step a law: the step may be made, and
//! the view after it is at the next stage, or can be unwound. The steps of a running table say that the view after each
//! of them is the core's own function of the view before; with these laws a running update goes from stage to stage.
//! The calls do nothing: their clauses are what is proved.
#![tactic(auto)]

mod end_laws;
mod try_laws;

pub use end_laws::{
    bundles_are_pruned, locks_are_given_back, plain_links_are_set, removals_wait,
    steps_keep_the_rest, updates_are_answered, updates_raise,
};
pub use try_laws::{tries_fill, tries_lock, tries_look, tries_prepare};
