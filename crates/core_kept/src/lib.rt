//! Every event keeps the rule, and what each event keeps of a view. The laws over the kinds come first, and
//! `every_event_keeps_the_rule` joins them. Both the running table and the machine cite them. It has no code: the calls
//! do nothing, and their clauses are what is proved.
#![tactic(auto)]

mod laws;

pub use laws::{
    every_event_keeps_the_rule, how_seats_are_made, kinds_keep_the_rule, views_keep_the_rule,
};
