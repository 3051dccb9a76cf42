//! The laws that callers cite, of each table that meets the rule: who writes what, what a view shows that its seat may
//! do, what a load finds, where the counts of a view rise, what numbers select, the trees in the words, remembered
//! links, and where plain links lead. The running table cites them, and needs no code of the machine. The calls do
//! nothing: their clauses are what is proved.
#![tactic(auto)]

mod view_laws;

pub use view_laws::{
    cuts_take_nothing_read, needs_of_views, slots_add_up, what_a_wait_keeps, what_loads_find,
    what_searches_find, where_counts_rise, where_plain_links_lead, who_raises_counts,
    who_writes_what,
};
