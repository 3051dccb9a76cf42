//! The rule that every event keeps, in its parts, what the words mean, and the lemmas that all kinds of events share.
//! It has no code: its call does nothing, and its clauses are what is proved.
#![tactic(auto)]

mod laws;

pub use laws::what_the_rule_says;
