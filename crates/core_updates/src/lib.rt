//! Updates of the shared tree before they take effect: the plan of an update as data, which is put together from what
//! is found under locks; and why an update that has validated may raise, as laws over the rule of the words. What an
//! update rests on, that a link of the tree at the stamp leads to a node (`LeadsNow`), and that keys are in the gap of
//! a null link (`GapNow`), follows from what `core_laws` says of plain links under locks and of null links that a
//! search has found. The calls of `laws` do nothing: their clauses are what is proved.
#![tactic(auto)]

mod laws;
mod plan;
mod planned;

pub use laws::{
    links_spell_the_step, plans_are_carried_out, ready_plans_may_raise, ready_updates_may_raise,
    validated_updates_may_raise,
};
pub use plan::{
    Fresh, Front, GrowPlan, Heads, JoinPlan, LiftPlan, NewNode, NextNode, Plan, PlanSlots,
    ReplacePlan,
};
