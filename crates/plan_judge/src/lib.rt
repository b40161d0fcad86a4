//! Judges an assignment: legal with its cost, or the first reason why it is not.
#![tactic(auto)]

mod balance;
mod cost;
pub mod counting;
mod crowds;
pub mod laws;
mod legal_plans;
mod limits;
pub mod verdicts;

pub use counting::{need, used};
pub use legal_plans::LegalPlan;
pub use verdicts::{Verdict, judge, judge_as, legal_cost};
