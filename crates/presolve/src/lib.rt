//! Presolve: pairs that no legal assignment can have are removed before the search, each with prices that show it.
#![tactic(auto)]

mod alone;
mod cells;
mod choices;
mod counting;
mod first_rule;
pub mod laws;
mod reasons;
pub mod removals;
pub mod rule;
mod search;
pub mod trims;

pub use removals::trim;
pub use rule::Rule;
pub use trims::Trim;
