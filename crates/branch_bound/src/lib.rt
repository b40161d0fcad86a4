//! The solver: presolve, then branch and bound over subproblems, with a tree that proves what it answers; and the judge of a
//! tree that was found in another way.
#![tactic(auto)]

mod branching;
mod growing;
pub mod hinted_trees;
mod ranks;
mod search;
mod settling;
pub mod solving;
mod subproblems;

pub use dual_bound::Solved;
pub use solving::solve;
