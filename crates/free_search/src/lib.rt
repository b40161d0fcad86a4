//! Looks for a whole tree of subproblems that proves a plan cheapest, by any choices. What it finds is a text, which others judge.
#![tactic(auto)]

pub mod choosing;
pub mod closing;
pub mod exact;
pub mod finding;
pub mod outcome;
pub mod parts;
pub mod running;
pub mod search;

pub use finding::find;
