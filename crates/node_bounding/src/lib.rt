//! A subproblem of branch and bound, examined: it is a leaf of the tree that proves it, stays open, or waits to be split.
//! And what stands above the tree: the removals of presolve.
#![tactic(auto)]

mod examining;
mod made_prices;
mod offers;
mod proved_run;
mod relaxing;
pub mod removals;
mod states;
pub mod steps;
mod trying;
mod wholes;

pub use examining::{examine, is_reached};
pub use made_prices::zeros;
pub use states::{Fraction, State, Stopped};
