//! Prices of a subproblem whose network has islands: where prices rise over an arc that went, the rise goes to a moment at
//! which the station is empty, and all rents and prices grow until no price rises any more.
#![tactic(auto)]

mod growing;
pub mod laws;
pub mod least;
pub mod paying;
pub mod rises;
pub mod rising;
pub mod rounds;
pub mod stepping;

pub use least::least_idle;
pub use paying::{PaybackError, pay_back};
pub use rises::{Rise, Shift};
pub use rising::{Arc, push_rise};
