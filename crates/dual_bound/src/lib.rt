//! Dual prices, the bound that they give, and trees of subproblems with the prices that prove one, and what the
//! solver answers with such a tree.
#![tactic(auto)]

pub mod charge_at;
pub mod counting;
pub mod laws;
pub mod mixed;
pub mod nodes;
pub mod other_worth;
pub mod parts;
pub mod price_at;
pub mod price_finder;
pub mod prices;
mod rising;
mod rising_weights;
pub mod sized;
pub mod solved;
pub mod trees;
pub mod weight_finder;
pub mod worth;
mod worth_less;

pub use mixed::{Mixed, Weight};
pub use other_worth::{rounded_worth, worth_by};
pub use parts::Parts;
pub use price_finder::PriceFinder;
pub use prices::{Charge, PriceStep, Prices};
pub use solved::Solved;
pub use trees::{Cause, Tree, TreeCounts};
pub use weight_finder::WeightFinder;
