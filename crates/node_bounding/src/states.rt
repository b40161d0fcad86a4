//! What becomes of a subproblem.
use dual_bound::{Cause, Prices, Tree};
use fleet_model::Pair;
use price_lift::BestPoint;

/// A subproblem whose best fractional assignment flies a pair in part, so that it may be split by it.
#[derive(Drop)]
pub struct Fraction {
    /// The first such pair, by leg and then by choice.
    pub pair: Pair,
    /// That assignment, and prices that are worth what it costs.
    pub best: BestPoint,
    /// The worth of the prices, rounded up, in cost units.
    pub worth: i128,
}

/// A subproblem that stays open, since its run gave no prices of its own.
#[derive(Drop)]
pub struct Stopped {
    /// The prices of the nearest split above.
    pub prices: Prices,
    pub why: Cause,
    /// The worth of the prices here, rounded up, in cost units.
    pub worth: i128,
}

/// What became of a subproblem.
#[derive(Drop)]
pub enum State {
    /// Its tree stands.
    Leaf(Tree),
    /// It stays open, and waits for nothing.
    Stopped(Stopped),
    /// It waits to be split.
    Waiting(Fraction),
    /// It was split, and its parts stand in the list.
    Split(Fraction),
}
