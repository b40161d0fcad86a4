use dual_bound::{Mixed, Prices};

/// A cheapest fractional assignment of a subproblem, and prices that are worth what it costs.
#[derive(Drop)]
pub struct BestPoint {
    /// Proper prices.
    pub prices: Prices,
    /// The fractional assignment.
    pub mixed: Mixed,
}
