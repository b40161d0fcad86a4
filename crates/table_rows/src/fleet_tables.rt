//! The tables of fleets and of costs.

pub mod costs;
pub mod fleets;

pub use costs::read_costs;
pub use fleets::read_fleets;
