//! Finds factors of a basis: of the columns that stand in it, each of which has its pivot in a line of its own.
#![tactic(auto)]

pub mod bump;
pub mod factoring;
pub mod laying;
pub mod singletons;

pub use factoring::Factoring;
