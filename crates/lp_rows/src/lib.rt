//! The linear program of a subproblem over its time-line network: cover, balance, count and
//! parking lines.
#![tactic(auto)]

pub mod arcs;
pub mod entry;
pub mod kinds;
pub mod laws;
pub mod layout;
mod meeting;
pub mod network;
pub mod outline;
pub mod positions;
pub mod program;

pub use arcs::{arc_moments, staying_arcs};
pub use kinds::{Column, Line, Node, Park};
pub use layout::{columns, kept_pairs, lines, network_nodes, parks};
pub use network::Network;
pub use outline::Outline;
pub use program::{Program, rows};
