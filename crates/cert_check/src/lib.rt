//! The checker of proofs: whether a tree of subproblems proves the bound that it claims, whoever made it.
#![tactic(auto)]

pub mod asking;
pub mod checked;
pub mod checking;
mod fraction_rules;
pub mod laws;
pub mod leaves;
mod mixed_counts;
mod mixed_room;
mod mixed_rules;
mod node_rules;
mod price_rules;
pub mod reached;
pub mod rules;
pub mod splits;
pub mod walking;
pub mod what_if;

pub use asking::whatif;
pub use checked::Checked;
pub use checking::{check, check_with_cost};
pub use leaves::own_bound;
pub use reached::Reached;
pub use rules::Rule;
pub use splits::split_above;
pub use walking::{Visit, Walker, walk};
pub use what_if::WhatIf;
