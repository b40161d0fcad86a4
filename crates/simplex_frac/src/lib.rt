//! The simplex method in exact fractions, with Bland's rule, over any store of tables; what the tables that any steps
//! reach from the first table of lines tell of the lines; the dual values of the last one; and whether a hint is an end.
#![tactic(auto)]

pub mod basis;
pub mod basis_count;
pub mod checks;
pub mod dual_lift;
pub mod end_check;
pub mod finishing;
pub mod laws;
pub mod outcome;
pub mod run;
pub mod turn;

pub use basis::first_basis;
pub use basis_count::bases;
pub use checks::are_right_sides_at_least_0;
pub use finishing::finish;
pub use outcome::{End, Outcome};
pub use run::solve;
