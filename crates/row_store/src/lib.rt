//! Tables of the simplex method behind one trait, and two stores of them: the plain one, and the one that the program runs
//! on, which holds of each row the numbers other than 0.
#![tactic(auto)]

pub mod changes;
pub mod checks;
pub mod choice;
pub mod dense;
pub mod error;
pub mod first;
pub mod laws;
pub mod pivoting;
pub mod problem;
pub mod sparse;
pub mod sparse_first;
pub mod sparse_scanning;
pub mod store;
pub mod table_row;
pub mod turning;

pub use checks::is_problem;
pub use dense::Dense;
pub use error::{PivotError, Place};
pub use frac_row::{Layout, Line};
pub use problem::Rows;
pub use sparse::Sparse;
pub use store::RowStore;
