//! Rows of whole numbers over one positive number, exact within the limit of computed numbers: with all
//! their numbers, or with those other than 0 alone.
#![tactic(auto)]

pub mod combining;
pub mod division;
pub mod divisor;
pub mod entry;
pub mod factors;
pub mod filling;
pub mod growth;
pub mod line;
pub mod line_sums;
pub mod lowest_terms;
pub mod numbers;
pub mod pairs;
pub mod ratio;
pub mod row;
pub mod scaling;
pub mod sizes;
pub mod sparse_combining;
pub mod sparse_factors;
pub mod sparse_growth;
pub mod sparse_lowest_terms;
pub mod sparse_row;
pub mod sparse_sizes;
pub mod turning;

pub use combining::{CombineError, combine, combine_in_place};
pub use divisor::gcd;
pub use entry::Entry;
pub use factors::Factors;
pub use filling::begun;
pub use growth::{Growth, growth_by};
pub use line::{Layout, Line};
pub use line_sums::{add_line, with_sizes};
pub use lowest_terms::reduce;
pub use numbers::Numbers;
pub use ratio::{ceil_div, compare_ratio};
pub use row::FracRow;
pub use scaling::scaled;
pub use sizes::{is_row, is_small};
pub use sparse_factors::factors_between;
pub use sparse_row::SparseRow;
pub use turning::turn;
