//! The tree of a free search: prices of its subproblems; the lines that serve all of them and the basis to start from, the
//! subproblems with their lines of the text, the bases of those that wait, by how much splits raised them, and the texts of
//! the whole.
#![tactic(auto)]

pub mod box_prices;
pub mod gains;
pub mod problem;
pub mod slots;
pub mod start;
pub mod subproblems;
pub mod tree_text;
pub mod whole_lines;

pub use gains::{GAIN_BITS, Gains, score};
pub use problem::{Problem, problem_of};
pub use slots::Slots;
pub use start::lay_start;
pub use subproblems::{State, Subproblem, Subproblems};
pub use tree_text::{TreeTexts, bare_texts, tree_texts};
