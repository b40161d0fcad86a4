//! The assignment problem: rows against as many columns, one to one, at the greatest worth in sum.

pub mod draft;
pub mod laws;
pub mod matching;
pub mod phase;
pub mod tree;
pub mod walk;

pub use matching::{MAX_WORTH, Matching, best_matching};
