//! A solution of tables by the way of searching: by the search whose choices are fixed, or before it by a free one, whose tree
//! is judged.

pub mod searching;

pub use searching::solved_by;
