//! The judge of a tree that a hint found: whether the text of a proof, and that of the plan which comes with it, are an
//! answer on tables, whoever wrote them.

mod answering;
mod settling;
pub mod solving;
mod spending;

pub use solving::solved_by_texts;
