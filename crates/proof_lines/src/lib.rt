//! The lines of the text of a proof: what a line says, its words, and the line that words are.
#![tactic(auto)]

pub mod choices;
pub mod fields;
pub mod figures;
pub mod flaws;
pub mod forms;
pub mod grammar;
pub mod known;
pub mod laws;
pub mod line;
pub mod numerals;
pub mod reading;
pub mod words;
pub mod writing;

pub use flaws::Flaw;
pub use forms::Form;
pub use grammar::Grammar;
pub use line::{Line, Version};
pub use reading::{Seen, is_step_of, read_line};
pub use writing::push_line;
