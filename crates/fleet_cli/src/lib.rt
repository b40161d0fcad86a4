//! The program: what its words ask for, what it reads, and what it answers.
#![tactic(auto)]

mod answers;
mod calling;
mod commands;
pub mod laws;
pub mod plan_search;
mod running;
mod solving;

pub use calling::program;
pub use folder_answers::{
    BAD_INPUT, DONE, FALLEN, FAULT, GAP, INFEASIBLE, NO_MEMORY, REFUSED, Status, UNPLACED,
    UNSETTLED, USAGE, USAGE_LINE,
};
pub use running::run;
