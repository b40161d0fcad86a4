//! What commands answer by the files of a folder: how these are read, judged and refused, and how the answer's files are
//! written. Nothing is searched for.
#![tactic(auto)]

pub mod answer;
mod checking;
mod contents;
mod files;
mod gathering;
mod halting;
mod judging;
pub mod laws;
mod making;
mod opened;
mod placing;
mod reading;
mod refusing;
mod showing;
mod solution;
mod status;
mod telling;
mod texts;
mod what_if;
mod writing;

pub use answer::{Answer, Failure, FileText};
pub use checking::{open_proof, tell_with_plan};
pub use contents::Contents;
pub use files::FileList;
pub use gathering::{Stop, read_file, read_files};
pub use halting::Halt;
pub use judging::judge_on;
pub use making::{after_tables, load_made};
pub use opened::{Checking, Opened, Question, answered, or_refused};
pub use placing::due_on;
pub use reading::tables_of;
pub use refusing::too_long;
pub use showing::{answer_of, planned_on};
pub use status::{
    BAD_INPUT, DONE, FALLEN, FAULT, GAP, INFEASIBLE, NO_MEMORY, REFUSED, Status, UNPLACED,
    UNSETTLED, USAGE,
};
pub use telling::tails_on;
pub use texts::{USAGE_LINE, fault_line};
pub use what_if::open_of_fleet;
pub use writing::write_all;
