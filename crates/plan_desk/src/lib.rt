//! The outside of the program: a desk that holds files under names, and a sink that takes the output.
//! The two traits say all that a caller may rely on; there is one of each over the real system.
#![tactic(auto)]

mod counts;
mod desk;
mod faults;
mod file;
mod file_desk;
pub mod laws;
mod sink;
mod transfer;
mod writer_sink;

pub use counts::count_up;
pub use desk::{Desk, DeskError};
pub use faults::FaultCount;
pub use file::{DeskFile, PROOF_LIMIT, TABLE_LIMIT, path};
pub use file_desk::FileDesk;
pub use sink::{Sink, SinkError};
pub use writer_sink::{StdSink, WriterSink};
