//! A desk and a sink in memory, by which tests run the program. They tell all that they hold, and fail at chosen calls.
#![tactic(auto)]

mod failing;
mod memory_desk;
mod memory_sink;

pub use failing::FailingCall;
pub use memory_desk::MemoryDesk;
pub use memory_sink::MemorySink;
