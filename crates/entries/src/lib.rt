//! Lists that contracts see as their entries, and the error for want of memory.
#![tactic(auto)]

pub mod list;
pub mod memory;

pub use list::Entries;
pub use memory::NoMemory;
