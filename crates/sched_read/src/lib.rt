//! The tables of a schedule, read from the bytes of their files: the five, and those that are asked for.
#![tactic(auto)]

pub mod file_laws;
pub mod files;
pub mod laws;
pub mod legs;
pub mod loading;
pub mod optional_legs;
pub mod retime_windows;
pub mod throughs;

pub use files::{TableTexts, load_files};
pub use legs::read_legs;
pub use loading::load;
pub use throughs::read_throughs;
