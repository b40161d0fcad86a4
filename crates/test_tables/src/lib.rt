//! Worked sets of tables, as the bytes of their files, and assignments of their legs: for the crates of tests.
#![tactic(auto)]

pub mod plans;
pub mod schedules;
