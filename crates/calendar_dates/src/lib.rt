//! Dates of the calendar, reckoned with `jiff`: what a text writes as a date, the dates after one, and the days between two.
#![tactic(auto)]

mod conversion;
pub mod date;
pub mod following;
pub mod laws;
pub mod reading;
pub mod text;

pub use date::Date;
pub use following::{dates_from, days_between};
pub use reading::{civil_date, ends_in_calendar};
