//! The time-line network of a fleet at a station: when its aircraft depart and when they are ready again.

pub mod timeline;

pub use timeline::{Event, events};
