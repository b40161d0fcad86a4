//! Legs that may be left out: the table of optional legs, and tables with them.

pub mod adding;
pub mod laws;
pub mod optional;
pub mod reading;

pub use adding::add_optional;
pub use optional::OptionalLeg;
pub use reading::read_optional;
