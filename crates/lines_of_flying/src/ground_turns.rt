//! Turns of a fleet's aircraft on the ground, successor maps, tours and through sets: what they are, and their laws.

pub mod laws;
pub mod nights;
pub mod segments;
pub mod turns;

pub use nights::Night;
pub use segments::Segments;
pub use turns::{
    crosses, flight, is_maintained, is_short, minutes_until, nights_waited, stay, wait,
};
