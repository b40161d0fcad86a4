//! Turns on the ground, successor maps and tours; maps that hold given turns, the lines of a tour, and cycles joined to one
//! tour.
#![tactic(auto)]

pub mod cycle_join;
pub mod days;
mod following;
mod free;
mod ground;
pub mod ground_turns;
pub mod mapping;
mod needs;
mod places;

pub use days::{cut, first_day, lines, nights_after, periods_after, turn_after};
pub use ground::marks_of_arriving;
pub use mapping::successors;
