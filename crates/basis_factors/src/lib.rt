//! Numbers in which an end is looked for; factors of a basis, in whose columns numbers are solved for, and what of it has no
//! pivot yet while they are found: its open lines and columns, their numbers, and columns by how many open lines they have.
#![tactic(auto)]

pub mod factors;
pub mod fixed_numbers;
pub mod open;
pub mod queue;
pub mod rows;
pub mod steps;

pub use factors::{Factors, Mark};
pub use open::{Open, add, take_one};
pub use queue::Queue;
pub use rows::Rows;
pub use steps::{Step, Steps};
