//! The cycles of a fitting map joined to one tour, by exchanges of departures; or which legs are apart from the others.

mod cycles;
mod exchanges;
mod ground;
pub mod joined;
mod labels;
mod parts;
mod rounds;
mod touching;

pub use joined::{Joined, join};
