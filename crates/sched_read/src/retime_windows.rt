//! Legs at several times: the table of windows, and tables in which each leg has the time that a plan chose.

pub mod adding;
pub mod laws;
pub mod reading;
mod seen;
pub mod settling;
pub mod times;
pub mod window;

pub use adding::add_windows;
pub use reading::read_windows;
pub use settling::{Settled, can_settle, settle};
pub use window::Window;
