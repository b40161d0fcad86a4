//! Minutes at which no aircraft stands at a station, the aircraft that a schedule leaves over, and the islands of one that
//! leaves none over.

pub mod idle_minutes;
pub mod idles;
mod joined;
pub mod laws;
pub mod lookup;
mod plain_day;
pub mod spares;
pub mod zeros;

pub use idle_minutes::Idle;
pub use idles::idle;
pub use joined::have_pairs;
pub use lookup::first_idle;
pub use spares::spare;
pub use zeros::zero_minutes;
