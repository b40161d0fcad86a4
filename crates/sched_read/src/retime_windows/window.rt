use fleet_model::limits::{MAX_LEGS, MAX_SHIFTS};

/// The most windows of one leg.
pub const MAX_WINDOWS_OF_LEG: usize = MAX_SHIFTS - 1;

/// The most windows of `windows.csv`.
pub const MAX_WINDOWS: usize = MAX_LEGS * MAX_WINDOWS_OF_LEG;

/// A further time at which a leg may depart.
#[derive(Clone, Copy)]
pub struct Window {
    /// The leg, by its number.
    pub leg: u32,
    /// The minutes by which it departs later than at its own time; below 0 where it departs earlier.
    pub minutes: i16,
    /// What that costs beside the cost of the fleet, in cost units.
    pub extra: i128,
}
