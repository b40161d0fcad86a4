use entries::Entries;
use fleet_model::limits::MAX_LEGS;

/// The most records of `optional.csv`.
pub const MAX_OPTIONAL: usize = MAX_LEGS;

/// A leg that may be left out.
#[derive(Drop)]
pub struct OptionalLeg {
    /// Its flight.
    pub flight: Entries<u8>,
    /// The leg, by its number.
    pub leg: u32,
    /// What it costs to leave it out, in cost units.
    pub skip: i128,
}
