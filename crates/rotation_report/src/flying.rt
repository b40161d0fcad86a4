use entries::Entries;

/// The lines of a fleet's tour, and the aircraft that fly them.
#[derive(Drop)]
pub struct FleetLines {
    pub fleet: u32,
    /// How many aircraft fly the tour.
    pub used: u32,
    /// The legs of each day of the tour.
    pub lines: Entries<Entries<u32>>,
}
