/// Why a pair cannot be flown, as far as the kept pairs tell.
#[derive(Clone, Copy)]
pub enum Rule {
    /// The fleet keeps no pair that lands where the leg departs, so no aircraft of it comes there.
    NoArrival,
    /// The fleet keeps no pair that departs where the leg lands, so no aircraft of it gets away from there.
    NoDeparture,
    /// In the minute in which the leg departs, it and the legs that keep one pair, of the same fleet, hold more aircraft of
    /// the fleet busy than it has.
    TooFewAircraft,
}
