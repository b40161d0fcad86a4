ghost use Rattle.fleet_model.specs.Limits.{AreTables};

use crate::costs::Costs;
use crate::parts::{Departure, Fleet, Leg, Settings, Station, Through};
use entries::Entries;

/// A schedule with its stations, fleets, costs and through pairs, all within their limits. Stations, fleets, legs and
/// departures go by their numbers, which are their places in these lists.
#[derive(Drop)]
pub struct Tables {
    pub stations: Entries<Station>,
    pub fleets: Entries<Fleet>,
    pub legs: Entries<Leg>,
    pub costs: Costs,
    pub throughs: Entries<Through>,
    pub settings: Settings,
    /// Each leg at each of its times, by leg, then time.
    pub departures: Entries<Departure>,
    /// Whether legs may have other times than their own.
    pub windows: bool,
    /// Whether legs may be left out.
    pub optional: bool,
    pub ghost in_range: { AreTables stations fleets legs costs throughs settings departures windows optional },
}
