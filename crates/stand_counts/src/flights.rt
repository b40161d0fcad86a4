ghost use Rattle.std.specs.Prelude.{◌≡◌, ◌<◌, ◌≤◌, ℕ};
ghost use Rattle.fleet_model.specs.Schedule.{IsPair};
ghost use Rattle.fleet_model.specs.declared.limits.TheConstants.{MAX_DEPARTURES};
ghost use Rattle.fleet_model.specs.declared.tables.Tables.{Tables};
ghost use Rattle.stand_counts.specs.Flights.{Flights};

use fleet_model::{Pair, Tables};

/// The greatest weight of a pair.
pub const MAX_WEIGHT: u128 = 1_000_000_000_000_000_000;

/// Flights that share aircraft: pairs, and what each weighs. A fleet's flights by an assignment are the pairs of its legs,
/// which weigh 1 or 0; those by a fractional assignment are its departures, which weigh what it says.
pub trait Flights {
    ghost flights: { Tables → Self → Flights };

    // The flights are of these tables.
    ghost fit: { Tables → Self → Type 0 };

    // What no pair weighs more than.
    ghost most: { ℕ };

    /// How many pairs there are. Takes no memory.
    fn count(&self, tables: &Tables) -> u32
        requires { fit tables.now self.now }
        ensures value { result ≡ (flights tables.now self.now).count }
        ensures few { result ≤ MAX_DEPARTURES };

    /// A pair, by its place. Takes no memory.
    fn pair(&self, tables: &Tables, place: u32) -> Pair
        requires fit { fit tables.now self.now }
        requires place { place < (flights tables.now self.now).count }
        ensures value { result ≡ (flights tables.now self.now).pair place }
        ensures known { IsPair tables.now result };

    /// What a pair weighs. Takes no memory.
    fn weight(&self, tables: &Tables, pair: Pair) -> u128
        requires fit { fit tables.now self.now }
        requires pair { IsPair tables.now pair }
        ensures value { result ≡ (flights tables.now self.now).weight pair }
        ensures few { result ≤ most }
        ensures small { result ≤ MAX_WEIGHT };
}
