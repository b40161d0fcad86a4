//! The laws of counts: each function's contract is the statement, and it does nothing.
ghost use Rattle.std.specs.Prelude.{◌≡◌, ◌<◌, ℕ, List};
ghost use Rattle.fleet_model.specs.declared.tables.Tables.{Tables};
ghost use Rattle.fleet_model.specs.Counts.{Weights, weights_of};
ghost use Rattle.fleet_model.specs.Legal.{IsAssignment};
ghost use Rattle.fleet_model.specs.Schedule.{fleets_in};
ghost use Rattle.stand_counts.specs.Flights.{of_fleet, planned};
ghost use Rattle.stand_counts.specs.Laws.{AreCounts};
ghost use Rattle.stand_counts.specs.declared.flights.TheConstants.{MAX_WEIGHT};

/// The counts of a fleet's flights are those of the fleet.
pub fn counts_of_a_fleet()
    ensures { (t : Tables) (w : Weights) (f : ℕ) → AreCounts t (of_fleet t w f) w f }
{}

/// The counts of a fleet's flights by an assignment are those of the assignment's weights.
pub fn counts_of_a_plan()
    ensures { (t : Tables) (a : List ℕ) (f : ℕ) → IsAssignment t a → f < fleets_in t → AreCounts t (planned t a f) (weights_of a) f }
{}

/// The greatest weight of a pair, in numbers.
pub fn limits_in_numbers()
    ensures { MAX_WEIGHT ≡ 1000000000000000000 }
{}
