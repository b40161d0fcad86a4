ghost use Rattle.std.specs.Prelude.{◌≡◌, ◌<◌, ℕ};
ghost use Rattle.fleet_model.specs.Legal.{IsAssignment};
ghost use Rattle.fleet_model.specs.Schedule.{fleets_in};
ghost use Rattle.stand_counts.specs.Flights.{planned};

use crate::flights::Flights;
use fleet_model::{Assignment, Pair, Tables};

/// The flights of one fleet by an assignment: the pairs of its legs, which weigh 1 where the fleet flies them.
#[derive(Clone, Copy)]
pub struct Planned<'a> {
    pub plan: &'a Assignment,
    pub fleet: u32,
}

impl Flights for Planned<'_> {
    ghost flights = { λ t it. planned t it.plan.now it.fleet };

    ghost fit = { λ t it. IsAssignment t it.plan.now × (it.fleet < fleets_in t) };

    ghost most = { 1 };

    fn count(&self, tables: &Tables) -> u32 {
        tables.leg_count()
    }

    fn pair(&self, _tables: &Tables, leg: u32) -> Pair {
        Pair {
            leg,
            choice: self.plan.choice(leg),
        }
    }

    fn weight(&self, tables: &Tables, pair: Pair) -> u128 {
        u128::from(tables.fleet_by(pair) == self.fleet)
    }
}
