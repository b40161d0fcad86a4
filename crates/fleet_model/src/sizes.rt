//! How many aircraft fleets have.
ghost use Rattle.std.specs.Prelude.{◌≡◌, ◌<◌};
ghost use Rattle.fleet_model.specs.Schedule.{fleets_in};
ghost use Rattle.fleet_model.specs.Sizes.{aircraft_by};

use crate::tables::Tables;

/// How many aircraft fleets have: as the tables say, or one of them another number.
#[derive(Clone, Copy)]
pub enum Sizes {
    /// Each fleet as many as the tables say.
    Own,
    /// One fleet so many, and each other as the tables say.
    Other {
        /// The fleet, by its number.
        fleet: u32,
        /// How many aircraft it has.
        count: u32,
    },
}

impl Sizes {
    /// How many aircraft a fleet has.
    pub fn aircraft(self, tables: &Tables, fleet: u32) -> u32
        requires { fleet < fleets_in tables.now }
        ensures { result ≡ aircraft_by tables.now self fleet }
    {
        match self {
            Sizes::Other {
                fleet: other,
                count,
            } if other == fleet => count,
            _ => tables.fleet(fleet).aircraft,
        }
    }
}
