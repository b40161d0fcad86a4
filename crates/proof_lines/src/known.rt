//! The names of tables, found by their bytes, and the pairs that they tell.
ghost use Rattle.std.specs.Prelude.{◌≡◌, ◌<◌, ◌^◌, length, IfOk, IfSome};
ghost use Rattle.fleet_model.specs.Schedule.{days_in, fleet_names, fleets_in, last_of, legs_in, stations_in};
ghost use Rattle.proof_lines.specs.Choices.{choice_told};
ghost use Rattle.proof_lines.specs.Known.{codes_of, fleet_in, flier_in, flights_of, leg_in, minutes_in, named, names_in, naming, pair_in, paired, station_in};

use crate::choices::choice_told;
use crate::figures::number;
use crate::flaws::{Flaw, both};
use crate::grammar::Grammar;
use crate::line::Version;
use crate::words::is_same;
use entries::NoMemory;
use fleet_model::{Pair, Tables};
use std::alloc::Global;
use table_rows::{Names, numbers_of};

impl<'a> Grammar<'a> {
    /// What the lines of a text of this version are read by.
    pub fn new(alloc: Global, version: Version, tables: &'a Tables) -> Result<Grammar<'a>, NoMemory>
        ensures { IfOk result (λ grammar. naming grammar ≡ names_in version tables.now) }
    {
        let Ok(legs) = flights(alloc, tables) else {
            return Err(NoMemory);
        };
        let Ok(fleets) = fleets(alloc, tables) else {
            let_go(legs);
            return Err(NoMemory);
        };
        let Ok(stations) = stations(alloc, tables) else {
            let_go(legs);
            let_go(fleets);
            return Err(NoMemory);
        };
        Ok(Grammar {
            version,
            tables,
            legs,
            fleets,
            stations,
        })
    }

    /// Lets it go, in a call since it has many parts.
    pub fn let_go(self) {
        let Grammar {
            version: _,
            tables: _,
            legs,
            fleets,
            stations,
        } = self;
        let_go(legs);
        let_go(fleets);
        let_go(stations);
    }

    /// The last minute of the period. Takes no memory.
    pub fn last(&self) -> u16
        ensures { result ≡ last_of self.now.tables.now }
    {
        self.tables.period() - 1
    }

    /// How many days the period has. Takes no memory.
    pub fn days(&self) -> u32
        ensures { result ≡ days_in self.now.tables.now }
    {
        self.tables.day_count()
    }

    /// The leg of a flight. Takes no memory.
    pub fn leg(&self, flight: &[u8]) -> Result<u32, Flaw>
        ensures value { result ≡ leg_in (naming self.now) flight.now }
        ensures known { IfOk result (λ leg. leg < legs_in self.now.tables.now) }
    {
        match self.legs.number(flight) {
            Some(leg) => Ok(leg as u32),
            None => Err(Flaw::Name),
        }
    }

    /// The fleet of a name. Takes no memory.
    pub fn fleet(&self, name: &[u8]) -> Result<u32, Flaw>
        ensures value { result ≡ fleet_in (naming self.now) name.now }
        ensures known { IfOk result (λ fleet. fleet < fleets_in self.now.tables.now) }
    {
        match self.fleets.number(name) {
            Some(fleet) => Ok(fleet as u32),
            None => Err(Flaw::Name),
        }
    }

    /// What flies a leg, told by a fleet's name, and none by `-` where legs may be left out. Takes no memory.
    fn flier(&self, name: &[u8]) -> Result<Option<u32>, Flaw>
        ensures value { result ≡ flier_in (naming self.now) name.now }
        ensures known { IfOk result (λ flier. IfSome flier (λ fleet. fleet < fleets_in self.now.tables.now)) }
    {
        if self.tables.optional && is_same(name, b"-") {
            return Ok(None);
        }
        match self.fleet(name) {
            Ok(fleet) => Ok(Some(fleet)),
            Err(flaw) => Err(flaw),
        }
    }

    /// By how many minutes a leg departs later than at its own time, told where the tables have windows. Takes no memory.
    fn minutes(&self, shift: &[u8]) -> Result<i128, Flaw>
        ensures { result ≡ minutes_in self.now.tables.now.windows shift.now }
    {
        if self.tables.windows {
            number(shift)
        } else {
            Ok(0)
        }
    }

    /// The pair that is told by the leg's flight, the fleet's name or `-`, and where the tables have windows the shift. Takes no
    /// memory.
    pub fn pair(&self, flight: &[u8], name: &[u8], shift: &[u8]) -> Result<Pair, Flaw>
        ensures { result ≡ pair_in (naming self.now) flight.now name.now shift.now }
    {
        match both(
            both(self.leg(flight), self.flier(name)),
            self.minutes(shift),
        ) {
            Ok(((leg, flier), minutes)) => self.paired(leg, flier, &minutes),
            Err(flaw) => Err(flaw),
        }
    }

    /// The pair of a leg, what flies it, and its minutes. Takes no memory.
    fn paired(&self, leg: u32, flier: Option<u32>, minutes: &i128) -> Result<Pair, Flaw>
        requires leg { leg < legs_in self.now.tables.now }
        requires flier { IfSome flier (λ fleet. fleet < fleets_in self.now.tables.now) }
        ensures { result ≡ paired leg (named (choice_told self.now.tables.now leg flier minutes.now)) }
    {
        match choice_told(self.tables, leg, flier, minutes) {
            Some(choice) => Ok(Pair { leg, choice }),
            None => Err(Flaw::Name),
        }
    }

    /// The station of a code. Takes no memory.
    pub fn station(&self, code: &[u8]) -> Result<u32, Flaw>
        ensures { result ≡ station_in (naming self.now) code.now }
    {
        match self.stations.number(code) {
            Some(station) => Ok(station as u32),
            None => Err(Flaw::Name),
        }
    }
}

/// The flights of the legs.
fn flights(alloc: Global, tables: &Tables) -> Result<Names, NoMemory>
    ensures same { IfOk result (λ names. names ≡ flights_of tables.now) }
    ensures many { IfOk result (λ names. length names ≡ legs_in tables.now) }
    ensures fit { IfOk result (λ names. length names < 2 ^ 32) }
{
    numbers_of(alloc, tables.legs.as_slice())
}

/// The names of the fleets.
fn fleets(alloc: Global, tables: &Tables) -> Result<Names, NoMemory>
    ensures same { IfOk result (λ names. names ≡ fleet_names tables.now) }
    ensures many { IfOk result (λ names. length names ≡ fleets_in tables.now) }
    ensures fit { IfOk result (λ names. length names < 2 ^ 32) }
{
    numbers_of(alloc, tables.fleets.as_slice())
}

/// The codes of the stations.
fn stations(alloc: Global, tables: &Tables) -> Result<Names, NoMemory>
    ensures same { IfOk result (λ names. names ≡ codes_of tables.now) }
    ensures fit { IfOk result (λ names. length names < 2 ^ 32) }
{
    numbers_of(alloc, tables.stations.as_slice())
}

/// Lets names go, in a call since they have several parts.
fn let_go(_names: Names) {}
