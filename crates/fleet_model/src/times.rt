//! When the aircraft of a pair departs, and when it can depart again.
ghost use Rattle.std.specs.Prelude.{◌≡◌, ◌<◌, ◌≤◌};
ghost use Rattle.fleet_model.specs.OwnTimes.{own_pair};
ghost use Rattle.fleet_model.specs.Schedule.{IsPair, fleet_of, fleets_in, legs_in, period_of};
ghost use Rattle.fleet_model.specs.Times.{busy_minutes, departure, laps_of, nights_of, ready_minute};

use crate::parts::Pair;
use crate::period::day_of_minute;
use crate::tables::Tables;

impl Tables {
    /// The minute at which a pair departs, counted from the start of the period. Takes no memory.
    #[tactic(auto, unfolding(crate::specs::Times::departure))]
    pub fn departure(&self, pair: Pair) -> u16
        requires pair { IsPair self.now pair }
        ensures value { result ≡ departure self.now pair }
        ensures within { result < period_of self.now }
        ensures week { result < 10080 }
    {
        self.shift_by(pair).dep
    }

    /// The minutes from a pair's departure until its aircraft can depart again: the flight, the fleet's turn and the extra
    /// of the station where it lands. Takes no memory.
    pub fn busy(&self, pair: Pair) -> u16
        requires pair { IsPair self.now pair }
        ensures value { result ≡ busy_minutes self.now pair }
        ensures few { result < 2880 }
    {
        let flown = self.leg(pair.leg);
        flown.block + self.turn(self.fleet_by(pair)) + self.station(flown.to).extra
    }

    // The turn of a fleet, and none where it is of no fleet.
    fn turn(&self, fleet: u32) -> u16
        ensures value { result ≡ (fleet_of self.now fleet).turn }
        ensures few { result ≤ 600 }
    {
        if fleet < self.fleet_count() {
            self.fleet(fleet).turn
        } else {
            0
        }
    }

    /// The minute at which the aircraft of a pair can depart again, counted from the start of the period. Takes no memory.
    pub fn ready(&self, pair: Pair) -> u16
        requires pair { IsPair self.now pair }
        ensures value { result ≡ ready_minute self.now pair }
        ensures within { result < period_of self.now }
    {
        (self.departure(pair) + self.busy(pair)) % self.period()
    }

    /// How many day starts lie between a pair's departure and the minute at which its aircraft can depart again: 0, 1 or 2.
    /// Takes no memory.
    pub fn nights(&self, pair: Pair) -> u32
        requires pair { IsPair self.now pair }
        ensures value { result ≡ nights_of self.now pair }
        ensures few { result ≤ 2 }
    {
        let departure = self.departure(pair);
        u32::from(day_of_minute(departure + self.busy(pair)) - day_of_minute(departure))
    }

    /// How many period starts lie between a pair's departure and the minute at which its aircraft can depart again. Takes no
    /// memory.
    pub fn laps(&self, pair: Pair) -> u32
        requires pair { IsPair self.now pair }
        ensures value { result ≡ laps_of self.now pair }
        ensures few { result ≤ 2 }
    {
        u32::from((self.departure(pair) + self.busy(pair)) / self.period())
    }
}

/// The minutes from a leg's departure at its own time until its aircraft, of this fleet, can depart again. Takes no memory.
pub fn busy(tables: &Tables, leg: u32, fleet: u32) -> u16
    requires leg { leg < legs_in tables.now }
    requires fleet { fleet < fleets_in tables.now }
    ensures { result ≡ busy_minutes tables.now (own_pair tables.now leg fleet) }
{
    tables.busy(tables.own_pair(leg, fleet))
}

/// The minute at which the aircraft of a leg at its own time, of this fleet, can depart again, counted from the start of the period.
/// Takes no memory.
pub fn ready(tables: &Tables, leg: u32, fleet: u32) -> u16
    requires leg { leg < legs_in tables.now }
    requires fleet { fleet < fleets_in tables.now }
    ensures value { result ≡ ready_minute tables.now (own_pair tables.now leg fleet) }
    ensures within { result < period_of tables.now }
{
    tables.ready(tables.own_pair(leg, fleet))
}

/// How many day starts lie between a leg's departure at its own time and the minute at which its aircraft, of this fleet, can
/// depart again: 0, 1 or 2. Takes no memory.
pub fn nights(tables: &Tables, leg: u32, fleet: u32) -> u32
    requires leg { leg < legs_in tables.now }
    requires fleet { fleet < fleets_in tables.now }
    ensures value { result ≡ nights_of tables.now (own_pair tables.now leg fleet) }
    ensures few { result ≤ 2 }
{
    tables.nights(tables.own_pair(leg, fleet))
}

/// How many period starts lie between a leg's departure at its own time and the minute at which its aircraft, of this fleet, can
/// depart again. Takes no memory.
pub fn laps(tables: &Tables, leg: u32, fleet: u32) -> u32
    requires leg { leg < legs_in tables.now }
    requires fleet { fleet < fleets_in tables.now }
    ensures value { result ≡ laps_of tables.now (own_pair tables.now leg fleet) }
    ensures few { result ≤ 2 }
{
    tables.laps(tables.own_pair(leg, fleet))
}
