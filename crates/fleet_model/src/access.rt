//! Stations, fleets and legs by their numbers, the period, and the choices and departures of legs.
ghost use Rattle.std.specs.Prelude.{◌≡◌, ◌<◌, ◌≤◌, IfSome, slice_index_or};
ghost use Rattle.fleet_model.specs.declared.limits.TheConstants.{MAX_CHOICES, MAX_DEPARTURES, MAX_SHIFTS};
ghost use Rattle.fleet_model.specs.Costs.{cost_in};
ghost use Rattle.fleet_model.specs.Legal.{cost_of, flown_cost};
ghost use Rattle.fleet_model.specs.Limits.{AreSettings, IsCost, IsCostUpTo, IsFleet, IsLeg, IsShift, IsStation};
ghost use Rattle.fleet_model.specs.OwnTimes.{own_pair};
ghost use Rattle.fleet_model.specs.Period.{minutes_of};
ghost use Rattle.fleet_model.specs.Schedule.{IsFlown, IsPair, choices_in, days_in, departures_in, fleet_by, fleet_of, fleets_in, left_out, leg_of, legs_in, no_departure, pair_on, parking_of, period_of, shift_by, shifts_in, station_of, stations_in};

use crate::parts::{Departure, Fleet, Leg, Pair, Settings, Station};
use crate::period::minutes_of;
use crate::shifts::Shift;
use crate::tables::Tables;

impl Settings {
    /// The minutes of the period after which the schedule repeats.
    pub fn minutes(&self) -> u16
        requires { AreSettings self.now }
        ensures { result ≡ minutes_of self.now.period }
    {
        minutes_of(self.period)
    }
}

impl Tables {
    /// The station with this number.
    pub fn station(&self, station: u32) -> &Station
        requires { station < stations_in self.now }
        ensures value { result.now ≡ station_of self.now station }
        ensures fits { IsStation result.now }
    {
        &self.stations.as_slice()[station as usize]
    }

    /// The fleet with this number.
    pub fn fleet(&self, fleet: u32) -> &Fleet
        requires { fleet < fleets_in self.now }
        ensures value { result.now ≡ fleet_of self.now fleet }
        ensures fits { IsFleet result.now }
    {
        &self.fleets.as_slice()[fleet as usize]
    }

    /// The leg with this number.
    #[tactic(auto, unfolding(crate::specs::Schedule::days_in))]
    pub fn leg(&self, leg: u32) -> &Leg
        requires { leg < legs_in self.now }
        ensures value { result.now ≡ leg_of self.now leg }
        ensures fits { IsLeg (stations_in self.now) (days_in self.now) result.now }
    {
        &self.legs.as_slice()[leg as usize]
    }

    /// What a pair costs, in cost units: to be flown, or to be left out; and none where it may not be taken.
    #[tactic(auto, unfolding(crate::specs::Legal::cost_of, crate::specs::Schedule::fleet_by))]
    pub fn cost(&self, pair: Pair) -> Option<i128>
        ensures value { result ≡ cost_of self.now pair }
        ensures fits { IfSome result IsCost }
    {
        if pair.leg >= self.leg_count() {
            return None;
        }
        let times = self.shift_count(pair.leg);
        if pair.choice / times < self.fleet_count() {
            self.flown_cost(pair)
        } else if pair.choice == self.fleet_count() * times {
            self.leg(pair.leg).skip
        } else {
            None
        }
    }

    // What it costs to fly a pair of a leg.
    #[tactic(auto, unfolding(crate::specs::Schedule::fleet_by))]
    fn flown_cost(&self, pair: Pair) -> Option<i128>
        requires { pair.leg < legs_in self.now }
        ensures value { result ≡ flown_cost self.now pair }
        ensures fits { IfSome result IsCost }
    {
        match self.fleet_cost(pair.leg, pair.choice / self.shift_count(pair.leg)) {
            Some(cost) => Some(cost + self.shift_by(pair).extra),
            None => None,
        }
    }

    /// What a fleet costs on a leg, in cost units, and none where it may not fly it.
    pub fn fleet_cost(&self, leg: u32, fleet: u32) -> Option<i128>
        ensures value { result ≡ cost_in self.now.costs leg fleet }
        ensures fits { IfSome result (IsCostUpTo 2) }
    {
        self.costs.get(leg, fleet)
    }

    /// How many stations there are.
    pub fn station_count(&self) -> u32
        ensures { result ≡ stations_in self.now }
    {
        self.stations.len() as u32
    }

    /// How many fleets there are.
    pub fn fleet_count(&self) -> u32
        ensures { result ≡ fleets_in self.now }
    {
        self.fleets.len() as u32
    }

    /// How many legs there are.
    pub fn leg_count(&self) -> u32
        ensures { result ≡ legs_in self.now }
    {
        self.legs.len() as u32
    }

    /// The minutes of the period after which the schedule repeats.
    #[tactic(auto, unfolding(crate::specs::Schedule::period_of))]
    pub fn period(&self) -> u16
        ensures value { result ≡ period_of self.now }
        ensures some { 1440 ≤ result }
        ensures week { result ≤ 10080 }
    {
        self.settings.minutes()
    }

    /// How many days the period has.
    #[tactic(auto, unfolding(crate::specs::Schedule::days_in))]
    pub fn day_count(&self) -> u32
        ensures value { result ≡ days_in self.now }
        ensures some { 1 ≤ result }
        ensures week { result ≤ 7 }
    {
        u32::from(self.settings.period)
    }

    /// How many aircraft may stand at a station at the end of a day, where there is a limit.
    #[tactic(auto, unfolding(crate::specs::Schedule::parking_of))]
    pub fn parking(&self, station: u32) -> Option<u32>
        requires { station < stations_in self.now }
        ensures { result ≡ parking_of self.now station }
    {
        self.station(station).parking
    }

    /// How many times a leg has.
    pub fn shift_count(&self, leg: u32) -> u32
        requires { leg < legs_in self.now }
        ensures value { result ≡ shifts_in self.now leg }
        ensures some { 0 < result }
        ensures few { result ≤ MAX_SHIFTS }
    {
        self.leg(leg).shifts.len()
    }

    /// How many choices a leg has: the fleets, each at each of its times, and where legs may be left out that.
    #[tactic(auto, unfolding(crate::specs::Schedule::choices_in))]
    pub fn choice_count(&self, leg: u32) -> u32
        requires { leg < legs_in self.now }
        ensures value { result ≡ choices_in self.now leg }
        ensures few { result ≤ MAX_CHOICES }
    {
        self.fleet_count() * self.shift_count(leg) + u32::from(self.optional)
    }

    /// The choice by which a leg is left out.
    pub fn left_out(&self, leg: u32) -> u32
        requires { leg < legs_in self.now }
        ensures value { result ≡ left_out self.now leg }
        ensures few { result < MAX_CHOICES }
    {
        self.fleet_count() * self.shift_count(leg)
    }

    /// The fleet that a pair is flown by, and as many as there are fleets where it leaves its leg out.
    #[tactic(auto, unfolding(crate::specs::Schedule::fleet_by))]
    pub fn fleet_by(&self, pair: Pair) -> u32
        requires { IsPair self.now pair }
        ensures value { result ≡ fleet_by self.now pair }
        ensures known { result ≤ fleets_in self.now }
    {
        pair.choice / self.shift_count(pair.leg)
    }

    /// The time at which a pair is flown; where it leaves its leg out, the leg's first.
    #[tactic(auto, unfolding(crate::specs::Schedule::slot_by))]
    pub fn shift_by(&self, pair: Pair) -> &Shift
        requires { pair.leg < legs_in self.now }
        ensures value { result.now ≡ shift_by self.now pair }
        ensures fits { IsShift (days_in self.now) (leg_of self.now pair.leg).dep result.now }
    {
        let slot = pair.choice % self.shift_count(pair.leg);
        &self.leg(pair.leg).shifts.as_slice()[slot as usize]
    }

    /// How many departures all legs have together, each at each of its times.
    #[tactic(auto, unfolding(crate::specs::Schedule::departures_in))]
    pub fn departure_count(&self) -> u32
        ensures value { result ≡ departures_in self.now }
        ensures few { result ≤ MAX_DEPARTURES }
    {
        self.departures.len() as u32
    }

    /// The pair by which a fleet flies a departure.
    #[tactic(auto, unfolding(crate::specs::Schedule::leg_at, crate::specs::Schedule::choice_on))]
    pub fn pair_on(&self, departure: u32, fleet: u32) -> Pair
        requires departure { departure < departures_in self.now }
        requires fleet { fleet < fleets_in self.now }
        ensures value { result ≡ pair_on self.now departure fleet }
        ensures flown { IsFlown self.now result }
    {
        let Departure { leg, slot } = self.departure_at(departure);
        Pair {
            leg,
            choice: fleet * self.shift_count(leg) + slot,
        }
    }

    // The leg of a departure, and which of its times it is.
    #[tactic(auto, unfolding(crate::specs::Schedule::departures_in))]
    fn departure_at(&self, departure: u32) -> Departure
        requires { departure < departures_in self.now }
        ensures value { result ≡ slice_index_or self.now.departures departure no_departure }
        ensures leg { result.leg < legs_in self.now }
        ensures slot { result.slot < shifts_in self.now result.leg }
    {
        self.departures.as_slice()[departure as usize]
    }

    /// The pair by which a fleet flies a leg at the leg's own time.
    #[tactic(auto, unfolding(crate::specs::OwnTimes::own_choice))]
    pub fn own_pair(&self, leg: u32, fleet: u32) -> Pair
        requires leg { leg < legs_in self.now }
        requires fleet { fleet < fleets_in self.now }
        ensures value { result ≡ own_pair self.now leg fleet }
        ensures flown { IsFlown self.now result }
    {
        Pair {
            leg,
            choice: fleet * self.shift_count(leg) + self.leg(leg).shifts.own_slot(),
        }
    }
}
