//! Which tables may have islands.
ghost use Rattle.std.specs.Prelude.{◌≡◌, ◌<◌, ◌≤◌};
ghost use Rattle.fleet_model.specs.Schedule.{legs_in};
ghost use Rattle.fleet_model.specs.declared.limits.TheConstants.{MAX_CHOICES};
ghost use Rattle.fleet_model.specs.LeftOut.{left_out_on};
ghost use Rattle.node_aggregate.specs.island_cut.PlainDay.{choices_left_out, is_plain_day, limits_in};

use fleet_model::{Pair, Tables};

/// Whether the period is one day, no station has a limit at night, each leg departs once, and none may be left out. Takes no
/// memory.
#[tactic(auto, unfolding(crate::specs::island_cut::PlainDay::is_plain_day))]
pub(crate) fn is_plain_day(tables: &Tables) -> bool
    ensures { result ≡ is_plain_day tables.now }
{
    tables.day_count() == 1
        && tables.departure_count() == tables.leg_count()
        && limits(tables) == 0
        && left_out(tables) == 0
}

// How many stations have a limit.
#[tactic(auto, unfolding(crate::specs::island_cut::PlainDay::limits_in))]
fn limits(tables: &Tables) -> u32
    ensures { result ≡ limits_in tables.now }
{
    let mut count = 0;
    for station in 0..tables.station_count() {
        if tables.parking(station).is_some() {
            count += 1;
        }
    }
    count
}

// By how many choices legs may be left out.
#[tactic(auto, unfolding(crate::specs::island_cut::PlainDay::choices_left_out))]
fn left_out(tables: &Tables) -> u32
    ensures { result ≡ choices_left_out tables.now }
{
    let mut count = 0;
    for leg in 0..tables.leg_count() {
        count += left_out_on(tables, leg);
    }
    count
}

// By how many choices a leg may be left out.
#[tactic(auto, unfolding(fleet_model::specs::LeftOut::left_out_on))]
fn left_out_on(tables: &Tables, leg: u32) -> u32
    requires { leg < legs_in tables.now }
    ensures value { result ≡ left_out_on tables.now leg }
    ensures few { result ≤ MAX_CHOICES }
{
    let mut count = 0;
    for choice in 0..tables.choice_count(leg) {
        let pair = Pair { leg, choice };
        if tables.fleet_by(pair) >= tables.fleet_count() && tables.cost(pair).is_some() {
            count += 1;
        }
    }
    count
}
