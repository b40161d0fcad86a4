//! Which rule a pair meets among the kept pairs. Each test takes constant time.
ghost use Rattle.std.specs.Prelude.{◌≡◌, ◌<◌, ◌≤◌, ◌*◌, IsTrue};
ghost use Rattle.fleet_model.specs.Kept.{kept_by};
ghost use Rattle.fleet_model.specs.Schedule.{IsPair, fleet_by, fleets_in, period_of, stations_in};
ghost use Rattle.fleet_model.specs.Times.{departure};
ghost use Rattle.fleet_model.specs.declared.limits.TheConstants.{MAX_LEGS};
ghost use Rattle.presolve.specs.Choices.{AreChoices, all_busy_alone};
ghost use Rattle.presolve.specs.Removals.{NoneBare};
ghost use Rattle.presolve.specs.Rules.{departures, landings, removed_by, rule_of, surely_busy};

use crate::alone::busy_at;
use crate::cells::cell;
use crate::choices::Choices;
use crate::rule::Rule;
use fleet_model::{Pair, Tables};

/// The rule by which a kept pair may be removed, and none where it isn't kept, no fleet flies it, or it meets none.
pub(crate) fn removed_by(tables: &Tables, choices: &Choices, pair: Pair) -> Option<Rule>
    requires choices { AreChoices tables.now choices.now }
    requires none_bare { NoneBare tables.now (kept_by choices.now.kept) }
    requires pair { IsPair tables.now pair }
    ensures { result ≡ removed_by tables.now (kept_by choices.now.kept) pair }
{
    if choices.kept.kept(pair.leg, pair.choice) && tables.fleet_by(pair) < tables.fleet_count() {
        rule_of(tables, choices, pair)
    } else {
        None
    }
}

// The first rule that a kept pair meets.
#[tactic(auto, unfolding(crate::specs::Rules::rule_of))]
fn rule_of(tables: &Tables, choices: &Choices, pair: Pair) -> Option<Rule>
    requires choices { AreChoices tables.now choices.now }
    requires none_bare { NoneBare tables.now (kept_by choices.now.kept) }
    requires pair { IsPair tables.now pair }
    requires kept { IsTrue (kept_by choices.now.kept pair) }
    requires flown { fleet_by tables.now pair < fleets_in tables.now }
    ensures { result ≡ rule_of tables.now (kept_by choices.now.kept) pair }
{
    let flown = tables.leg(pair.leg);
    let fleet = tables.fleet_by(pair);
    if landings(tables, choices, fleet, flown.from) == 0 {
        return Some(Rule::NoArrival);
    }
    if departures(tables, choices, fleet, flown.to) == 0 {
        return Some(Rule::NoDeparture);
    }
    if surely_busy(tables, choices, pair, fleet) > tables.fleet(fleet).aircraft {
        return Some(Rule::TooFewAircraft);
    }
    None
}

// How many kept pairs of a fleet land at a station.
fn landings(tables: &Tables, choices: &Choices, fleet: u32, station: u32) -> u32
    requires choices { AreChoices tables.now choices.now }
    requires fleet { fleet < fleets_in tables.now }
    requires station { station < stations_in tables.now }
    ensures { result ≡ landings tables.now (kept_by choices.now.kept) fleet station }
{
    cell(&choices.landings, fleet, station)
}

// How many kept pairs of a fleet depart from a station.
fn departures(tables: &Tables, choices: &Choices, fleet: u32, station: u32) -> u32
    requires choices { AreChoices tables.now choices.now }
    requires fleet { fleet < fleets_in tables.now }
    requires station { station < stations_in tables.now }
    ensures { result ≡ departures tables.now (kept_by choices.now.kept) fleet station }
{
    cell(&choices.departures, fleet, station)
}

// The aircraft of a kept pair's fleet that are surely busy in the minute in which it departs, where it is flown.
fn surely_busy(tables: &Tables, choices: &Choices, pair: Pair, fleet: u32) -> u32
    requires choices { AreChoices tables.now choices.now }
    requires none_bare { NoneBare tables.now (kept_by choices.now.kept) }
    requires pair { IsPair tables.now pair }
    requires kept { IsTrue (kept_by choices.now.kept pair) }
    requires by { fleet ≡ fleet_by tables.now pair }
    requires flown { fleet < fleets_in tables.now }
    ensures { result ≡ surely_busy tables.now (kept_by choices.now.kept) pair (departure tables.now pair) }
{
    let minute = tables.departure(pair);
    let alone = alone(tables, choices, fleet, minute);
    if choices.has_one(tables, pair.leg) {
        alone
    } else {
        alone + busy_at(tables, pair, minute)
    }
}

// The aircraft of a fleet that legs which keep one pair keep busy at the end of a minute.
fn alone(tables: &Tables, choices: &Choices, fleet: u32, minute: u16) -> u32
    requires choices { AreChoices tables.now choices.now }
    requires none_bare { NoneBare tables.now (kept_by choices.now.kept) }
    requires fleet { fleet < fleets_in tables.now }
    requires minute { minute < period_of tables.now }
    ensures value { result ≡ all_busy_alone tables.now (kept_by choices.now.kept) fleet minute }
    ensures few { result ≤ 3 * MAX_LEGS }
{
    cell(&choices.busy, fleet, u32::from(minute))
}
