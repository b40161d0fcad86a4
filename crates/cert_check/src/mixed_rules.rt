//! Whether the fractional assignment of a node is one of its subproblem.
//!
//! The most is taken by need: for each fleet and each two legs from one station it asks for a weight, which is found by
//! bisection where the entries of the list rise, and else by a look at each.
ghost use Rattle.std.specs.Prelude.{◌≡◌, ◌*◌, ◌<◌, MatchBool};
ghost use Rattle.fleet_model.specs.Kept.{kept_by};
ghost use Rattle.fleet_model.specs.Schedule.{fleet_of, fleets_in, legs_in};
ghost use Rattle.fleet_model.specs.Use.{IsBalanced};
ghost use Rattle.dual_bound.specs.Fractions.{AreMixedParts, HasAllWeights, HasWeights, IsMixedAt, IsWeight, parts_in, parts_of_leg};
ghost use Rattle.cert_check.specs.MixedRules.{BalancesFleet, Covers, FliesKept, FliesKeptOn, UsesNoMore};

use crate::mixed_counts::{Parted, leg_parts, parts, weight_on};
use crate::mixed_room::has_room;
use crate::price_rules::is_scale;
use dual_bound::{Mixed, WeightFinder};
use fleet_model::{Kept, Pair, Tables};
use stand_counts::{arrivals, departures, used};

/// Whether a fractional assignment is one of a subproblem: scale and weights within their limits, weights on kept
/// pairs alone, which sum to the scale for each leg, balanced, within the fleets, and with room at night. Takes no memory.
pub(crate) fn is_mixed(tables: &Tables, kept: &Kept, mixed: &Mixed) -> bool
    ensures { MatchBool result (IsMixedAt tables.now (kept_by kept.now) mixed.now) (¬ (IsMixedAt tables.now (kept_by kept.now) mixed.now)) }
{
    let mixed = WeightFinder::new(mixed);
    are_parts(tables, &mixed)
        && flies_kept(tables, kept, &mixed)
        && covers(tables, &mixed)
        && is_balanced(tables, &mixed)
        && uses_no_more(tables, &mixed)
        && has_room(tables, &mixed)
}

// Whether the scale and all weights are within their limits.
fn are_parts(tables: &Tables, mixed: &WeightFinder<'_>) -> bool
    ensures { MatchBool result (AreMixedParts tables.now mixed.now) (¬ (AreMixedParts tables.now mixed.now)) }
{
    is_scale(mixed.scale()) && have_weights(tables, mixed)
}

// Whether all weights are 0 or more, and the scale at most.
fn have_weights(tables: &Tables, mixed: &WeightFinder<'_>) -> bool
    ensures { MatchBool result (HasAllWeights tables.now mixed.now) (¬ (HasAllWeights tables.now mixed.now)) }
{
    for leg in 0..tables.leg_count() {
        if !has_weights(tables, mixed, leg) {
            return false;
        }
    }
    true
}

// Whether the weights of a leg's pairs are.
fn has_weights(tables: &Tables, mixed: &WeightFinder<'_>, leg: u32) -> bool
    requires { leg < legs_in tables.now }
    ensures { MatchBool result (HasWeights tables.now mixed.now leg) (¬ (HasWeights tables.now mixed.now leg)) }
{
    for choice in 0..tables.choice_count(leg) {
        if !is_weight(mixed.scale(), &mixed.weight(Pair { leg, choice })) {
            return false;
        }
    }
    true
}

// Whether a weight is.
fn is_weight(scale: &i128, weight: &i128) -> bool
    ensures { MatchBool result (IsWeight scale.now weight.now) (¬ (IsWeight scale.now weight.now)) }
{
    0 <= *weight && *weight <= *scale
}

// Whether no part is flown of pairs that are not kept.
fn flies_kept(tables: &Tables, kept: &Kept, mixed: &WeightFinder<'_>) -> bool
    requires { AreMixedParts tables.now mixed.now }
    ensures { MatchBool result (FliesKept tables.now (kept_by kept.now) mixed.now) (¬ (FliesKept tables.now (kept_by kept.now) mixed.now)) }
{
    for leg in 0..tables.leg_count() {
        if !flies_kept_on(tables, kept, mixed, leg) {
            return false;
        }
    }
    true
}

// Whether no part is flown of a leg's pairs that are not kept.
fn flies_kept_on(tables: &Tables, kept: &Kept, mixed: &WeightFinder<'_>, leg: u32) -> bool
    requires parts { AreMixedParts tables.now mixed.now }
    requires leg { leg < legs_in tables.now }
    ensures { MatchBool result (FliesKeptOn tables.now (kept_by kept.now) mixed.now leg) (¬ (FliesKeptOn tables.now (kept_by kept.now) mixed.now leg)) }
{
    for choice in 0..tables.choice_count(leg) {
        if !kept.kept(leg, choice) && parts(tables, mixed, Pair { leg, choice }) != 0 {
            return false;
        }
    }
    true
}

// Whether the weights of each leg sum to the scale.
fn covers(tables: &Tables, mixed: &WeightFinder<'_>) -> bool
    requires { AreMixedParts tables.now mixed.now }
    ensures { MatchBool result (Covers tables.now mixed.now) (¬ (Covers tables.now mixed.now)) }
{
    let scale = leg_parts(tables, mixed);
    for leg in 0..tables.leg_count() {
        if weight_on(tables, mixed, leg) != scale {
            return false;
        }
    }
    true
}

// Whether each fleet balances at each station.
fn is_balanced(tables: &Tables, mixed: &WeightFinder<'_>) -> bool
    requires { AreMixedParts tables.now mixed.now }
    ensures { MatchBool result (IsBalanced tables.now (parts_in mixed.now)) (¬ (IsBalanced tables.now (parts_in mixed.now))) }
{
    for fleet in 0..tables.fleet_count() {
        if !balances(tables, mixed, fleet) {
            return false;
        }
    }
    true
}

// Whether a fleet balances at each station.
#[tactic(auto, using(stand_counts::proofs::FleetCounts::arrivals_of_fleet, stand_counts::proofs::FleetCounts::departures_of_fleet))]
fn balances(tables: &Tables, mixed: &WeightFinder<'_>, fleet: u32) -> bool
    requires parts { AreMixedParts tables.now mixed.now }
    requires fleet { fleet < fleets_in tables.now }
    ensures { MatchBool result (BalancesFleet tables.now mixed.now fleet) (¬ (BalancesFleet tables.now mixed.now fleet)) }
{
    let flights = Parted { mixed, fleet };
    let last = tables.period() - 1;
    for station in 0..tables.station_count() {
        let came = arrivals(tables, &flights, station, last);
        if came != departures(tables, &flights, station, last) {
            return false;
        }
    }
    true
}

// Whether no fleet uses more aircraft than it has, so many parts each.
#[tactic(auto, using(stand_counts::proofs::FleetCounts::use_of_fleet))]
fn uses_no_more(tables: &Tables, mixed: &WeightFinder<'_>) -> bool
    requires { AreMixedParts tables.now mixed.now }
    ensures { MatchBool result (UsesNoMore tables.now mixed.now) (¬ (UsesNoMore tables.now mixed.now)) }
{
    for fleet in 0..tables.fleet_count() {
        if used(tables, &Parted { mixed, fleet }) > aircraft_parts(tables, mixed, fleet) {
            return false;
        }
    }
    true
}

// The aircraft of a fleet, in parts.
fn aircraft_parts(tables: &Tables, mixed: &WeightFinder<'_>, fleet: u32) -> u128
    requires parts { AreMixedParts tables.now mixed.now }
    requires fleet { fleet < fleets_in tables.now }
    ensures { result ≡ parts_of_leg mixed.now * (fleet_of tables.now fleet).aircraft }
{
    leg_parts(tables, mixed) * u128::from(tables.fleet(fleet).aircraft)
}
