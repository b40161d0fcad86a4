//! Fractional assignments: the first pair that is flown in part, and where there is none the assignment that is flown.
ghost use Rattle.std.specs.Prelude.{◌≡◌, ◌<◌, MatchBool, MatchOption};
ghost use Rattle.fleet_model.specs.Schedule.{IsPair, legs_in};
ghost use Rattle.dual_bound.specs.Fractions.{AreMixedParts, IsMixedWhole, IsWholeLeg, IsWholePair};
ghost use Rattle.node_bounding.specs.Wholes.{FliesPart, FliesParts, HasChoices, IsFirstPartialOn, IsPartial, IsSplitPair};

use dual_bound::Mixed;
use fleet_model::{Assignment, Pair, Tables};

/// The first pair, by leg and then by choice, that is flown in part. Takes no memory.
pub(crate) fn first_partial(tables: &Tables, mixed: &Mixed) -> Option<Pair>
    requires { AreMixedParts tables.now mixed.now }
    ensures { MatchOption result (IsMixedWhole tables.now mixed.now) (IsSplitPair tables.now mixed.now) }
{
    for leg in 0..tables.leg_count() {
        if let Some(choice) = first_partial_on(tables, mixed, leg) {
            return Some(Pair { leg, choice });
        }
    }
    None
}

// The first pair of a leg that is flown in part.
fn first_partial_on(tables: &Tables, mixed: &Mixed, leg: u32) -> Option<u32>
    requires parts { AreMixedParts tables.now mixed.now }
    requires leg { leg < legs_in tables.now }
    ensures { MatchOption result (IsWholeLeg tables.now mixed.now leg) (IsFirstPartialOn tables.now mixed.now leg) }
{
    for choice in 0..tables.choice_count(leg) {
        if is_partial(tables, mixed, Pair { leg, choice }) {
            return Some(choice);
        }
    }
    None
}

// Whether a pair is flown in part.
fn is_partial(tables: &Tables, mixed: &Mixed, pair: Pair) -> bool
    requires parts { AreMixedParts tables.now mixed.now }
    requires pair { IsPair tables.now pair }
    ensures { MatchBool result (IsPartial mixed.now pair.leg pair.choice) (IsWholePair mixed.now pair.leg pair.choice) }
{
    let weight = mixed.weight(pair);
    0 < weight && weight < mixed.scale
}

/// The assignment that has for each leg the first choice by which a part of it is flown. Takes no memory.
pub(crate) fn flown_parts(tables: &Tables, mixed: &Mixed) -> Assignment
    requires { HasChoices tables.now mixed.now }
    ensures { FliesParts tables.now mixed.now result }
{
    let mut plan = Assignment::empty();
    for leg in 0..tables.leg_count() {
        plan.push(flown_part(tables, mixed, leg));
    }
    plan
}

// The first choice by which a part of a leg is flown.
fn flown_part(tables: &Tables, mixed: &Mixed, leg: u32) -> u32
    requires some { HasChoices tables.now mixed.now }
    requires leg { leg < legs_in tables.now }
    ensures { FliesPart tables.now mixed.now leg result }
{
    for choice in 0..tables.choice_count(leg) {
        if mixed.weight(Pair { leg, choice }) != 0 {
            return choice;
        }
    }
    unreachable!()
}
