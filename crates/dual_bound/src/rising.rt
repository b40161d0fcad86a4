//! Lists of steps that rise by fleet, station and minute, and what they say at a moment.
ghost use Rattle.std.specs.Prelude.{◌≡◌, ◌-◌, ◌≤◌, ◌<◌, IsTrue, length, pos, slice_index_or};
ghost use Rattle.dual_bound.specs.Prices.{price_after};
ghost use Rattle.dual_bound.specs.Rising.{AreOfOthers, IsPartingSteps, StepsRise, is_by, no_step, said_before, said_of, step_before};

use crate::prices::PriceStep;

/// Whether each step comes before the next one, by fleet, station and minute. It looks at each step once.
pub(crate) fn rise(steps: &[PriceStep]) -> bool
    ensures { IsTrue result → StepsRise steps.now }
{
    steps.is_sorted_by(|a, b| comes_before(a, b))
}

/// The price at a moment by steps that rise, found by bisection.
#[tactic(auto, using(crate::proofs::RisingSteps::price_at_parting))]
pub(crate) fn bisect(steps: &[PriceStep], fleet: u32, station: u32, minute: u16) -> i128
    requires { StepsRise steps.now }
    ensures { result ≡ price_after (pos 0) steps.now fleet station minute }
{
    let place = parting(steps, fleet, station, minute);
    said_before(steps, place, fleet, station)
}

/// The price where a step of those that rise stands, of its fleet at its station.
#[tactic(auto, using(crate::proofs::RisingSteps::own_price))]
pub(crate) fn own_price(steps: &[PriceStep], place: usize) -> i128
    requires rise { StepsRise steps.now }
    requires place { place < length steps.now }
    ensures { result ≡ price_after (pos 0) steps.now (slice_index_or steps.now place no_step).fleet
        (slice_index_or steps.now place no_step).station (slice_index_or steps.now place no_step).minute }
{
    value_of(steps, place)
}

/// The price a minute before a step of those that rise stands, of its fleet at its station.
#[tactic(auto, using(crate::proofs::RisingSteps::earlier_price))]
pub(crate) fn earlier_price(steps: &[PriceStep], place: usize) -> i128
    requires rise { StepsRise steps.now }
    requires place { place < length steps.now }
    requires minute { 0 < (slice_index_or steps.now place no_step).minute }
    ensures { result ≡ price_after (pos 0) steps.now (slice_index_or steps.now place no_step).fleet
        (slice_index_or steps.now place no_step).station ((slice_index_or steps.now place no_step).minute - 1) }
{
    let step = step_at(steps, place);
    said_before(steps, place, step.fleet, step.station)
}

/// Whether no step of those that rise is of a fleet, by the first and the last of them.
#[tactic(auto, using(crate::proofs::RisingSteps::others_before, crate::proofs::RisingSteps::others_of_none))]
pub(crate) fn lack(steps: &[PriceStep], fleet: u32) -> bool
    requires { StepsRise steps.now }
    ensures { IsTrue result → AreOfOthers steps.now fleet }
{
    if steps.is_empty() {
        return true;
    }
    if fleet < step_at(steps, 0).fleet {
        return true;
    }
    is_behind(steps, fleet)
}

// Whether the last step is of a fleet before this one.
#[tactic(auto, using(crate::proofs::RisingSteps::others_after))]
fn is_behind(steps: &[PriceStep], fleet: u32) -> bool
    requires rise { StepsRise steps.now }
    requires some { 0 < length steps.now }
    ensures { IsTrue result → AreOfOthers steps.now fleet }
{
    step_at(steps, steps.len() - 1).fleet < fleet
}

/// The step at a place.
pub(crate) fn step_at(steps: &[PriceStep], place: usize) -> &PriceStep
    requires { place < length steps.now }
    ensures { result.now ≡ slice_index_or steps.now place no_step }
{
    &steps[place]
}

/// What the step before a place says of a fleet at a station: its value where it is theirs, and else 0.
pub(crate) fn said_before(steps: &[PriceStep], place: usize, fleet: u32, station: u32) -> i128
    requires { place ≤ length steps.now }
    ensures { result ≡ said_before steps.now place fleet station }
{
    if place == 0 {
        return 0;
    }
    said_of(&steps[place - 1], fleet, station)
}

// Whether a step comes before another, by fleet, station and minute.
fn comes_before(a: &PriceStep, b: &PriceStep) -> bool
    ensures { result ≡ step_before a.now b.now }
{
    a.fleet < b.fleet
        || a.fleet == b.fleet
            && (a.station < b.station || a.station == b.station && a.minute < b.minute)
}

// How many of the steps that rise stand at a moment or before it.
fn parting(steps: &[PriceStep], fleet: u32, station: u32, minute: u16) -> usize
    requires { StepsRise steps.now }
    ensures { IsPartingSteps steps.now fleet station minute result }
{
    steps.partition_point(|step| is_by(step, fleet, station, minute))
}

// Whether a step stands at a moment or before it.
fn is_by(step: &PriceStep, fleet: u32, station: u32, minute: u16) -> bool
    ensures { result ≡ is_by fleet station minute step.now }
{
    step.fleet < fleet
        || step.fleet == fleet
            && (step.station < station || step.station == station && step.minute <= minute)
}

// What the step at a place says.
fn value_of(steps: &[PriceStep], place: usize) -> i128
    requires { place < length steps.now }
    ensures { result ≡ (slice_index_or steps.now place no_step).value }
{
    step_at(steps, place).value
}

// What a step says of a fleet at a station: its value where it is theirs, and else 0.
fn said_of(step: &PriceStep, fleet: u32, station: u32) -> i128
    ensures { result ≡ said_of step.now fleet station }
{
    if step.fleet == fleet && step.station == station {
        step.value
    } else {
        0
    }
}
