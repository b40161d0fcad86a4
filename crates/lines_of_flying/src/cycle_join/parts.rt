//! Which of a fleet's legs have one label.
ghost use Rattle.std.specs.Prelude.{◌≡◌, ◌<◌, ℕ, IfOk, MatchBool, length, slice_index};
ghost use Rattle.fleet_model.specs.Counts.{choice_at};
ghost use Rattle.fleet_model.specs.Schedule.{legs_in};
ghost use Rattle.lines_of_flying.specs.cycle_join.Joins.{Flies, FliesSome, IsFirstLeg};
ghost use Rattle.lines_of_flying.specs.cycle_join.Labels.{label_of, legs_labelled};
ghost use Rattle.lines_of_flying.specs.cycle_join.Meetings.{AreCycles, HasOneLabel, HasOtherLabel, IsMeetingGround};

use crate::cycle_join::cycles::Cycles;
use crate::cycle_join::ground::Ground;
use entries::{Entries, NoMemory};
use std::alloc::Global;

/// The fleet's leg of the least number. Takes no memory.
pub(crate) fn first_leg(ground: &Ground<'_>) -> u32
    requires ground { IsMeetingGround ground.now }
    requires flies { FliesSome ground.now.tables.now ground.now.plan.now ground.now.fleet }
    ensures { IsFirstLeg ground.now.tables.now ground.now.plan.now ground.now.fleet result }
{
    for leg in 0..ground.tables.leg_count() {
        if ground.plan.choice(leg) == ground.fleet {
            return leg;
        }
    }
    unreachable!()
}

/// Whether all legs of the fleet have the label of one of them. Takes no memory.
pub(crate) fn has_one_label(ground: &Ground<'_>, cycles: &Cycles, first: u32) -> bool
    requires ground { IsMeetingGround ground.now }
    requires cycles { AreCycles ground.now cycles.now }
    requires first { first < legs_in ground.now.tables.now }
    ensures { MatchBool result (HasOneLabel ground.now cycles.now first) (HasOtherLabel ground.now cycles.now first) }
{
    for leg in 0..ground.tables.leg_count() {
        if ground.plan.choice(leg) == ground.fleet
            && cycles.labels[leg as usize] != cycles.labels[first as usize]
        {
            return false;
        }
    }
    true
}

/// The legs that have the label of one of them, by number.
pub(crate) fn legs_of(
    alloc: Global,
    ground: &Ground<'_>,
    cycles: &Cycles,
    first: u32,
) -> Result<Entries<u32>, NoMemory>
    requires cycles { AreCycles ground.now cycles.now }
    requires first { first < legs_in ground.now.tables.now }
    ensures { IfOk result (λ legs. legs ≡ legs_labelled cycles.now.labels.items (label_of cycles.now.labels.items first) (legs_in ground.now.tables.now)) }
{
    let mut legs = Vec::new(alloc);
    for leg in 0..ground.tables.leg_count() {
        if cycles.labels[leg as usize] == cycles.labels[first as usize] {
            legs.push(leg)?;
        }
    }
    Ok(Entries::from_vec(legs))
}
