//! Which choice of a leg is told by what flies it and by how many minutes that departs later than at the leg's own time.
//! Takes no memory.
ghost use Rattle.std.specs.Prelude.{◌≡◌, ◌<◌, ◌≤◌, length, IfSome, None, Some};
ghost use Rattle.fleet_model.specs.Schedule.{fleets_in, legs_in};
ghost use Rattle.fleet_model.specs.declared.limits.TheConstants.{MAX_SHIFTS};
ghost use Rattle.proof_lines.specs.Choices.{choice_told, slot_in};

use fleet_model::{Shift, Tables};

/// The choice of a leg by which this fleet flies it that many minutes later than at its own time, where that is one of its
/// times; and without a fleet the choice by which the leg is left out, where the minutes are 0.
pub fn choice_told(tables: &Tables, leg: u32, flier: Option<u32>, minutes: &i128) -> Option<u32>
    requires leg { leg < legs_in tables.now }
    requires flier { IfSome flier (λ fleet. fleet < fleets_in tables.now) }
    ensures { result ≡ choice_told tables.now leg flier minutes.now }
{
    match flier {
        Some(fleet) => flown(tables, leg, fleet, minutes),
        None => left_out(tables, leg, minutes),
    }
}

/// The choice by which a fleet flies a leg that many minutes later than at its own time.
#[tactic(auto, unfolding(crate::specs::Choices::choice_told))]
fn flown(tables: &Tables, leg: u32, fleet: u32, minutes: &i128) -> Option<u32>
    requires leg { leg < legs_in tables.now }
    requires fleet { fleet < fleets_in tables.now }
    ensures { result ≡ choice_told tables.now leg (Some fleet) minutes.now }
{
    match slot_in(minutes, tables.leg(leg).shifts.as_slice()) {
        Some(slot) => Some(fleet * tables.shift_count(leg) + slot),
        None => None,
    }
}

/// The choice by which a leg is left out, which is told with 0 minutes.
#[tactic(auto, unfolding(crate::specs::Choices::choice_told))]
fn left_out(tables: &Tables, leg: u32, minutes: &i128) -> Option<u32>
    requires { leg < legs_in tables.now }
    ensures { result ≡ choice_told tables.now leg None minutes.now }
{
    if *minutes == 0 {
        Some(tables.left_out(leg))
    } else {
        None
    }
}

/// The place of the time that is so many minutes later than the leg's own.
fn slot_in(minutes: &i128, shifts: &[Shift]) -> Option<u32>
    requires { length shifts.now ≤ MAX_SHIFTS }
    ensures value { result ≡ slot_in minutes.now shifts.now }
    ensures within { IfSome result (λ slot. slot < length shifts.now) }
{
    let Some((shift, rest)) = shifts.split_first() else {
        return None;
    };
    if i128::from(shift.minutes) == *minutes {
        return Some(0);
    }
    match slot_in(minutes, rest) {
        Some(slot) => Some(slot + 1),
        None => None,
    }
}
