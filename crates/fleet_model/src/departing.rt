//! The list of all departures.
ghost use Rattle.std.specs.Prelude.{◌≡◌, ◌≤◌, ◌<◌, ◌++◌, length, slice_index_or, IfOk, OnOk};
ghost use Rattle.fleet_model.specs.declared.limits.TheConstants.{MAX_LEGS, MAX_SHIFTS};
ghost use Rattle.fleet_model.specs.Windows.{departures_of_legs, departures_on, times_of};

use crate::parts::{Departure, Leg};
use entries::NoMemory;
use std::alloc::Global;

/// Each of these legs at each of its times, by leg, then time.
///
/// # Errors
/// `NoMemory` where there is none left for the list.
pub fn departures_of(alloc: Global, legs: &[Leg]) -> Result<Vec<Departure>, NoMemory>
    requires { length legs.now ≤ MAX_LEGS }
    ensures { IfOk result (λ listed. listed.items ≡ departures_of_legs legs.now) }
{
    let mut listed = Vec::new(alloc);
    for leg in 0..legs.len() as u32 {
        push_departures(&mut listed, legs, leg)?;
    }
    Ok(listed)
}

// Puts the departures of a leg behind those so far.
fn push_departures(listed: &mut Vec<Departure>, legs: &[Leg], leg: u32) -> Result<(), NoMemory>
    requires { leg < length legs.now }
    ensures { OnOk result (listed.new.items ≡ listed.old.items ++ departures_on legs.now leg) }
{
    for slot in 0..times_on(&legs[leg as usize]) {
        listed.push(Departure { leg, slot })?;
    }
    Ok(())
}

// How many times a leg has.
fn times_on(leg: &Leg) -> u32
    ensures value { result ≡ length leg.now.shifts }
    ensures few { result ≤ MAX_SHIFTS }
{
    leg.shifts.len()
}
