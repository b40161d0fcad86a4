//! With which line each tail of a plan's fleets begins.
ghost use Rattle.std.specs.Prelude.{◌≡◌, ◌<◌, IfOk};
ghost use Rattle.due_report.specs.Placings.{ArePlacings, IsPlacing, are_unplaced, is_unplaced};
ghost use Rattle.fleet_model.specs.Legal.{IsAssignment};
ghost use Rattle.fleet_model.specs.Schedule.{days_in, fleets_in};
ghost use Rattle.euler_rotation.specs.FleetRotations.{AreFlown, AreKept, AreRotations, IsKept, IsRotationFlown};

use entries::NoMemory;
use euler_rotation::{FleetRotation, Rotation};
use fleet_model::{Assignment, Tables};
use std::alloc::Global;
use tail_dates::{Placed, TailState, place};

/// What becomes of the tails of each fleet that begin on a day of the period, counted from 0, in table order. Nothing is said
/// of those of a fleet without a tour.
pub fn placings(
    alloc: Global,
    tables: &Tables,
    plan: &Assignment,
    rotations: &[FleetRotation],
    day: u32,
    tails: &[TailState],
) -> Result<Vec<Option<Placed>>, NoMemory>
    requires plan { IsAssignment tables.now plan.now }
    requires rotations { AreRotations tables.now rotations.now }
    requires tours { AreFlown tables.now plan.now rotations.now }
    requires kept { AreKept tables.now rotations.now }
    requires day { day < days_in tables.now }
    ensures { IfOk result (λ placings. ArePlacings tables.now plan.now rotations.now day tails.now placings.items) }
{
    let mut placings = Vec::new(alloc);
    for fleet in 0..rotations.len() as u32 {
        let made = &rotations[fleet as usize];
        placings.push(placing(alloc, tables, plan, fleet, made.last(), day, tails)?)?;
    }
    Ok(placings)
}

/// What becomes of the tails of a fleet.
fn placing(
    alloc: Global,
    tables: &Tables,
    plan: &Assignment,
    fleet: u32,
    rotation: &Rotation,
    day: u32,
    tails: &[TailState],
) -> Result<Option<Placed>, NoMemory>
    requires plan { IsAssignment tables.now plan.now }
    requires fleet { fleet < fleets_in tables.now }
    requires tour { IsRotationFlown tables.now plan.now fleet rotation.now }
    requires kept { IsKept tables.now fleet rotation.now }
    requires day { day < days_in tables.now }
    ensures { IfOk result (IsPlacing tables.now plan.now fleet day tails.now rotation.now) }
{
    match rotation {
        Rotation::Tour(tour) => {
            let placed = place(alloc, tables, plan, fleet, tour.as_slice(), day, tails)?;
            Ok(Some(placed))
        }
        _ => Ok(None),
    }
}

/// Whether the tails of a fleet with a tour are too few or too many, or can't all come to maintenance in time from where they
/// are told to be, or it is told of some of them alone. Takes no memory.
pub fn are_unplaced(placings: &[Option<Placed>]) -> bool
    ensures { result ≡ are_unplaced placings.now }
{
    placings.iter().any(is_unplaced)
}

/// Whether a fleet's tails are so.
fn is_unplaced(placing: &Option<Placed>) -> bool
    ensures { result ≡ is_unplaced placing.now }
{
    match placing {
        Some(Placed::WrongNumber { .. }) | Some(Placed::Late { .. }) => true,
        Some(Placed::SomeAt { .. }) | Some(Placed::Lacks { .. }) | Some(Placed::LateAt { .. }) =>
            true,
        Some(Placed::Lines(_)) | None => false,
    }
}
