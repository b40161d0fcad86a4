//! Where a tour begins.
ghost use Rattle.std.specs.Prelude.{◌≡◌, ◌+◌, ◌<◌, IfOk, length};
ghost use Rattle.euler_rotation.specs.Asked.{AreKnown, IsAsked};
ghost use Rattle.euler_rotation.specs.Tours.{BeginsLeast, IsKeptTour, periods_before, turned_tour};
ghost use Rattle.euler_rotation.specs.Starts.{IsLeastPlace, LeastOrNone};

use crate::asked::Asked;
use entries::{Entries, NoMemory};
use lines_of_flying::periods_after;
use std::alloc::Global;

/// A kept tour from the least leg that has a period's start before it.
pub(crate) fn begun(
    alloc: Global,
    asked: &Asked<'_>,
    tour: &[u32],
) -> Result<Entries<u32>, NoMemory>
    requires asked { IsAsked asked.now }
    requires kept { IsKeptTour asked.now.tables.now asked.now.plan.now asked.now.fleet asked.now.pairs.now asked.now.days tour.now }
    ensures kept { IfOk result (IsKeptTour asked.now.tables.now asked.now.plan.now asked.now.fleet asked.now.pairs.now asked.now.days) }
    ensures begins { IfOk result (BeginsLeast asked.now.tables.now asked.now.fleet) }
{
    let place = first_place(asked, tour);
    let legs = turned(alloc, tour, place)?;
    Ok(Entries::from_vec(legs))
}

// A tour from another of its places on.
fn turned(alloc: Global, tour: &[u32], place: usize) -> Result<Vec<u32>, NoMemory>
    requires { place < length tour.now }
    ensures { IfOk result (λ legs. legs.items ≡ turned_tour place tour.now) }
{
    let mut legs = Vec::new(alloc);
    for step in 0..tour.len() {
        legs.push(tour[(step + place) % tour.len()])?;
    }
    Ok(legs)
}

// The place of the least leg of a tour that has a period's start before it.
fn first_place(asked: &Asked<'_>, tour: &[u32]) -> usize
    requires asked { IsAsked asked.now }
    requires kept { IsKeptTour asked.now.tables.now asked.now.plan.now asked.now.fleet asked.now.pairs.now asked.now.days tour.now }
    ensures { IsLeastPlace asked.now.tables.now asked.now.fleet tour.now (length tour.now) result }
{
    match least_place(asked, tour) {
        Some(place) => place,
        None => unreachable!(),
    }
}

// That place, where there is one.
fn least_place(asked: &Asked<'_>, tour: &[u32]) -> Option<usize>
    requires asked { IsAsked asked.now }
    requires known { AreKnown asked.now.tables.now tour.now }
    ensures { LeastOrNone asked.now.tables.now asked.now.fleet tour.now (length tour.now) result }
{
    let mut least = None;
    for place in 0..tour.len() {
        least = lesser(asked, tour, least, place);
    }
    least
}

// The place of the lesser leg, of that so far and one more.
fn lesser(asked: &Asked<'_>, tour: &[u32], least: Option<usize>, place: usize) -> Option<usize>
    requires asked { IsAsked asked.now }
    requires known { AreKnown asked.now.tables.now tour.now }
    requires place { place < length tour.now }
    requires least { LeastOrNone asked.now.tables.now asked.now.fleet tour.now place least }
    ensures { LeastOrNone asked.now.tables.now asked.now.fleet tour.now (place + 1) result }
{
    if periods_before(asked, tour, place) == 0 {
        return least;
    }
    if let Some(other) = least {
        if tour[other] <= tour[place] {
            return Some(other);
        }
    }
    Some(place)
}

// The period starts before the leg at a place of a tour.
fn periods_before(asked: &Asked<'_>, tour: &[u32], place: usize) -> u32
    requires asked { IsAsked asked.now }
    requires known { AreKnown asked.now.tables.now tour.now }
    requires place { place < length tour.now }
    ensures { result ≡ periods_before asked.now.tables.now asked.now.fleet tour.now place }
{
    periods_after(
        asked.tables,
        asked.fleet,
        tour,
        (place + (tour.len() - 1)) % tour.len(),
    )
}
