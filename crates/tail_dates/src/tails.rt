ghost use Rattle.std.specs.Prelude.{◌≡◌, ◌++◌, [], ◌∷◌, IfOk, OnOk};
ghost use Rattle.tail_dates.specs.Late.{AreLessThan};
ghost use Rattle.tail_dates.specs.Places.{told_numbers};
ghost use Rattle.tail_dates.specs.Placing.{ats_of, lefts_of};

use crate::place_numbers::number_of;
use entries::{Entries, NoMemory};
use fleet_model::Tables;
use std::alloc::Global;

/// Where an aircraft is as a day starts.
#[derive(Clone, Copy)]
pub enum Place {
    /// On the ground, where it waits to depart.
    Stands {
        /// The station, by its number.
        station: u32,
    },
    /// In a flight or in its turn.
    Flies {
        /// The leg, by its number.
        leg: u32,
    },
}

/// An aircraft by its tail, how soon it has to come to maintenance, and where it is.
#[derive(Drop)]
pub struct TailState {
    /// The tail.
    pub name: Entries<u8>,
    /// The fleet, by its number.
    pub fleet: u32,
    /// The nights that are left: that many come, and one of them must be for maintenance.
    pub left: u8,
    /// Where it is as the first of these days begins, and none where that isn't told.
    pub at: Option<Place>,
}

/// The nights left of the tails of a fleet, in their order.
pub(crate) fn lefts_of(alloc: Global, tails: &[TailState], fleet: u32) -> Result<Vec<u64>, NoMemory>
    ensures value { IfOk result (λ lefts. lefts.items ≡ lefts_of fleet tails.now) }
    ensures few { IfOk result (λ lefts. AreLessThan 256 lefts.items) }
{
    let mut lefts = Vec::new(alloc);
    for place in 0..tails.len() {
        if tails[place].fleet == fleet {
            lefts.push(u64::from(tails[place].left))?;
        }
    }
    Ok(lefts)
}

/// The numbers of the places of those tails of a fleet whose place is told, in their order.
pub(crate) fn told_of(
    alloc: Global,
    tables: &Tables,
    tails: &[TailState],
    fleet: u32,
) -> Result<Vec<u64>, NoMemory>
    ensures { IfOk result (λ told. told.items ≡ told_numbers tables.now (ats_of fleet tails.now)) }
{
    let mut told = Vec::new(alloc);
    for place in 0..tails.len() {
        let tail = &tails[place];
        if tail.fleet == fleet {
            push_told(&mut told, tables, tail.at)?;
        }
    }
    Ok(told)
}

/// Appends the number of a place, where it is told.
fn push_told(told: &mut Vec<u64>, tables: &Tables, at: Option<Place>) -> Result<(), NoMemory>
    ensures { OnOk result (told.new.items ≡ told.old.items ++ told_numbers tables.now (at ∷ [])) }
{
    match at {
        Some(place) => Ok(told.push(number_of(tables, place))?),
        None => Ok(()),
    }
}
